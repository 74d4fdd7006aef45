//! Sources of rows in order.

ghost use Rattle.std.specs.Prelude.{◌≡◌, ℕ, Option, IfErr, IfOk, IfSome, OnOk, Some};
ghost use Rattle.rj_shards.specs.Places.{IsAbove};
ghost use Rattle.rj_shards.specs.Sources.{Gives, Reading, TellsOf};
ghost use Rattle.rj_shards.specs.declared.merge.copies.Copies.{Copies};
ghost use Rattle.rj_shards.specs.declared.merge.place.Place.{Place};

use crate::merge::copies::Copies;
use crate::merge::place::Placed;
use crate::merge::refused::MergeRefused;

/// An input of a merge, which gives rows whose places rise.
pub trait Source: Drop {
    /// The content of a row.
    type Row: Drop;

    // Whether it tells what it will give.
    ghost tells: { Self → Type 0 };

    // The rows that it gives from here on, and the error after them, if there is one.
    ghost reading: { Self → Reading Self.Row };

    // The place of the row that it gave last.
    ghost last: { Self → Option Place };

    // The number by which its errors name it.
    ghost number: { Self → ℕ };

    // In how many inputs its unmatched rows are.
    ghost copies: { Self → Copies };

    /// In how many inputs of the merge a row that it gives is, if it is a row of the whole.
    fn copies(&self) -> Copies
        ensures { result ≡ copies self.now };

    /// The next row, or `None` after the last one.
    ///
    /// # Errors
    ///
    /// The error after its rows, or `Memory` or `ReadDevice`, which come from the machine. After an
    /// error nothing is known of it.
    fn next(&mut self) -> Result<Option<Placed<Self::Row>>, MergeRefused>
        ensures tells { OnOk result (tells self.old → tells self.new) }
        ensures gives { tells self.old → Gives (reading self.old) result (reading self.new) }
        ensures rises { IfOk result (λ o. IfSome o (λ r. IsAbove (last self.old) r.place × (last self.new ≡ Some r.place))) }
        ensures copies { OnOk result (copies self.new ≡ copies self.old) }
        ensures number { OnOk result (number self.new ≡ number self.old) }
        ensures input { IfErr result (TellsOf (number self.old)) };

    /// Takes back a row that isn't needed any more, of this input or of another one of the merge,
    /// so that a later row can use its memory. What the input gives stays the same.
    fn reuse(&mut self, _row: Self::Row)
        ensures tells { tells self.old → tells self.new }
        ensures reading { reading self.new ≡ reading self.old }
        ensures last { last self.new ≡ last self.old }
        ensures copies { copies self.new ≡ copies self.old }
        ensures number { number self.new ≡ number self.old }
    {}
}
