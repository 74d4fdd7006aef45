//! In how many inputs of a merge a row is.

ghost use Rattle.std.specs.Prelude.{◌≡◌, ◌<◌, ◌^◌};
ghost use Rattle.rj_shards.specs.Copies.{needed, single};

use crate::merge::place::Place;

/// In how many inputs of a merge an unmatched row of an input is, if it is an unmatched row of the
/// whole. Suppose the left rows of a shard are cut into `right` runs and its right rows into `left`
/// runs, and each run of left rows is joined with each run of right rows. A match is in one input.
/// For a shard that isn't cut both numbers are 1. If one is 0, each row of its kind occurs too
/// often.
#[derive(Clone, Copy, Debug, PartialEq, Eq)]
pub struct Copies {
    /// In how many inputs an unmatched left row is.
    pub left: u32,
    /// In how many inputs an unmatched right row is.
    pub right: u32,
}

impl Copies {
    /// The copies of an input whose rows are in no other input.
    pub fn single() -> Copies
        ensures { result ≡ single }
    {
        Copies { left: 1, right: 1 }
    }

    // How often a row of this place has to be among the rows of all inputs.
    pub(crate) fn needed(self, place: Place) -> u64
        ensures needed { result ≡ needed self place }
        ensures small { result < 2 ^ 32 }
    {
        match place {
            Place::Pair(_, _) => 1,
            Place::LoneAmongPairs(_) | Place::LoneLeft(_) => u64::from(self.left),
            Place::LoneRight(_) => u64::from(self.right),
        }
    }
}

/// A text that is merged, with its copies.
#[derive(Drop)]
pub struct MergeInput<R: Drop> {
    /// The reader of the text.
    pub reader: R,
    /// In how many of the texts its unmatched rows are.
    pub copies: Copies,
}
