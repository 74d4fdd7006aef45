//! Joined tables in shards, merged into one. Each input gives its rows in order, and the merge
//! gives all of them in order.

ghost use Rattle.std.specs.Prelude.{◌≡◌, ◌++◌, ◌∷◌, ℕ, Bool, true, false, [], None, Some, Ok, IfOk, IfErr, IfNone, IfSome, OnOk, Option, All, Contains};
ghost use Rattle.std.specs.Option.{option_to_list};
ghost use Rattle.std.specs.List.Sorted.{IsPermutation};
ghost use Rattle.std.specs.BinaryHeap.{IsHeap, KeepsHeap, heap_items};
ghost use Rattle.rj_shards.specs.declared.merge.place.Place.{Place};
ghost use Rattle.rj_shards.specs.Copies.{copied};
ghost use Rattle.rj_shards.specs.Merging.{AllTell, AreAbove, AreAmong, AreHeads, AreNewest, AreNotBelow, IsFaultOf, Passes, faults_of_heads, faults_of_inputs, head_order, rows_of_heads, rows_of_inputs};
ghost use Rattle.rj_shards.specs.Places.{IsAbove, IsNotBelow};
ghost use Rattle.rj_shards.specs.Sources.{TellsAmong, TellsOf, is_outside};
ghost use Rattle.rj_shards.specs.Steps.{IsStep, stage_of};

mod block;
mod boxed;
mod columns;
mod copies;
mod fields;
mod head;
mod header;
mod input;
mod laws;
mod named;
mod number;
mod opening;
mod options;
mod place;
mod refused;
mod source;
mod texts;

pub use self::copies::{Copies, MergeInput};
pub use self::fields::Fields;
pub use self::laws::{one_merge, ranges_are_whole, single_copies, steps_are_whole};
pub use self::named::{Opener, merge_named};
pub use self::options::MergeOptions;
pub use self::place::{Place, Placed};
pub use self::refused::{MergeRefused, MergeTextsRefused};
pub use self::source::Source;
pub use self::texts::merge_texts;
use crate::merge::head::Head;
pub use rj_settings::RowOrder;
use std::alloc::Global;
use std::collections::BinaryHeap;

/// A merge of inputs. It holds the next row of each, and gives those that occur as often as they
/// have to, in order.
#[derive(Drop)]
pub struct Merge<S: Source> {
    heads: BinaryHeap<Head<S::Row, S>>,
    passed: Option<Place>,
    // A row that was given back.
    spare: Option<S::Row>,
}

// An input that took a row back, if there is one.
fn with_spare<S: Source>(source: S, spare: Option<S::Row>) -> S
    ensures tells { S.tells source → S.tells result }
    ensures reading { S.reading result ≡ S.reading source }
    ensures last { S.last result ≡ S.last source }
    ensures copies { S.copies result ≡ S.copies source }
    ensures number { S.number result ≡ S.number source }
{
    let mut source = source;
    if let Some(row) = spare {
        source.reuse(row);
    }
    source
}

// Reads the next row of an input, and puts both among the heads. It puts nothing if there is no
// next row.
fn put_next<S: Source>(
    heads: &mut BinaryHeap<Head<S::Row, S>>,
    source: S,
) -> Result<(), MergeRefused>
    ensures heap { OnOk result (KeepsHeap head_order (heap_items heads.old) (heap_items heads.new)) }
    ensures newest { OnOk result (AreNewest S.last (heap_items heads.old) → AreNewest S.last (heap_items heads.new)) }
    ensures above { OnOk result ((given : Option Place) → ((p : Place) → IsAbove (S.last source) p → IsNotBelow given p)
        → AreNotBelow given (heap_items heads.old) → AreNotBelow given (heap_items heads.new)) }
    ensures tells { OnOk result (S.tells source → AllTell S.tells (heap_items heads.old) → AllTell S.tells (heap_items heads.new)) }
    ensures rows { OnOk result (S.tells source
        → IsPermutation (copied (S.copies source) (S.reading source).rows ++ rows_of_heads S.copies S.reading (heap_items heads.old)) (rows_of_heads S.copies S.reading (heap_items heads.new))) }
    ensures faults { OnOk result (S.tells source
        → IsPermutation (option_to_list (S.reading source).fault ++ faults_of_heads S.reading (heap_items heads.old))
        (faults_of_heads S.reading (heap_items heads.new))) }
    ensures fault { IfErr result (λ e. is_outside e ≡ false → S.tells source → (S.reading source).fault ≡ Some e) }
    ensures among { OnOk result ((numbers : ℕ → Bool) → numbers (S.number source) ≡ true → AreAmong S.number numbers (heap_items heads.old) → AreAmong S.number numbers (heap_items heads.new)) }
    ensures input { IfErr result (TellsOf (S.number source)) }
{
    let mut source = source;
    let next = match source.next() {
        Ok(Some(next)) => next,
        Ok(None) => return Ok(()),
        Err(e) => return Err(e),
    };
    match heads.push(Head { next, source }) {
        Ok(()) => {}
        Err(_) => return Err(MergeRefused::Memory),
    }
    Ok(())
}

// The head with the least place, if that is this one.
fn pop_at<T, S>(heads: &mut BinaryHeap<Head<T, S>>, place: Place) -> Option<Head<T, S>>
    ensures taken { IfSome result (λ h. IsPermutation (heap_items heads.old) (h ∷ heap_items heads.new)) }
    ensures place { IfSome result (λ h. h.next.place ≡ place) }
    ensures heap { IsHeap head_order (heap_items heads.old) → IsHeap head_order (heap_items heads.new) }
    ensures none { IfNone result (heap_items heads.new ≡ heap_items heads.old) }
    ensures above { IfNone result (IsHeap head_order (heap_items heads.old) → AreNotBelow (Some place) (heap_items heads.old)
        → AreAbove (Some place) (heap_items heads.new)) }
{
    match heads.peek() {
        Some(head) => {
            if head.next.place != place {
                return None;
            }
        }
        None => return None,
    }
    heads.pop()
}

// Takes all rows of one place from the heads, this head's row first. Returns that row, if there are
// as many as there have to be. This head's input gets the spare row, if there is one.
fn take_place<S: Source>(
    heads: &mut BinaryHeap<Head<S::Row, S>>,
    first: Head<S::Row, S>,
    spare: Option<S::Row>,
) -> Result<Option<Placed<S::Row>>, MergeRefused>
    requires heap { IsHeap head_order (heap_items heads.old) }
    requires newest { AreNewest S.last (first ∷ heap_items heads.old) }
    requires low { AreNotBelow (Some first.next.place) (heap_items heads.old) }
    ensures lawful { OnOk result (AreHeads S.last (Some first.next.place) (heap_items heads.new)) }
    ensures row { IfOk result (λ o. IfSome o (λ r. r ≡ first.next)) }
    ensures tells { OnOk result (AllTell S.tells (first ∷ heap_items heads.old) → AllTell S.tells (heap_items heads.new)) }
    ensures rows { IfOk result (λ o. AllTell S.tells (first ∷ heap_items heads.old) → (passed : Option Place) → IsAbove passed first.next.place
        → Passes passed (Some first.next.place) (rows_of_heads S.copies S.reading (first ∷ heap_items heads.old))
        (rows_of_heads S.copies S.reading (heap_items heads.new)) (option_to_list o)) }
    ensures faults { OnOk result (AllTell S.tells (first ∷ heap_items heads.old)
        → IsPermutation (faults_of_heads S.reading (first ∷ heap_items heads.old)) (faults_of_heads S.reading (heap_items heads.new))) }
    ensures fault { IfErr result (λ e. is_outside e ≡ false → AllTell S.tells (first ∷ heap_items heads.old)
        → IsFaultOf (rows_of_heads S.copies S.reading (first ∷ heap_items heads.old)) (faults_of_heads S.reading (first ∷ heap_items heads.old)) e) }
    ensures among { OnOk result ((numbers : ℕ → Bool) → AreAmong S.number numbers (first ∷ heap_items heads.old) → AreAmong S.number numbers (heap_items heads.new)) }
    ensures input { IfErr result (λ e. (numbers : ℕ → Bool) → AreAmong S.number numbers (first ∷ heap_items heads.old) → TellsAmong numbers e) }
{
    let Head { next, source } = first;
    let mut needed = source.copies().needed(next.place);
    let mut times = 1;
    match put_next(heads, with_spare(source, spare)) {
        Ok(()) => {}
        Err(e) => return Err(e),
    }
    'heads: while times <= needed {
        let Some(head) = pop_at(heads, next.place) else {
            return Ok(if times == needed { Some(next) } else { None });
        };
        needed = needed.min(head.source.copies().needed(next.place));
        times += 1;
        match put_next(heads, head.source) {
            Ok(()) => {}
            Err(e) => return Err(e),
        }
    }
    Err(MergeRefused::RepeatedPlace(next.place))
}

impl<S: Source> Merge<S> {
    /// A merge of no inputs.
    pub fn new(alloc: Global) -> Merge<S>
        ensures heads { heap_items result.heads ≡ [] }
        ensures lawful { AreHeads S.last result.passed (heap_items result.heads) }
        ensures passed { result.passed ≡ None }
    {
        Merge {
            heads: BinaryHeap::new(alloc),
            passed: None,
            spare: None,
        }
    }

    /// Adds an input, and reads its first row.
    ///
    /// # Errors
    ///
    /// The error of the input. The merge can't be used any more then.
    pub fn add(&mut self, source: S) -> Result<(), MergeRefused>
        requires lawful { AreHeads S.last self.old.passed (heap_items self.old.heads) }
        requires passed { self.old.passed ≡ None }
        ensures lawful { OnOk result (AreHeads S.last self.new.passed (heap_items self.new.heads)) }
        ensures passed { self.new.passed ≡ None }
        ensures tells { OnOk result (S.tells source → AllTell S.tells (heap_items self.old.heads) → AllTell S.tells (heap_items self.new.heads)) }
        ensures rows { OnOk result (S.tells source
            → IsPermutation (copied (S.copies source) (S.reading source).rows ++ rows_of_heads S.copies S.reading (heap_items self.old.heads))
            (rows_of_heads S.copies S.reading (heap_items self.new.heads))) }
        ensures faults { OnOk result (S.tells source
            → IsPermutation (option_to_list (S.reading source).fault ++ faults_of_heads S.reading (heap_items self.old.heads))
            (faults_of_heads S.reading (heap_items self.new.heads))) }
        ensures fault { IfErr result (λ e. is_outside e ≡ false → S.tells source → (S.reading source).fault ≡ Some e) }
        ensures among { OnOk result ((numbers : ℕ → Bool) → numbers (S.number source) ≡ true
            → AreAmong S.number numbers (heap_items self.old.heads) → AreAmong S.number numbers (heap_items self.new.heads)) }
        ensures input { IfErr result (TellsOf (S.number source)) }
    {
        put_next(&mut self.heads, source)
    }

    /// A merge of inputs. The first row of each is read.
    ///
    /// # Errors
    ///
    /// The error of an input.
    pub fn open(alloc: Global, inputs: Vec<S>) -> Result<Merge<S>, MergeRefused>
        ensures lawful { IfOk result (λ m. AreHeads S.last m.passed (heap_items m.heads)) }
        ensures passed { IfOk result (λ m. m.passed ≡ None) }
        ensures tells { IfOk result (λ m. All S.tells inputs.items → AllTell S.tells (heap_items m.heads)) }
        ensures rows { IfOk result (λ m. All S.tells inputs.items
            → IsPermutation (rows_of_inputs S.copies S.reading inputs.items) (rows_of_heads S.copies S.reading (heap_items m.heads))) }
        ensures faults { IfOk result (λ m. All S.tells inputs.items
            → IsPermutation (faults_of_inputs S.reading inputs.items) (faults_of_heads S.reading (heap_items m.heads))) }
        ensures fault { IfErr result (λ e. is_outside e ≡ false → All S.tells inputs.items → Contains (faults_of_inputs S.reading inputs.items) e) }
        ensures among { IfOk result (λ m. (numbers : ℕ → Bool) → All (λ s. numbers (S.number s) ≡ true) inputs.items → AreAmong S.number numbers (heap_items m.heads)) }
        ensures input { IfErr result (λ e. (numbers : ℕ → Bool) → All (λ s. numbers (S.number s) ≡ true) inputs.items → TellsAmong numbers e) }
    {
        let mut inputs = inputs;
        let mut merge = Merge::new(alloc);
        'inputs: while let Some(source) = inputs.pop() {
            match merge.add(source) {
                Ok(()) => {}
                Err(e) => return Err(e),
            }
        }
        Ok(merge)
    }

    /// Takes back a row that isn't needed any more, so that a later one can use its memory. What
    /// the merge gives stays the same.
    pub fn reuse(&mut self, row: S::Row)
        ensures { self.new ≡ record self.old { spare = self.new.spare } }
    {
        self.spare = Some(row);
    }

    /// The next row: of all rows that are left and that occur as often as they have to, the one
    /// with the least place. `None` if there is none. Rows that occur less often are skipped.
    ///
    /// # Errors
    ///
    /// The error of an input, or `RepeatedPlace` if a place occurs more often than it has to. The
    /// merge can't be used any more then: the next row is lost. `Memory` and `ReadDevice` come only
    /// from the machine.
    pub fn next(&mut self) -> Result<Option<Placed<S::Row>>, MergeRefused>
        requires { AreHeads S.last self.old.passed (heap_items self.old.heads) }
        ensures lawful { OnOk result (AreHeads S.last self.new.passed (heap_items self.new.heads)) }
        ensures rises { IfOk result (λ o. IfSome o (λ r. IsAbove self.old.passed r.place × (self.new.passed ≡ Some r.place))) }
        ensures tells { OnOk result (AllTell S.tells (heap_items self.old.heads) → AllTell S.tells (heap_items self.new.heads)) }
        ensures step { IfOk result (λ o. AllTell S.tells (heap_items self.old.heads)
            → IsStep (stage_of S.copies S.reading self.old.passed (heap_items self.old.heads)) o
            (stage_of S.copies S.reading self.new.passed (heap_items self.new.heads))) }
        ensures end { result ≡ Ok None
            → (rows_of_heads S.copies S.reading (heap_items self.new.heads) ≡ []) × (faults_of_heads S.reading (heap_items self.new.heads) ≡ []) }
        ensures fault { IfErr result (λ e. is_outside e ≡ false → AllTell S.tells (heap_items self.old.heads)
            → IsFaultOf (rows_of_heads S.copies S.reading (heap_items self.old.heads)) (faults_of_heads S.reading (heap_items self.old.heads)) e) }
        ensures among { OnOk result ((numbers : ℕ → Bool) → AreAmong S.number numbers (heap_items self.old.heads) → AreAmong S.number numbers (heap_items self.new.heads)) }
        ensures input { IfErr result (λ e. (numbers : ℕ → Bool) → AreAmong S.number numbers (heap_items self.old.heads) → TellsAmong numbers e) }
    {
        'places: for _turn in 0..u64::MAX {
            let Some(head) = self.heads.pop() else {
                return Ok(None);
            };
            let place = head.next.place;
            let row = match take_place(&mut self.heads, head, self.spare.take()) {
                Ok(row) => row,
                Err(e) => return Err(e),
            };
            self.passed = Some(place);
            if row.is_some() {
                return Ok(row);
            }
        }
        Err(MergeRefused::Memory)
    }
}
