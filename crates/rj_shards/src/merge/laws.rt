//! Laws: each of these functions does nothing; its contract is a theorem about all merges.

ghost use Rattle.std.specs.Prelude.{◌≡◌, ◌∷◌, ℕ, List, [], None, Option, Some, map};
ghost use Rattle.std.specs.List.{flat_map};
ghost use Rattle.rj_shards.specs.declared.merge.copies.Copies.{Copies};
ghost use Rattle.rj_shards.specs.declared.merge.options.MergeOptions.{MergeOptions};
ghost use Rattle.rj_shards.specs.declared.merge.place.Place.{Place};
ghost use Rattle.rj_shards.specs.declared.merge.place.Placed.{Placed};
ghost use Rattle.rj_shards.specs.declared.merge.refused.MergeRefused.{MergeRefused};
ghost use Rattle.rj_shards.specs.Copies.{AreAlike, AreSingle, StandsTooOften, copied_rows};
ghost use Rattle.rj_shards.specs.MergedTexts.{AreRanges, HaveNoFault, IsMergedText};
ghost use Rattle.rj_shards.specs.Merging.{IsFaultOf, faults_of_inputs, lists_of_inputs};
ghost use Rattle.rj_shards.specs.Places.{IsAbove};
ghost use Rattle.rj_shards.specs.MergeRanges.{AreCuts, between};
ghost use Rattle.rj_shards.specs.Steps.{GaveAll, GaveSoFar, Stage};
ghost use Rattle.rj_shards.specs.Wholes.{HasTwice, IsMerge, IsMergeOf, RisesFrom};

use crate::merge::source::Source;

/// The steps of a merge together give the whole merge. Suppose a merge was opened over inputs that
/// tell, its steps are as `Merge::next` says, and `stage_of` is its stage. Then the rows that its
/// steps gave until none was left are the merge of the inputs, none of which has an error. An error
/// of a step is one of an input, or a place that occurs too often among the rows of all. And the
/// rows rise, whatever the inputs tell.
pub fn steps_are_whole<S: Source>()
    ensures merge { (inputs : List S) (rows : List (Placed S.Row)) → GaveAll S.copies S.reading inputs rows
        → IsMergeOf (copied_rows (lists_of_inputs S.copies S.reading inputs)) rows }
    ensures faults { (inputs : List S) (rows : List (Placed S.Row)) → GaveAll S.copies S.reading inputs rows → faults_of_inputs S.reading inputs ≡ [] }
    ensures fault { (inputs : List S) (rows : List (Placed S.Row)) (now : Stage S.Row) (e : MergeRefused) → GaveSoFar S.copies S.reading inputs rows now
        → IsFaultOf now.rows now.faults e → IsFaultOf (copied_rows (lists_of_inputs S.copies S.reading inputs)) (faults_of_inputs S.reading inputs) e }
    ensures rises { (old new : Option Place) (row : Placed S.Row) (later : List (Placed S.Row)) → IsAbove old row.place × (new ≡ Some row.place)
        → RisesFrom new later → RisesFrom old (row ∷ later) }
{}

/// If rows of one place are alike, there is at most one merge: so the rows that steps gave are the
/// merge. For lists whose rows all are rows of the whole there is one, whatever their rows hold.
pub fn one_merge<T>()
    ensures copies { (inputs : List (Copies × List (Placed T))) (v w : List (Placed T)) → AreAlike (copied_rows inputs)
        → IsMergeOf (copied_rows inputs) v → IsMergeOf (copied_rows inputs) w → v ≡ w }
    ensures lists { (lists : List (List (Placed T))) (v w : List (Placed T)) → IsMerge lists v → IsMerge lists w → v ≡ w }
{}

/// If each row is in one input only, the merge is all rows of the inputs, in order, and a place
/// that occurs too often is that of two of their rows.
pub fn single_copies<T>()
    ensures all { (inputs : List (Copies × List (Placed T))) (rows : List (Placed T)) → AreSingle inputs
        → IsMergeOf (copied_rows inputs) rows → IsMerge (map (λ i. i.1) inputs) rows }
    ensures merge { (inputs : List (Copies × List (Placed T))) (rows : List (Placed T)) → AreSingle inputs
        → IsMerge (map (λ i. i.1) inputs) rows → IsMergeOf (copied_rows inputs) rows }
    ensures twice { (inputs : List (Copies × List (Placed T))) (place : Place) → AreSingle inputs
        → StandsTooOften (copied_rows inputs) place → HasTwice (flat_map (λ i. i.1) inputs) place }
{}

/// The texts of the merges of ranges, one after another, are the text of the whole merge, for all
/// cuts that rise. If the last range has no error, the whole has none.
pub fn ranges_are_whole()
    ensures text { (how : MergeOptions) (copies : List Copies) (texts : List (List ℕ)) (cuts : List Place) (parts : List (List ℕ)) → AreCuts None cuts
        → AreRanges how copies texts None cuts parts → IsMergedText (between how None None) copies texts (flat_map (λ part. part) parts) }
    ensures faults { (how : MergeOptions) (texts : List (List ℕ)) (from : Option Place)
        → HaveNoFault (between how from None) texts → HaveNoFault (between how None None) texts }
{}
