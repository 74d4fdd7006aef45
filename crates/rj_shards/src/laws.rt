//! Laws: each of these functions does nothing; its contract is a theorem about all joins in shards.

ghost use Rattle.std.specs.Prelude.{◌≡◌, ◌<◌, ℕ, true, All, List, None, length, map};
ghost use Rattle.std.specs.List.{flat_map, range_with_len};
ghost use Rattle.std.specs.List.Sorted.{IsStrictlyIncreasing};
ghost use Rattle.std.specs.Ordering.{nat_cmp};
ghost use Rattle.rj_columns.specs.Contents.{Content};
ghost use Rattle.rj_columns.specs.Tables.{TableValue};
ghost use Rattle.rj_settings.specs.declared.choice.Choice.{Choice};
ghost use Rattle.rj_settings.specs.declared.choice.RowOrder.{RowOrder};
ghost use Rattle.rj_settings.specs.declared.choice.RowOrder.TheVariants.{PairsFirst};
ghost use Rattle.rj_condition.specs.declared.bound.BoundJoin.{BoundJoin};
ghost use Rattle.rj_engine.specs.Cells.{view_of};
ghost use Rattle.rj_engine.specs.Chosen.{are_all_columns, are_all_rows, chosen_view};
ghost use Rattle.rj_engine.specs.Join.{JoinedValue};
ghost use Rattle.rj_engine.specs.Results.{joined_of, kept_pairs};
ghost use Rattle.rj_shards.specs.Shards as specs;
ghost use Rattle.rj_shards.specs.Shards.{AreMerged, IsLawful, joined_at, joined_shard, joined_shards, left_shard, members_in, places_of_all, right_shard, shard_of};
ghost use Rattle.rj_engine.specs.declared.joined.JoinedRow.{JoinedRow};
ghost use Rattle.rj_shards.specs.Copies.{StandsTooOften, copied_rows, single};
ghost use Rattle.rj_shards.specs.Wholes.{HasTwice, IsMerge, IsMergeOf, RisesFrom};
ghost use Rattle.rj_shards.specs.declared.merge.copies.Copies.{Copies};
ghost use Rattle.rj_shards.specs.declared.merge.place.Place.{Place};
ghost use Rattle.rj_shards.specs.declared.merge.place.Placed.{Placed};
ghost use Rattle.rj_shards.specs.Pieces.{AreCutShards, ArePieces, AreRuns};
ghost use Rattle.rj_shards.specs.Renumbered.{Rises, all_renumbered, inputs_renumbered};
ghost use Rattle.rj_shards.specs.Rows.{AreShards, placed, placed_rows};

/// Each row of a table is in one shard, also a row with a NULL in its key.
pub fn rows_stand_once()
    ensures { (value : List Content → ℕ) (count : ℕ) (table : TableValue) (columns : List ℕ) → 0 < count
        → specs.IsMerge nat_cmp (places_of_all (shard_of value count table columns) table count) (range_with_len 0 (length table.rows)) }
{}

/// What a shard joins, with its row numbers mapped back, is the part of the joined table that is in
/// the shard, in order: the matches and the unmatched rows of its own rows, and nothing else.
pub fn shard_is_part()
    ensures { (value : List Content → ℕ) → IsLawful value → (count : ℕ) (join : BoundJoin) (l r : TableValue) (s : ℕ)
        → joined_shard value count join l r s ≡ members_in (left_shard value count join l) (right_shard value count join r) s (joined_of join l r) }
{}

/// The joined table of two tables is the merge of what its shards join, with their row numbers
/// mapped back. Conversely, whatever is that merge is the joined table. This holds for each kind of
/// join, each lawful hash and each number of shards. If a clause has no keys, all rows are in one
/// shard.
pub fn shards_merge()
    ensures merge { (value : List Content → ℕ) → IsLawful value → (count : ℕ) (join : BoundJoin) (l r : TableValue)
        → 0 < count → AreMerged (joined_shards value count join l r) (joined_of join l r) }
    ensures only { (value : List Content → ℕ) → IsLawful value → (count : ℕ) (join : BoundJoin) (l r : TableValue)
        → 0 < count → (v : JoinedValue) → AreMerged (joined_shards value count join l r) v → v ≡ joined_of join l r }
{}

/// A join of rows of two tables, with keys or without, has the members of its pieces. Its left rows
/// and its right rows are cut into runs, and each run of left rows is joined with each run of right
/// rows. The matches are those of all pieces, in order. The unmatched left rows are, run by run,
/// those that are unmatched beside each run of right rows; and the unmatched right rows likewise.
pub fn pieces_join()
    ensures { (join : BoundJoin) (l r : TableValue) (xs ys : List ℕ) (lefts rights : List (List ℕ)) → AreRuns xs lefts → AreRuns ys rights
        → IsStrictlyIncreasing xs → IsStrictlyIncreasing ys → ArePieces join l r lefts rights (joined_at join l r xs ys) }
{}

/// The two rows of a match have one shard, by the key columns of the join and each lawful hash,
/// whatever the number of shards.
pub fn kept_rows_meet()
    ensures { (value : List Content → ℕ) → IsLawful value → (count : ℕ) (join : BoundJoin) (l r : TableValue)
        → All (λ p. left_shard value count join l p.0 ≡ right_shard value count join r p.1) (kept_pairs join l r) }
{}

/// The rows of the joined table of two tables are the merge of the rows that its shards give. Each
/// shard is joined whole or in pieces, as two tables of their own. The merge takes the rows that
/// occur as often as they have to: a match once, an unmatched left row once for each run of right
/// rows, and an unmatched right row once for each run of left rows. Conversely, whatever is that
/// merge is these rows. This holds for each order of the rows, if the pieces have the same, each
/// kind of join, each lawful hash, each number of shards, all cuts into runs, and whatever is
/// written of a row's cells.
pub fn cut_shards_merge_to_whole<T>()
    ensures merge { (order : RowOrder) (text : List Content → T) (join : BoundJoin) (l r : TableValue) (inputs : List (Copies × List (Placed T)))
        → AreCutShards order text join l r inputs → IsMergeOf (copied_rows inputs) (placed_rows order text join l r) }
    ensures only { (order : RowOrder) (text : List Content → T) (join : BoundJoin) (l r : TableValue) (inputs : List (Copies × List (Placed T)))
        → AreCutShards order text join l r inputs → (rows : List (Placed T)) → IsMergeOf (copied_rows inputs) rows → rows ≡ placed_rows order text join l r }
{}

/// The same if the rows of both tables have other numbers than 0, 1, 2 and so on, as long as the
/// numbers rise, as the byte offsets of the rows in a file do. The merge of the shards by these
/// places is the joined table's rows, in its order.
pub fn renumbered_cut_shards_merge_to_whole<T>()
    ensures { (order : RowOrder) (text : List Content → T) (join : BoundJoin) (l r : TableValue) (inputs : List (Copies × List (Placed T)))
        → AreCutShards order text join l r inputs → (left right : ℕ → ℕ) → Rises left → Rises right → (rows : List (Placed T))
        → IsMergeOf (copied_rows (inputs_renumbered left right inputs)) rows → rows ≡ all_renumbered left right (placed_rows order text join l r) }
{}

/// The rows that a piece gives rise: each is above the one before it. So the piece is an input of a
/// merge as it is.
pub fn pieces_rise<T>()
    ensures { (order : RowOrder) (text : List Content → T) (join : BoundJoin) (l r : TableValue) (inputs : List (Copies × List (Placed T)))
        → AreCutShards order text join l r inputs → All (λ i. RisesFrom None i.1) inputs }
{}

/// No row of all pieces occurs more often than it has to.
pub fn no_place_too_often<T>()
    ensures { (order : RowOrder) (text : List Content → T) (join : BoundJoin) (l r : TableValue) (inputs : List (Copies × List (Placed T)))
        → AreCutShards order text join l r inputs → (place : Place) → StandsTooOften (copied_rows inputs) place → ⊥ }
{}

/// Shards that are joined whole are cut shards, each in one piece, whose rows are in no other one.
pub fn whole_shards_are_cut<T>()
    ensures { (order : RowOrder) (text : List Content → T) (join : BoundJoin) (l r : TableValue) (lists : List (List (Placed T)))
        → AreShards order text join l r lists → AreCutShards order text join l r (map (λ rows. (single, rows)) lists) }
{}

/// The rows of the joined table of two tables are the merge of the rows that its shards give, each
/// shard joined as two tables of their own. Conversely, whatever is that merge is these rows. This
/// holds for each order of the rows, if the shards have the same, each kind of join, each lawful
/// hash, each number of shards, and whatever is written of a row's cells.
pub fn shards_merge_to_whole<T>()
    ensures merge { (order : RowOrder) (text : List Content → T) (join : BoundJoin) (l r : TableValue) (lists : List (List (Placed T)))
        → AreShards order text join l r lists → IsMerge lists (placed_rows order text join l r) }
    ensures only { (order : RowOrder) (text : List Content → T) (join : BoundJoin) (l r : TableValue) (lists : List (List (Placed T)))
        → AreShards order text join l r lists → (rows : List (Placed T)) → IsMerge lists rows → rows ≡ placed_rows order text join l r }
{}

/// The same if the rows of both tables have other numbers than 0, 1, 2 and so on, as long as the
/// numbers rise, as the byte offsets of the rows in a file do. The merge of the shards by these
/// places is the joined table's rows, in its order.
pub fn renumbered_shards_merge_to_whole<T>()
    ensures { (order : RowOrder) (text : List Content → T) (join : BoundJoin) (l r : TableValue) (lists : List (List (Placed T)))
        → AreShards order text join l r lists → (left right : ℕ → ℕ) → Rises left → Rises right → (rows : List (Placed T))
        → IsMerge (map (all_renumbered left right) lists) rows → rows ≡ all_renumbered left right (placed_rows order text join l r) }
{}

/// The rows that a shard gives rise: each is above the one before it. So the shard is an input of a
/// merge as it is.
pub fn shards_rise<T>()
    ensures { (order : RowOrder) (text : List Content → T) (join : BoundJoin) (l r : TableValue) (lists : List (List (Placed T)))
        → AreShards order text join l r lists → All (RisesFrom None) lists }
{}

/// No two rows of all shards have one place.
pub fn no_place_twice<T>()
    ensures { (order : RowOrder) (text : List Content → T) (join : BoundJoin) (l r : TableValue) (lists : List (List (Placed T)))
        → AreShards order text join l r lists → (place : Place) → HasTwice (flat_map (λ l. l) lists) place → ⊥ }
{}

/// The rows of a joined table, of a shard or of the whole, without their places: what is written of
/// the rows of cells that a `View` of it shows, in their order. That is all of it in its own order,
/// or in the chosen one.
pub fn rows_are_shown<T>()
    ensures own { (text : List Content → T) (join : BoundJoin) (l r : TableValue) (back : JoinedRow → JoinedRow)
        → map (λ (p : Placed T). p.row) (placed PairsFirst text join l r back) ≡ map text (view_of join l r).cells }
    ensures chosen { (choice : Choice) (text : List Content → T) (join : BoundJoin) (l r : TableValue) (back : JoinedRow → JoinedRow)
        → are_all_rows choice.rows PairsFirst ≡ true → are_all_columns choice.columns ≡ true
        → map (λ (p : Placed T). p.row) (placed choice.order text join l r back) ≡ map text (chosen_view choice join l r).cells }
{}
