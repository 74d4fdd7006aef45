//! Laws of joined tables, of their names and of what was delivered. The functions do nothing; their
//! contracts are theorems about every join.

ghost use Rattle.std.specs.Prelude.{◌≡◌, ◌≢◌, ◌<◌, ◌≤◌, ◌+◌, ◌^◌, ℕ, List, [], All, None, Ok};
ghost use Rattle.std.specs.Prelude.{false, length, slice_index_or, take, true};
ghost use Rattle.std.specs.List.Sorted.{IsPermutation};
ghost use Rattle.std.specs.declared.alloc.Global.{Global};
ghost use Rattle.std.specs.declared.vec.Vec.{Vec};
ghost use Rattle.rj_columns.specs.Names.{is_name, name_fault};
ghost use Rattle.rj_columns.specs.Tables.{TableValue};
ghost use Rattle.rj_condition.specs.Fits.{fits};
ghost use Rattle.rj_condition.specs.declared.bound.BoundJoin.{BoundJoin};
ghost use Rattle.rj_exchange.specs.Ledgers.{LedgerValue};
ghost use Rattle.rj_settings.specs.declared.choice.Choice.{Choice};
ghost use Rattle.rj_settings.specs.declared.choice.ColumnChoice.TheVariants.{Selected};
ghost use Rattle.rj_settings.specs.declared.choice.Repeated.{Repeated};
ghost use Rattle.rj_settings.specs.declared.choice.Repeated.TheVariants.{Kept};
ghost use Rattle.rj_settings.specs.declared.choice.SelectedColumn.{SelectedColumn};
ghost use Rattle.rj_workers.specs.Arrivals.{AcceptsNoMore};
ghost use Rattle.rj_engine.specs.Cells.{header_of, view_of};
ghost use Rattle.rj_engine.specs.Chosen.{by_left_row, chosen_header, chosen_view, is_plain, left_place};
ghost use Rattle.rj_engine.specs.declared.joined.JoinedRow.{JoinedRow};
ghost use Rattle.rj_engine.specs.Naming.{HasLawfulNames, chosen_names, is_among, written_names};
ghost use Rattle.rj_engine.specs.Once.{KeyedStandOnce, left_side, right_side};
ghost use Rattle.rj_engine.specs.Results.{result_of};
ghost use Rattle.rj_engine.specs.Stripes.{AreDelivered, Dealing};

/// Each row with a key was delivered once. Suppose all that was due was delivered, as
/// [`run_join`](crate::run_join) says of its ledgers (`delivered`). Then a row of the left table
/// whose key has no NULL is in its own partition's ledger, among the rows of its own stripe's
/// sender, at one place. It is nowhere else among what the left table's senders delivered. The same
/// holds for the right table. A row with a NULL in its key is nowhere. Nothing else was delivered,
/// and each sender's rows rise. This holds for every number of stripes and of partitions, and for
/// every hash.
pub fn keyed_rows_stand_once()
    ensures left { (d : Dealing) (ledgers : List LedgerValue) → 0 < d.stripes → AreDelivered d ledgers → KeyedStandOnce d (left_side d) ledgers }
    ensures right { (d : Dealing) (ledgers : List LedgerValue) → 0 < d.stripes → AreDelivered d ledgers → KeyedStandOnce d (right_side d) ledgers }
{}

/// Nothing is accepted after a sender's close. If all that was due was delivered, as
/// [`run_join`](crate::run_join) says of its ledgers (`delivered`), the ledger of each partition
/// has the close of each sender. Whatever is offered to it then is refused and changes nothing. A
/// parcel that could have come (for this partition, of a known sender and of a valid length) is
/// refused because of that close.
pub fn nothing_after_close()
    ensures { (d : Dealing) (ledgers : List LedgerValue) → AreDelivered d ledgers → (p : ℕ) (other : LedgerValue) → p < 2 ^ d.bits
        → AcceptsNoMore (d.stripes + d.stripes) p (slice_index_or ledgers p other) }
{}

/// If all rows are chosen in their own order, and all columns, the joined table itself is written,
/// under its own names unless these are to be renamed.
pub fn plain_choice()
    ensures header { (choice : Choice) (join : BoundJoin) (l r : TableValue) → is_plain choice ≡ true → chosen_header choice join l r ≡ header_of join l r }
    ensures view { (choice : Choice) (join : BoundJoin) (l r : TableValue) → is_plain choice ≡ true → chosen_view choice join l r ≡ view_of join l r }
    ensures names { (choice : Choice) (join : BoundJoin) (l r : TableValue) → is_plain choice ≡ true → choice.repeated ≡ Kept
        → chosen_names choice join l r ≡ Ok (header_of join l r) }
{}

/// The order of the left rows has the same members as the joined table, each as often. The same
/// holds for any list of members whose left rows are among the first `m`.
pub fn left_order()
    ensures members { (join : BoundJoin) (l r : TableValue) → IsPermutation (result_of join l r) (by_left_row (length l.rows) (result_of join l r)) }
    ensures rows { (m : ℕ) (rows : List JoinedRow) → All (λ row. left_place m row ≤ m) rows → IsPermutation rows (by_left_row m rows) }
{}

/// Each name of the columns that are chosen of a joined table is valid if the names of its two
/// tables are. The names under which they are written are as many as these columns. They are those
/// of a table, so that a file with them as its header is never refused for its names, if repeated
/// ones are renamed, and also if a list chose the columns.
pub fn chosen_names_are_lawful()
    ensures own { (choice : Choice) (join : BoundJoin) (l r : TableValue) → fits join l.types r.types ≡ true → HasLawfulNames l → HasLawfulNames r
        → All (λ n. is_name n ≡ true) (chosen_header choice join l r) }
    ensures many { (choice : Choice) (join : BoundJoin) (l r : TableValue) (names : List (List ℕ)) → chosen_names choice join l r ≡ Ok names
        → length names ≡ length (chosen_header choice join l r) }
    ensures lawful { (choice : Choice) (join : BoundJoin) (l r : TableValue) (names : List (List ℕ)) → fits join l.types r.types ≡ true
        → HasLawfulNames l → HasLawfulNames r → choice.repeated ≢ Kept → chosen_names choice join l r ≡ Ok names → name_fault [] names ≡ None }
    ensures selected { (choice : Choice) (join : BoundJoin) (l r : TableValue) (names : List (List ℕ)) (entries : Vec SelectedColumn Global)
        → choice.columns ≡ Selected entries → chosen_names choice join l r ≡ Ok names → name_fault [] names ≡ None }
{}

/// If repeated names are renamed, the written names are those of a table: a file with them as its
/// header is never refused for its names. They are as many as the header's, and a name that doesn't
/// repeat an earlier one stays unchanged.
pub fn written_names_are_lawful()
    ensures many { (repeated : Repeated) (header names : List (List ℕ)) → written_names repeated header ≡ Ok names → length names ≡ length header }
    ensures lawful { (repeated : Repeated) (header names : List (List ℕ)) → repeated ≢ Kept → All (λ n. is_name n ≡ true) header
        → written_names repeated header ≡ Ok names → name_fault [] names ≡ None }
    ensures own { (repeated : Repeated) (header names : List (List ℕ)) (column : ℕ) → written_names repeated header ≡ Ok names → column < length header
        → is_among (take column header) (slice_index_or header column []) ≡ false → slice_index_or names column [] ≡ slice_index_or header column [] }
{}

/// Each name of a joined table's columns is valid if the names of its two tables are.
pub fn header_names_are_lawful()
    ensures { (join : BoundJoin) (l r : TableValue) → fits join l.types r.types ≡ true → HasLawfulNames l → HasLawfulNames r
        → All (λ n. is_name n ≡ true) (header_of join l r) }
{}
