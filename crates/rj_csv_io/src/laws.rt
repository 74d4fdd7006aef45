//! Laws of reading and writing, for the crates above.

ghost use Rattle.std.specs.Prelude.{◌≡◌, ◌++◌, List, ℕ, [], true, false, map, slice_index_or, All, Ok, Some};
ghost use Rattle.csv.specs.Writing.{row_text};
ghost use Rattle.rj_columns.specs.Contents.{Content, FitsType};
ghost use Rattle.rj_columns.specs.Tables.{FitsTypes, TableValue};
ghost use Rattle.rj_columns.specs.declared.cell.ColumnType.{ColumnType};
ghost use Rattle.rj_csv_io.specs.Grammar.{may_delimit};
ghost use Rattle.rj_csv_io.specs.Ambiguous.{AreApart, AreClear};
ghost use Rattle.rj_csv_io.specs.Cuts.{has_bom};
ghost use Rattle.rj_csv_io.specs.RoundTrips.{CanReadBack, IsHeld, IsNoneOf};
ghost use Rattle.rj_csv_io.specs.Shown.{rows_text, shown, table_text, writer_of};
ghost use Rattle.rj_csv_io.specs.Tables.{are_null_texts, is_null_text, read_of, records_read};
ghost use Rattle.rj_csv_io.specs.Typed.{is_null_field, read_cell};

/// No text in a cell of a table that was read is one of its NULL texts: such a field was read as
/// NULL.
pub fn null_texts_read_as_null()
    ensures { (records : List (List (List ℕ))) (types : List ColumnType) (nulls : List (List ℕ)) (null : List ℕ) (t : TableValue)
        → is_null_field nulls null ≡ true → records_read records types nulls ≡ Ok t → AreApart null t.rows }
{}

/// If no cell of rows is a NULL text as a text, each cell that isn't NULL differs from NULL in its
/// text, since no number has a NULL text.
pub fn told_apart()
    ensures { (null : List ℕ) (rows : List (List Content)) → is_null_text null ≡ true → AreApart null rows → AreClear null rows }
{}

/// The text of a cell reads back as the cell, if the text that is written for NULL is one of the
/// reader's NULL texts and the cell isn't a text that is one of them. A number never is.
pub fn cells_read_back()
    ensures { (nulls : List (List ℕ)) (null : List ℕ) (kind : ColumnType) (x : Content)
        → are_null_texts nulls ≡ true → is_null_field nulls null ≡ true → FitsType kind x → IsHeld x → IsNoneOf nulls x
        → read_cell nulls kind (shown null x) ≡ Some x }
{}

/// A cell that was read and is written reads back as it was, by the same type and NULL texts, if
/// one of these is written for NULL.
pub fn read_cells_read_back()
    ensures { (nulls : List (List ℕ)) (null : List ℕ) (kind : ColumnType) (field : List ℕ) (x : Content)
        → are_null_texts nulls ≡ true → is_null_field nulls null ≡ true → read_cell nulls kind field ≡ Some x
        → read_cell nulls kind (shown null x) ≡ Some x }
{}

/// The text of a table reads back as the table, by its types and the same lawful delimiter, if the
/// text that is written for NULL is one of the reader's NULL texts, no text in a cell is one of
/// them, and no byte order mark is at the start, which a reader would leave out.
pub fn tables_read_back()
    ensures { (d : ℕ) (nulls : List (List ℕ)) (null : List ℕ) (t : TableValue)
        → may_delimit d ≡ true → are_null_texts nulls ≡ true → is_null_field nulls null ≡ true → CanReadBack nulls t
        → has_bom (table_text d null t.names t.rows) ≡ false
        → read_of d (table_text d null t.names t.rows) t.types nulls ≡ Ok t }
{}

/// A table that was read, by any delimiter, and is written by a lawful one reads back as it was, by
/// this one and the same types and NULL texts, if one of these is written for NULL and no byte
/// order mark is at the start.
pub fn read_tables_read_back()
    ensures { (d from : ℕ) (bytes : List ℕ) (types : List ColumnType) (nulls : List (List ℕ)) (null : List ℕ) (t : TableValue)
        → may_delimit d ≡ true → read_of from bytes types nulls ≡ Ok t → is_null_field nulls null ≡ true
        → has_bom (table_text d null t.names t.rows) ≡ false
        → read_of d (table_text d null t.names t.rows) types nulls ≡ Ok t }
{}

/// The same for other NULL texts, if no text in a cell is one of them.
pub fn read_tables_read_back_by_others()
    ensures { (d from : ℕ) (bytes : List ℕ) (types : List ColumnType) (known nulls : List (List ℕ)) (null : List ℕ) (t : TableValue)
        → may_delimit d ≡ true → read_of from bytes types known ≡ Ok t → are_null_texts nulls ≡ true → is_null_field nulls null ≡ true
        → ((text : List ℕ) → is_null_field nulls text ≡ true → AreApart text t.rows)
        → has_bom (table_text d null t.names t.rows) ≡ false
        → read_of d (table_text d null t.names t.rows) types nulls ≡ Ok t }
{}

/// A table that was read has cells of its types, and each is one that a `Cell` can hold.
pub fn read_tables_hold_their_types()
    ensures { (records : List (List (List ℕ))) (types : List ColumnType) (nulls : List (List ℕ)) (t : TableValue)
        → records_read records types nulls ≡ Ok t → All (FitsTypes t.types) t.rows × All (All IsHeld) t.rows }
{}

/// The text of a table, by a lawful delimiter, begins with a byte order mark only if its first name
/// does.
pub fn mark_is_of_the_first_name()
    ensures { (d : ℕ) (null : List ℕ) (names : List (List ℕ)) (rows : List (List Content))
        → may_delimit d ≡ true → has_bom (slice_index_or names 0 []) ≡ false → has_bom (table_text d null names rows) ≡ false }
{}

/// The texts of consecutive rows, one after another, are the text of all these rows. After the text
/// of a header they are the text of a table.
pub fn texts_follow_each_other()
    ensures none { (d : ℕ) → rows_text d [] ≡ [] }
    ensures rows { (d : ℕ) (null : List ℕ) (rows more : List (List Content))
        → rows_text d (map (map (shown null)) rows) ++ rows_text d (map (map (shown null)) more) ≡ rows_text d (map (map (shown null)) (rows ++ more)) }
    ensures table { (d : ℕ) (null : List ℕ) (header : List (List ℕ)) (rows : List (List Content))
        → row_text (writer_of d) header ++ rows_text d (map (map (shown null)) rows) ≡ table_text d null header rows }
{}
