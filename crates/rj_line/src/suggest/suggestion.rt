//! What the cells of a file suggest.

/// A cell of a column that isn't a number, while another cell of it is one.
#[derive(Debug, Drop)]
pub struct Misfit {
    /// The name of the column.
    pub column: String,
    /// The row, counted from 1.
    pub row: u64,
    /// The cell.
    pub text: String,
}

/// What the cells of a file suggest.
#[derive(Debug, Drop)]
pub struct Suggestion {
    /// The list of types: a line for each listed column.
    pub list: Vec<u8>,
    /// For each listed column the first cell of it that isn't a number, if another cell of it is
    /// one. A column that isn't listed has none.
    pub misfits: Vec<Option<Misfit>>,
}

/// Which columns of a table are listed.
#[derive(Clone, Copy)]
pub enum ListedColumns {
    /// All columns.
    All,
    /// Those that can be a key of the table: no cell is NULL, and no two rows have equal cells
    /// (SQL-92 11.7, UNIQUE and NOT NULL). Cells compare as those of the suggested type.
    Keys,
}
