//! What is written of a joined table: which of its rows, in which order, and which of its columns under which names.

use rj_condition::Name;

/// Which of the rows of a joined table are written.
#[derive(Clone, Copy, Debug, PartialEq, Eq)]
pub struct RowKinds {
    /// The matches.
    pub pairs: bool,
    /// Each left row that is in a match, once: a semi-join.
    pub matched_left: bool,
    /// The unmatched left rows.
    pub lone_left: bool,
    /// The unmatched right rows.
    pub lone_right: bool,
}

/// In which order the rows of a joined table are written.
#[derive(Clone, Copy, Debug, PartialEq, Eq)]
pub enum RowOrder {
    /// Matches, then unmatched left rows, then unmatched right rows.
    PairsFirst,
    /// Each left row at its place, matched or not, then unmatched right rows.
    LeftFirst,
}

/// Of which table an entry of a list of columns names a column.
#[derive(Clone, Copy, Debug, PartialEq, Eq)]
pub enum Source {
    /// Of the joined table, in which a pair of join columns is one column.
    Joined,
    /// Of the left table.
    Left,
    /// Of the right table.
    Right,
}

/// An entry of a list of columns: a column, and perhaps another name for it (SQL-92, 7.9).
#[derive(Drop)]
pub struct SelectedColumn {
    /// Of which table it is.
    pub source: Source,
    /// Its name there.
    pub name: Name,
    /// The name under which it is written, if it isn't its own.
    pub written: Option<Name>,
}

/// Which columns of a joined table are written.
#[derive(Drop)]
pub enum ColumnChoice {
    /// All of them.
    All,
    /// Those that come from the left table, with those that occur once for both tables.
    Left,
    /// Those that come from the right table, with those that occur once for both tables.
    Right,
    /// Those that a list names, in its order.
    Selected(Vec<SelectedColumn>),
}

/// Under which names the columns of a joined table are written if the same name occurs twice,
/// ignoring ASCII case.
#[derive(Clone, Copy, Debug, PartialEq, Eq)]
pub enum Repeated<'a> {
    /// Under their own names.
    Kept,
    /// The later one under its table's letter, a point and its name, as `R.id`.
    Qualified,
    /// The later one under its name and this text after it, as often as it takes.
    Suffixed(&'a str),
}

/// What is written of a joined table.
#[derive(Drop)]
pub struct Choice<'a> {
    /// Which rows.
    pub rows: RowKinds,
    /// In which order.
    pub order: RowOrder,
    /// Which columns.
    pub columns: ColumnChoice,
    /// Under which names.
    pub repeated: Repeated<'a>,
}
