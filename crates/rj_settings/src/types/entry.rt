//! The entries of a type list.

use rj_columns::ColumnType;
use rj_condition::Name;

/// The columns to which a type in a list belongs.
#[derive(Drop)]
pub enum Label {
    /// The column at the same place as the type.
    Place,
    /// The column that the name means, in any case, or exactly if the name is delimited.
    Name(Name),
    /// The column that the name means, if the table has it and no name of the table's own list means
    /// it. The name is one of a list for both tables.
    Shared(Name),
    /// All columns that no name in the list means.
    Rest,
}

/// A type in a list, and the columns to which it belongs.
#[derive(Drop)]
pub struct TypeEntry {
    /// The columns to which it belongs.
    pub label: Label,
    /// Their type.
    pub kind: ColumnType,
}
