//! What a join is asked to do.

use rj_csv_io::strict::Delimiter;
use rj_settings::types::TypeEntry;
use rj_settings::{Choice, Expectation, Settings};

/// The hash of a row's key, whose bits choose the row's partition. No choice changes the rows of a
/// join.
#[derive(Clone, Copy)]
pub enum Hash {
    /// The digits of the key in base 31, modulo 2^64.
    Plain,
    /// The plain hash with its bits mixed, which spreads keys that are close together.
    Mixed,
}

/// Whether the texts of the two tables have to be of RFC 4180's grammar.
#[derive(Clone, Copy)]
pub enum Strictness {
    /// They are read as the library `csv` reads them.
    Off,
    /// They have to be.
    On,
    /// They have to be, and the last record of each has its line end.
    Full,
}

/// What a join of two files is asked to do.
#[derive(Drop)]
pub struct Request<'a> {
    /// The types of the left table's columns, by position or by name.
    pub left_types: Vec<TypeEntry>,
    /// The types of the right table's columns.
    pub right_types: Vec<TypeEntry>,
    /// The types of the columns of both tables, by name, as they are in `left_types` and in
    /// `right_types` too.
    pub shared_types: Vec<TypeEntry>,
    /// Whether the columns that the clause compares, and that no list names, are to have the types
    /// that their cells suggest. Then there are no types of both tables.
    pub auto_types: bool,
    /// Whether the types of those left columns that no entry names aren't declared.
    pub left_undeclared: bool,
    /// The same of the right columns.
    pub right_undeclared: bool,
    /// The texts that stand for NULL in the left table.
    pub left_nulls: Vec<&'a str>,
    /// The texts that stand for NULL in the right table.
    pub right_nulls: Vec<&'a str>,
    /// The text that is written for NULL.
    pub out_null: &'a str,
    /// The delimiter of the left table.
    pub left_delimiter: Delimiter,
    /// The delimiter of the right table.
    pub right_delimiter: Delimiter,
    /// The delimiter of the result.
    pub out_delimiter: Delimiter,
    /// Whether their texts have to be of RFC 4180's grammar.
    pub strict: Strictness,
    /// The text of the join clause.
    pub clause: &'a str,
    /// Whether the line is of the short form, `radixjoin LEFT RIGHT CLAUSE`.
    pub short: bool,
    /// How the join is done. No setting changes its rows.
    pub settings: Settings,
    /// The hash that partitions the rows.
    pub hash: Hash,
    /// Whether the statistics have the number of pieces.
    pub tells_pieces: bool,
    /// What is written of the joined table.
    pub choice: Choice<'a>,
    /// What is expected of the joined table.
    pub expectation: Expectation,
    /// Whether there is a report of how many rows are matched, and how keys are spread.
    pub report: bool,
}
