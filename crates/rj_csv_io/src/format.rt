//! How the text of a table is read and written.

use crate::strict::Delimiter;

/// How the text of a table is read.
#[derive(Clone, Copy)]
pub struct InputFormat<'a> {
    /// What stands between two fields.
    pub delimiter: Delimiter,
    /// The texts that stand for NULL.
    pub nulls: &'a [&'a str],
}

/// How the text of a table is written.
#[derive(Clone, Copy)]
pub struct OutputFormat<'a> {
    /// What stands between two fields.
    pub delimiter: Delimiter,
    /// The text that stands for NULL.
    pub null: &'a str,
}
