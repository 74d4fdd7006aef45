//! Why no table was read.

/// Why no table was read, or no bytes for one. Rows and columns count from 1, and row 1 is the record after the header.
#[derive(Clone, Copy, Debug, PartialEq, Eq)]
pub enum ReadRefused {
    /// There is no record at all.
    NoHeader,
    /// The name of this column isn't a text of 1 to 128 bytes of UTF-8.
    BadName(u64),
    /// The name of this column repeats one further left, ignoring ASCII case.
    RepeatedName(u64),
    /// The header has more or fewer names than there are types.
    TypeCount,
    /// This row has more or fewer fields than the header.
    RaggedRow(u64),
    /// The cell at this row and column isn't an integer of 64 bits with a sign or, in a numeric
    /// column, isn't a number of its type.
    BadInteger(u64, u64),
    /// The cell at this row and column isn't UTF-8.
    BadText(u64, u64),
    /// There are more than 2^31 - 1 rows.
    TooManyRows,
    /// The header has more than 256 names.
    TooManyColumns,
    /// A NULL text is longer than 16 bytes, or has a byte that isn't printable ASCII, a digit, a comma, a
    /// double quote or a space.
    BadNull,
    /// The device that the bytes come from failed.
    ReadDevice,
    /// Out of memory.
    Memory,
}
