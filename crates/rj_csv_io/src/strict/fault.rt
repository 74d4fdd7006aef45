//! Why a text isn't derived by RFC 4180's grammar.

ghost use Rattle.std.specs.Prelude.{◌≡◌};
ghost use Rattle.rj_csv_io.specs.StrictFaults.{row_at};

/// The place where a text stops being derived by RFC 4180's grammar: a row, and a column if it has
/// one. Columns count from 1. Rows count from 1 too: row 1 is the first record after the header,
/// and the header is row 0.
#[derive(Clone, Copy, Debug, PartialEq, Eq)]
pub enum StrictFault {
    /// A quoted field isn't closed at the text's end.
    OpenQuote(u64, u64),
    /// A byte other than the delimiter, a double quote, CR and LF follows a closing quote.
    AfterQuote(u64, u64),
    /// A double quote is in a field that doesn't begin with one.
    BareQuote(u64, u64),
    /// No LF follows a CR outside quotes.
    BareReturn(u64, u64),
    /// A line is empty though the header has more than one name.
    EmptyLine(u64),
    /// The last record has no line end.
    CutShort(u64),
}

impl StrictFault {
    /// The row with the error.
    pub fn row(&self) -> u64
        ensures { result ≡ row_at self.now }
    {
        match *self {
            StrictFault::OpenQuote(row, _)
            | StrictFault::AfterQuote(row, _)
            | StrictFault::BareQuote(row, _)
            | StrictFault::BareReturn(row, _)
            | StrictFault::EmptyLine(row)
            | StrictFault::CutShort(row) => row,
        }
    }
}
