//! Why a text was not divided.

use rj_csv_io::ReadRefused;
use rj_csv_io::strict::StrictFault;

/// Why a text was not divided. Outputs may have got some of its rows.
#[derive(Clone, Copy, Debug, PartialEq, Eq)]
pub enum DivideRefused {
    /// The error of a record, whose row counts from the first one of the text.
    Read(ReadRefused),
    /// The text has 2^31 rows or more in one piece or 2^61 in all, or 2^64 - 1 bytes or more.
    TooLong,
    /// The device that the bytes come from failed.
    ReadDevice,
    /// A text that is read strictly stops being of RFC 4180's grammar at this place. Its row counts
    /// from the first one of the text, and the rows above have no error.
    Broken(StrictFault),
    /// The output of this part failed.
    WriteDevice(usize),
    /// Out of memory.
    Memory,
}
