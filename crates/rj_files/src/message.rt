//! The lines that show the progress of a run.

ghost use Rattle.std.specs.Prelude.{◌≡◌, ◌/◌};

use rj_line::fault::Side;
use std::fmt;

/// Clears a line, with the cursor at its beginning: blanks for as many characters as the longest
/// line has.
pub(crate) const CLEARED: &str =
    "\r                                                                        \r";

/// The progress of a run.
#[derive(Clone, Copy)]
pub(crate) enum Message {
    /// `bytes` bytes of a side's file were read, of about `size` bytes; `size` is 0 if that isn't
    /// known.
    File { side: Side, bytes: u64, size: u64 },
    /// A table is read from the bytes of a side's file.
    Table { side: Side, bytes: u64 },
    /// About `done` rows of both tables were handed to partitions.
    Partitioned { done: u64, rows: u64 },
    /// About `done` rows of the larger table were joined.
    Joined { done: u64, rows: u64 },
    /// The text of about `done` rows is made.
    Making { done: u64, rows: u64 },
    /// The text of `rows` rows is made or written.
    Writing { rows: u64 },
    /// `bytes` bytes of it were written.
    Written { rows: u64, bytes: u64 },
}

// A number with a comma between thousands.
#[derive(Clone, Copy)]
struct Grouped(u64);

// The numbers that divide a number of 64 bits into its groups of three digits.
const GROUPS: [u64; 7] = [
    1_000_000_000_000_000_000,
    1_000_000_000_000_000,
    1_000_000_000_000,
    1_000_000_000,
    1_000_000,
    1_000,
    1,
];

impl fmt::Display for Grouped {
    fn fmt<W: fmt::Write>(&self, f: &mut fmt::Formatter<W>) -> fmt::Result {
        for unit in GROUPS {
            let group = self.0.checked_div(unit).unwrap_or(0);
            if group >= 1000 {
                let digits = group % 1000;
                write!(f, ",{digits:03}")?;
            } else if group > 0 || unit == 1 {
                write!(f, "{group}")?;
            }
        }
        Ok(())
    }
}

// Bytes, in whole megabytes.
fn megabytes(bytes: u64) -> Grouped
    ensures { result.0 ≡ bytes / 1000000 }
{
    Grouped(bytes / 1_000_000)
}

// About how many rows are done, of all.
fn write_share<W: fmt::Write>(
    f: &mut fmt::Formatter<W>,
    step: &str,
    done: u64,
    rows: u64,
) -> fmt::Result {
    let (done, rows) = (Grouped(done), Grouped(rows));
    write!(f, "radixjoin: {step}, about {done} of {rows} rows")
}

// How many bytes of a file are read.
fn write_file<W: fmt::Write>(
    f: &mut fmt::Formatter<W>,
    side: Side,
    bytes: u64,
    size: u64,
) -> fmt::Result {
    let read = megabytes(bytes);
    if size == 0 {
        return write!(f, "radixjoin: reading {side} file, {read} MB");
    }
    let all = megabytes(size.max(bytes));
    write!(f, "radixjoin: reading {side} file, {read} of {all} MB")
}

impl fmt::Display for Message {
    fn fmt<W: fmt::Write>(&self, f: &mut fmt::Formatter<W>) -> fmt::Result {
        match *self {
            Message::File { side, bytes, size } => write_file(f, side, bytes, size),
            Message::Table { side, bytes } => {
                let bytes = megabytes(bytes);
                write!(f, "radixjoin: reading {side} table of {bytes} MB")
            }
            Message::Partitioned { done, rows } => write_share(f, "partitioning", done, rows),
            Message::Joined { done, rows } => write_share(f, "joining", done, rows),
            Message::Making { done, rows } => write_share(f, "making text", done, rows),
            Message::Writing { rows } => {
                let rows = Grouped(rows);
                write!(f, "radixjoin: writing {rows} rows")
            }
            Message::Written { rows, bytes } => {
                let (rows, bytes) = (Grouped(rows), megabytes(bytes));
                write!(f, "radixjoin: writing {rows} rows, {bytes} MB so far")
            }
        }
    }
}
