//! Reading a whole table, on one thread.

ghost use Rattle.std.specs.Prelude.{◌≡◌, ◌≢◌, IfOk, IfErr, OnOk, Ok, Err, IsTrue};
ghost use Rattle.rj_csv_io.specs.Tables.{are_null_texts, read_of};
ghost use Rattle.rj_csv_io.specs.Typed.{null_texts};

use crate::format::InputFormat;
use crate::header::{begin_table, likely_rows, open_reader};
use crate::null_text::are_lawful_nulls;
use crate::read_rows::{next_record, rows_of_reader};
use crate::refused::ReadRefused;
use csv::ByteRecord;
use rj_columns::{ColumnType, Table};
use std::alloc::Global;

/// Reads a table from CSV (RFC 4180), or reports the first error in it.
///
/// Records are those that `csv` reads with the format's delimiter, double quote, no trimming and
/// its default line ends, after one byte order mark. The first is the header. A cell whose bytes
/// equal one of the NULL texts is NULL. Any other is read as its column's type:
///
/// - `int`: an optional sign and decimal digits in the range of i64;
/// - a numeric type: an optional sign, digits, and perhaps a point and digits, where those past the
///   scale are zeros, and the number fits the type;
/// - `text`: UTF-8, taken as it is.
///
/// # Errors
///
/// Errors are tested in this order: the NULL texts, no header, too many columns, the names from
/// left to right, the count of types; then record by record too many rows, the record's length, and
/// its cells from left to right. `Memory` if memory ran out: nothing is known of the errors then.
pub fn read_table(
    alloc: Global,
    bytes: &[u8],
    types: &[ColumnType],
    format: &InputFormat<'_>,
) -> Result<Table, ReadRefused>
    ensures table { IfOk result (λ t. read_of format.now.delimiter bytes.now types.now (null_texts format.now.nulls.now) ≡ Ok t) }
    ensures fault { IfErr result (λ e. e ≢ ReadRefused.Memory
        → read_of format.now.delimiter bytes.now types.now (null_texts format.now.nulls.now) ≡ Err e) }
    ensures lawful { OnOk result (IsTrue (are_null_texts (null_texts format.now.nulls.now))) }
{
    if !are_lawful_nulls(format.nulls) {
        return Err(ReadRefused::BadNull);
    }
    let mut reader = open_reader(alloc, bytes, format.delimiter);
    let mut header = ByteRecord::new(alloc);
    if !next_record(&mut reader, &mut header)? {
        return Err(ReadRefused::NoHeader);
    }
    let builder = begin_table(alloc, &header, types, likely_rows(bytes, types.len()))?;
    rows_of_reader(alloc, reader, builder, format.nulls, types)
}
