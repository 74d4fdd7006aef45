//! One of the parts that a table is read in.

ghost use Rattle.std.specs.Prelude.{◌≡◌, ◌<◌, ◌^◌, [], ◌∷◌, List, ℕ, IfOk, IfErr, Some, MatchOption};
ghost use Rattle.csv.specs.Records.{fields_of};
ghost use Rattle.rj_csv_io.specs.Cuts.{records_in};
ghost use Rattle.rj_csv_io.specs.Remaining.{IsBetween, records_remaining};
ghost use Rattle.rj_csv_io.specs.Parts.{IsReading, moved, row_records};
ghost use Rattle.rj_csv_io.specs.Typed.{null_texts};

use crate::format::InputFormat;
use crate::header::{begin_table, likely_rows, open_reader};
use crate::read_rows::{MAX_ROWS, next_record, rows_of_reader};
use crate::refused::ReadRefused;
use crate::strict::Delimiter;
use csv::{ByteRecord, Reader};
use rj_columns::{ColumnType, Table};
use std::alloc::Global;

/// The first record of a text, if it has one.
pub(crate) fn header_of(
    alloc: Global,
    text: &[u8],
    delimiter: Delimiter,
) -> Result<Option<ByteRecord>, ReadRefused>
    ensures header { IfOk result (λ o. MatchOption o (records_in delimiter text.now ≡ [])
        (λ h. (rest : List (List (List ℕ))) × (records_in delimiter text.now ≡ fields_of h ∷ rest))) }
    ensures memory { IfErr result (λ e. e ≡ ReadRefused.Memory) }
{
    let mut reader = open_reader(alloc, text, delimiter);
    let mut header = ByteRecord::new(alloc);
    if !next_record(&mut reader, &mut header)? {
        return Ok(None);
    }
    Ok(Some(header))
}

// A reader of a text's records, without the first one if that is the header. None if there are no
// records.
fn reader_of_part<'a>(
    alloc: Global,
    text: &'a [u8],
    has_header: bool,
    delimiter: Delimiter,
) -> Result<Option<Reader<&'a [u8]>>, ReadRefused>
    ensures reader { IfOk result (λ o. MatchOption o (row_records delimiter has_header text.now ≡ [])
        (λ r. IsBetween (λ s. Some s.now) r
        × (records_remaining (λ s. Some s.now) r ≡ row_records delimiter has_header text.now))) }
    ensures memory { IfErr result (λ e. e ≡ ReadRefused.Memory) }
{
    let mut reader = open_reader(alloc, text, delimiter);
    if !has_header {
        return Ok(Some(reader));
    }
    let mut header = ByteRecord::new(alloc);
    if !next_record(&mut reader, &mut header)? {
        return Ok(None);
    }
    Ok(Some(reader))
}

/// The table of a text's records under this header, which is the first record if the text has it.
/// The rows in an error count from the text's first row.
pub(crate) fn read_part(
    alloc: Global,
    text: &[u8],
    has_header: bool,
    header: &ByteRecord,
    types: &[ColumnType],
    format: &InputFormat<'_>,
) -> Result<Table, ReadRefused>
    ensures { IsReading (null_texts format.now.nulls.now) types.now (fields_of header.now)
        (row_records format.now.delimiter has_header text.now) result }
{
    let builder = begin_table(alloc, header, types, likely_rows(text, types.len()))?;
    let Some(reader) = reader_of_part(alloc, text, has_header, format.delimiter)? else {
        return Ok(builder.finish());
    };
    rows_of_reader(alloc, reader, builder, format.nulls, types)
}

/// An error of a part that has this many rows before it, with its row counted from the whole table's first one.
pub(crate) fn moved_on(before: u64, fault: ReadRefused) -> ReadRefused
    requires { before < 2 ^ 31 }
    ensures { result ≡ moved before fault }
{
    let most = MAX_ROWS - before;
    match fault {
        ReadRefused::RaggedRow(row) if row <= most => ReadRefused::RaggedRow(before + row),
        ReadRefused::BadInteger(row, column) if row <= most => {
            ReadRefused::BadInteger(before + row, column)
        }
        ReadRefused::BadText(row, column) if row <= most => {
            ReadRefused::BadText(before + row, column)
        }
        ReadRefused::RaggedRow(_) | ReadRefused::BadInteger(_, _) | ReadRefused::BadText(_, _) => {
            ReadRefused::TooManyRows
        }
        other => other,
    }
}
