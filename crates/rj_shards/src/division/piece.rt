//! The records that csv reads from a piece of a text, divided among parts.

ghost use Rattle.std.specs.Prelude.{◌≡◌, ◌<◌, ◌≤◌, ◌+◌, ◌^◌, length, map, All, IsTrue, IfErr, IfOk, OnOk, Ok, Err};
ghost use Rattle.rj_columns.specs.declared.refused.BuildRefused.{BuildRefused};
ghost use Rattle.rj_columns.specs.Tables.{TableValue};
ghost use Rattle.rj_csv_io.specs.Pieces.{piece_records};
ghost use Rattle.rj_csv_io.specs.Tables.{is_null_text};
ghost use Rattle.rj_csv_io.specs.Typed.{null_texts};
ghost use Rattle.rj_shards.specs.Divisions.{IsDivided, IsPartlyDivided, after_rows, counts_after, dividing, table_begun, written_null};
ghost use Rattle.rj_shards.specs.Readings.{IsAfterReading, IsFaultBehind, IsHeaderRefusal, IsReadingFault, fault_behind, row_told};

use crate::division::refused::DivideRefused;
use crate::division::route::Route;
use crate::division::table::divide_table;
use rj_columns::ColumnType;
use rj_csv_io::strict::Delimiter;
use rj_csv_io::{Header, InputFormat, Output, ReadRefused};
use std::alloc::Global;

/// How the rows of a text are read, and to which parts they go.
#[derive(Drop)]
pub struct Division<'a, R: Route> {
    /// What stands between two fields of the text.
    pub delimiter: Delimiter,
    /// The header of the text.
    pub header: &'a Header,
    /// The types of its columns.
    pub types: &'a [ColumnType],
    /// The texts that stand for NULL. The first of them is written for NULL, or the empty text if
    /// there are none. [`rj_csv_io::is_lawful_null`] has to allow it.
    pub nulls: &'a [&'a str],
    /// Gives the part of a row.
    pub route: &'a R,
    /// The place of the first row, at most 2^62.
    pub first: u64,
}

// How many rows a text may have.
const MOST_ROWS: u64 = 1 << 61;

// The text that is written for NULL.
fn written_null<'a>(nulls: &[&'a str]) -> &'a str
    ensures { result.now ≡ written_null (null_texts nulls.now) }
{
    if nulls.is_empty() {
        return "";
    }
    nulls[0]
}

// An error of a piece that has this many rows before it.
fn fault_behind(before: u64, fault: ReadRefused) -> DivideRefused
    requires { before ≤ 2 ^ 61 }
    ensures fault { row_told fault < 2 ^ 63 → result ≡ fault_behind before fault }
    ensures reading { IsReadingFault result }
{
    match fault {
        ReadRefused::RaggedRow(row) => {
            DivideRefused::Read(ReadRefused::RaggedRow(before.saturating_add(row)))
        }
        ReadRefused::BadInteger(row, column) => {
            DivideRefused::Read(ReadRefused::BadInteger(before.saturating_add(row), column))
        }
        ReadRefused::BadText(row, column) => {
            DivideRefused::Read(ReadRefused::BadText(before.saturating_add(row), column))
        }
        ReadRefused::TooManyRows => DivideRefused::TooLong,
        ReadRefused::Memory => DivideRefused::Memory,
        other => DivideRefused::Read(other),
    }
}

/// Divides the records that csv reads from a piece, as [`crate::division::divide_piece`] does. If `is_first` is
/// set, the piece begins with the header.
pub(crate) fn divide_records<O: Output, R: Route>(
    alloc: Global,
    division: &Division<'_, R>,
    text: &[u8],
    is_first: bool,
    before: u64,
    outputs: &mut [O],
) -> Result<u64, DivideRefused>
    requires types { R.fits division.now.route.now division.now.types.now }
    requires outputs { length outputs.old ≡ R.count division.now.route.now }
    requires first { division.now.first ≤ 2 ^ 62 }
    requires null { IsTrue (is_null_text (written_null (null_texts division.now.nulls.now))) }
    ensures divided { IfOk result (λ n. IsDivided (after_rows before (dividing R.part division.now)) (piece_records division.now.delimiter is_first text.now)
        (map O.told outputs.old) (map O.told outputs.new) n) }
    ensures partly { IfErr result (IsPartlyDivided (after_rows before (dividing R.part division.now)) (piece_records division.now.delimiter is_first text.now)
        (map O.told outputs.old) (map O.told outputs.new)) }
    ensures read { IfErr result IsAfterReading }
    ensures few { IfOk result (λ n. before + n < 2 ^ 62) }
    ensures counts { map O.count outputs.new ≡ counts_after result (map O.count outputs.old) }
    ensures fault { IfErr result (λ e. (t : TableValue) → table_begun division.now ≡ Ok t
        → IsFaultBehind (dividing R.part division.now) before (length outputs.old) (piece_records division.now.delimiter is_first text.now) e) }
    ensures begins { OnOk result ((t : TableValue) × (table_begun division.now ≡ Ok t)) }
    ensures refusal { IfErr result (λ e. (b : BuildRefused) → table_begun division.now ≡ Err b → before ≡ 0 → IsHeaderRefusal b e) }
    ensures untouched { (b : BuildRefused) → table_begun division.now ≡ Err b → outputs.new ≡ outputs.old }
{
    if before > MOST_ROWS {
        return Err(DivideRefused::TooLong);
    }
    let format = InputFormat {
        delimiter: division.delimiter,
        nulls: division.nulls,
    };
    let table = match division
        .header
        .read_piece(alloc, text, is_first, division.types, &format)
    {
        Ok(table) => table,
        Err(e) => return Err(fault_behind(before, e)),
    };
    let rows = table.rows();
    let first = division.first + before;
    let null = written_null(division.nulls);
    match divide_table(alloc, &table, division.route, first, null, outputs) {
        Ok(()) => Ok(rows),
        Err(e) => Err(e),
    }
}
