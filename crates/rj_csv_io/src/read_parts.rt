//! Reading a table in parts, each by its own thread.

ghost use Rattle.std.specs.Prelude.{◌≡◌, ◌≢◌, ◌<◌, length, map, IfOk, IfErr, OnOk, Ok, Err, IsTrue};
ghost use Rattle.csv.specs.Records.{fields_of};
ghost use Rattle.rj_csv_io.specs.Parts.{AreReadings, AreTables, IsReading, under_header};
ghost use Rattle.rj_csv_io.specs.Tables.{are_null_texts, read_of};
ghost use Rattle.rj_csv_io.specs.Typed.{null_texts};

use crate::cut::cut_text;
use crate::format::InputFormat;
use crate::header::begin_table;
use crate::null_text::are_lawful_nulls;
use crate::part::{header_of, moved_on, read_part};
use crate::read_rows::MAX_ROWS;
use crate::read_whole::read_table;
use crate::refused::ReadRefused;
use csv::ByteRecord;
use rj_columns::{ColumnType, Table};
use std::alloc::Global;
use std::thread::{self, Threads};

// The least bytes of a part: fewer take less time than starting a thread.
const LEAST_PART: usize = 262144;

// The tables of the parts, in order, or the first error of all.
fn tables_of_parts(
    alloc: Global,
    mut parts: Vec<Result<Table, ReadRefused>>,
    texts: &[&[u8]],
    header: &ByteRecord,
    types: &[ColumnType],
    format: &InputFormat<'_>,
) -> Result<Vec<Table>, ReadRefused>
    requires count { length parts.items ≡ length texts.now }
    requires parts { AreReadings format.now.delimiter (null_texts format.now.nulls.now) types.now (fields_of header.now)
        (map (λ t. t.now) texts.now) parts.items }
    ensures count { IfOk result (λ v. length v.items ≡ length texts.now) }
    ensures tables { IfOk result (λ v. AreTables (null_texts format.now.nulls.now) types.now (fields_of header.now)
        (under_header format.now.delimiter (map (λ t. t.now) texts.now)) v.items) }
    ensures fault { IfErr result (λ e. IsReading (null_texts format.now.nulls.now) types.now (fields_of header.now)
        (under_header format.now.delimiter (map (λ t. t.now) texts.now)) (Err e)) }
{
    let mut tables = Vec::new(alloc);
    let mut rows = 0u64;
    for _i in 0..parts.len() {
        match parts.remove(0) {
            Ok(table) => {
                let more = rows + table.rows();
                if more > MAX_ROWS {
                    return Err(ReadRefused::TooManyRows);
                }
                match tables.push(table) {
                    Ok(()) => rows = more,
                    Err(_) => return Err(ReadRefused::Memory),
                }
            }
            Err(e) => return Err(moved_on(rows, e)),
        }
    }
    Ok(tables)
}

// The table of the texts' records under the header, which is the first record of the first text.
// Each text is read by its own thread, all at a time.
fn read_texts<R: Threads + Sync>(
    rt: &R,
    alloc: Global,
    texts: &[&[u8]],
    header: &ByteRecord,
    types: &[ColumnType],
    format: &InputFormat<'_>,
) -> Result<Table, ReadRefused>
    requires { 0 < length texts.now }
    ensures { IsReading (null_texts format.now.nulls.now) types.now (fields_of header.now)
        (under_header format.now.delimiter (map (λ t. t.now) texts.now)) result }
{
    let read = thread::map_indices(
        rt,
        alloc,
        texts.len(),
        &|i| read_part(alloc, texts[i], i == 0, header, types, format),
    );
    let Ok(parts) = read else {
        return Err(ReadRefused::Memory);
    };
    let tables = tables_of_parts(alloc, parts, texts, header, types, format)?;
    match Table::concat(tables) {
        Ok(table) => Ok(table),
        Err(_) => Err(ReadRefused::Memory),
    }
}

/// Reads a table as [`read_table`] does, in up to `parts` parts at a time, each by its own thread.
/// The calling thread reads one of them. No cell is copied when the parts become one table.
///
/// A part has at least 256 KiB, so that no thread is started for few bytes. The answer doesn't
/// depend on the parts.
///
/// # Errors
///
/// Those of [`read_table`], in the same order.
pub fn read_table_in_parts<R: Threads + Sync>(
    rt: &R,
    alloc: Global,
    bytes: &[u8],
    types: &[ColumnType],
    format: &InputFormat<'_>,
    parts: usize,
) -> Result<Table, ReadRefused>
    ensures table { IfOk result (λ t. read_of format.now.delimiter bytes.now types.now (null_texts format.now.nulls.now) ≡ Ok t) }
    ensures fault { IfErr result (λ e. e ≢ ReadRefused.Memory
        → read_of format.now.delimiter bytes.now types.now (null_texts format.now.nulls.now) ≡ Err e) }
    ensures lawful { OnOk result (IsTrue (are_null_texts (null_texts format.now.nulls.now))) }
{
    let parts = parts.min(bytes.len() / LEAST_PART);
    if parts <= 1 {
        return read_table(alloc, bytes, types, format);
    }
    if !are_lawful_nulls(format.nulls) {
        return Err(ReadRefused::BadNull);
    }
    let Ok(texts) = cut_text(alloc, bytes, parts, format.delimiter) else {
        return Err(ReadRefused::Memory);
    };
    let texts = texts.as_slice();
    if texts.is_empty() {
        return read_table(alloc, bytes, types, format);
    }
    let Some(header) = header_of(alloc, texts[0], format.delimiter)? else {
        return read_table(alloc, bytes, types, format);
    };
    begin_table(alloc, &header, types, 0)?;
    read_texts(rt, alloc, texts, &header, types, format)
}
