//! Columns that can be a key of their table, and what is listed of these.

ghost use Rattle.std.specs.Prelude.{◌≡◌, ◌≢◌, ◌<◌, ◌↔◌, ◌++◌, [], Err, Ok, Some, if◌then◌else◌, length, slice_get, true, IfErr, IfOk, OnOk};
ghost use Rattle.csv.specs.Reading.{records, strip_bom};
ghost use Rattle.rj_columns.specs.Contents.{IsInLimits, content_of};
ghost use Rattle.rj_columns.specs.Tables.{TableValue};
ghost use Rattle.rj_csv_io.specs.Tables.{read_of};
ghost use Rattle.rj_csv_io.specs.Typed.{null_texts};
ghost use Rattle.rj_csv_io.specs.StrictReading.{config_of};
ghost use Rattle.rj_line.specs.Keys.{AreKeyMisfits, AreKeys, IsKeyColumn, IsKeyMisfit, IsKeySuggestionOf, key_lines, units_in};
ghost use Rattle.rj_line.specs.Suggested.{IsSuggestFault, column_line};

use crate::fault::{Fault, Side, fault_of_read};
use crate::suggest::columns::text_at;
use crate::suggest::misfits::misfit_of;
use crate::suggest::read_columns;
use crate::suggest::suggestion::{Misfit, Suggestion};
use crate::suggest::writing::push_line;
use rj_columns::{Cell, ColumnType, Table};
use rj_csv_io::{InputFormat, ReadRefused, read_table};
use std::alloc::{AllocError, Global};
use std::collections::HashSet;

// The units of the number in a cell.
fn units_of(cell: Cell<'_>) -> Option<i64>
    requires { IsInLimits (content_of cell) }
    ensures { result ≡ units_in (content_of cell.entry) }
{
    match cell {
        Cell::Int(n) => Some(n),
        Cell::Num { units, .. } => Some(units as i64),
        Cell::Null | Cell::Text(_) => None,
    }
}

// Whether a column of numbers can be a key. They have one scale, so their units tell them apart.
fn are_key_numbers(alloc: Global, table: &Table, col: usize) -> Result<bool, AllocError>
    requires col { col < length table.now.types }
    requires numbers { (kind : ColumnType) × (slice_get table.now.types col ≡ Some kind) × (kind ≢ ColumnType.Text) }
    ensures { IfOk result (λ key. (key ≡ true) ↔ IsKeyColumn table.now col) }
{
    let _columns = table.columns();
    let mut seen = HashSet::new(alloc);
    for row in 0..table.rows() {
        let Some(units) = units_of(table.cell(row, col)) else {
            return Ok(false);
        };
        if !seen.insert(units)? {
            return Ok(false);
        }
    }
    Ok(true)
}

// The same of a column of texts.
fn are_key_texts(alloc: Global, table: &Table, col: usize) -> Result<bool, AllocError>
    requires col { col < length table.now.types }
    requires texts { slice_get table.now.types col ≡ Some ColumnType.Text }
    ensures { IfOk result (λ key. (key ≡ true) ↔ IsKeyColumn table.now col) }
{
    let _columns = table.columns();
    let mut seen = HashSet::new(alloc);
    for row in 0..table.rows() {
        let Some(text) = text_at(table, row, col) else {
            return Ok(false);
        };
        if !seen.insert(text)? {
            return Ok(false);
        }
    }
    Ok(true)
}

// Whether a column can be a key.
fn is_key_column(alloc: Global, table: &Table, col: usize) -> Result<bool, AllocError>
    requires { col < length table.now.types }
    ensures { IfOk result (λ key. (key ≡ true) ↔ IsKeyColumn table.now col) }
{
    match table.column_type(col) {
        ColumnType::Int | ColumnType::Num(_) => are_key_numbers(alloc, table, col),
        ColumnType::Text => are_key_texts(alloc, table, col),
    }
}

// Whether each column of a table can be a key, in order.
fn keys_of(alloc: Global, table: &Table) -> Result<Vec<bool>, AllocError>
    ensures { IfOk result (λ keys. AreKeys table.now keys.items) }
{
    let mut keys = Vec::new(alloc);
    for col in 0..table.columns() {
        let key = is_key_column(alloc, table, col)?;
        keys.push(key)?;
    }
    Ok(keys)
}

// The same of a file that is read with these types.
fn keys_of_file(
    alloc: Global,
    bytes: &[u8],
    kinds: &[ColumnType],
    format: &InputFormat<'_>,
) -> Result<Vec<bool>, ReadRefused>
    ensures keys { IfOk result (λ keys. (typed : TableValue)
        × (read_of format.now.delimiter bytes.now kinds.now (null_texts format.now.nulls.now) ≡ Ok typed) × AreKeys typed keys.items) }
    ensures count { IfOk result (λ keys. length keys.items ≡ length kinds.now) }
    ensures refused { IfErr result (λ e. e ≢ ReadRefused.Memory
        → read_of format.now.delimiter bytes.now kinds.now (null_texts format.now.nulls.now) ≡ Err e) }
{
    let typed = match read_table(alloc, bytes, kinds, format) {
        Ok(typed) => typed,
        Err(refused) => return Err(refused),
    };
    match keys_of(alloc, &typed) {
        Ok(keys) => Ok(keys),
        Err(_) => Err(ReadRefused::Memory),
    }
}

// Adds the line of a column, if it can be a key.
fn push_key_line(
    alloc: Global,
    out: &mut Vec<u8>,
    key: bool,
    name: &str,
    kind: ColumnType,
) -> Result<(), AllocError>
    ensures { OnOk result (out.new.items ≡ out.old.items ++ (if key then column_line name.now kind else [])) }
{
    if key {
        return push_line(alloc, out, name, kind);
    }
    Ok(())
}

// A line for each column of a table that can be a key, with its name and one of the types, in order.
fn lines_of_keys(
    alloc: Global,
    table: &Table,
    kinds: &[ColumnType],
    keys: &[bool],
) -> Result<Vec<u8>, AllocError>
    requires kinds { length kinds.now ≡ length table.now.types }
    requires keys { length keys.now ≡ length table.now.types }
    ensures { IfOk result (λ lines. lines.items ≡ key_lines keys.now table.now.names kinds.now) }
{
    let mut lines = Vec::new(alloc);
    for col in 0..table.columns() {
        push_key_line(alloc, &mut lines, keys[col], table.name(col), kinds[col])?;
    }
    Ok(lines)
}

// The first cell of a column that isn't a number, if another one is and the column can be a key.
fn misfit_of_key(
    alloc: Global,
    table: &Table,
    col: usize,
    key: bool,
) -> Result<Option<Misfit>, AllocError>
    requires { col < length table.now.types }
    ensures { IfOk result (IsKeyMisfit key table.now col) }
{
    if key {
        return misfit_of(alloc, table, col);
    }
    Ok(None)
}

// That cell of each column of a table that can be a key, in order, and none of the others.
fn misfits_of_keys(
    alloc: Global,
    table: &Table,
    keys: &[bool],
) -> Result<Vec<Option<Misfit>>, AllocError>
    requires { length keys.now ≡ length table.now.types }
    ensures { IfOk result (λ misfits. AreKeyMisfits table.now keys.now misfits.items) }
{
    let mut misfits = Vec::new(alloc);
    for col in 0..table.columns() {
        let misfit = misfit_of_key(alloc, table, col, keys[col])?;
        misfits.push(misfit)?;
    }
    Ok(misfits)
}

// What the cells of a file suggest of the columns that can be a key of its table.
pub(crate) fn suggest_keys(
    alloc: Global,
    bytes: &[u8],
    format: &InputFormat<'_>,
) -> Result<Suggestion, Fault>
    ensures suggestion { IfOk result (IsKeySuggestionOf (records (config_of format.now.delimiter) (strip_bom bytes.now)) (null_texts format.now.nulls.now)) }
    ensures fault { IfErr result (λ f. f ≢ Fault.Memory → IsSuggestFault format.now.delimiter bytes.now (null_texts format.now.nulls.now) f) }
{
    let (table, kinds) = match read_columns(alloc, bytes, format) {
        Ok(read) => read,
        Err(refused) => return Err(fault_of_read(Side::Left, refused)),
    };
    let keys = match keys_of_file(alloc, bytes, kinds.as_slice(), format) {
        Ok(keys) => keys,
        Err(refused) => return Err(fault_of_read(Side::Left, refused)),
    };
    Ok(Suggestion {
        list: lines_of_keys(alloc, &table, kinds.as_slice(), keys.as_slice())?,
        misfits: misfits_of_keys(alloc, &table, keys.as_slice())?,
    })
}
