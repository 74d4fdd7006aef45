//! Further cells of a column that aren't of its type, below the first one.

ghost use Rattle.std.specs.Prelude.{◌≡◌, ◌≤◌, ◌+◌, IfOk, IfSome, MatchOption, is_none, length, string_bytes};
ghost use Rattle.std.specs.Str.{is_utf8};
ghost use Rattle.rj_csv_io.specs.Pieces.{names_in};
ghost use Rattle.rj_csv_io.specs.Typed.{is_int_text, null_texts, read_cell};
ghost use Rattle.rj_explain.specs.Further as further;
ghost use Rattle.rj_explain.specs.Further.{AreBadTold, AreFurtherTold, AreToldIn, HasNoBad, IsColumnOf, IsFirstBadRow, IsFurtherExplained, has_bad};
ghost use Rattle.rj_explain.specs.Places.{HasNoRow, StandsAt, at_column};

use crate::cells::kind_at;
use crate::inputs::{Inputs, text_of};
use crate::places::{first_record, line_from, place_of_row};
use crate::row::{Row, field_at, find_row};
use rj_columns::ColumnType;
use rj_columns::decimal::read_numeric;
use rj_csv_io::strict::Delimiter;
use rj_csv_io::{Header, is_null_field};
use rj_line::fault::{Fault, Side};
use rj_line::shown::Shown;
use std::alloc::{AllocError, Global};
use std::str;

// How many cells are told at most, beside the first one.
const MOST: u32 = 19;

// A column of a text, with the type that its cells have to be of.
#[derive(Clone, Copy)]
struct TypedColumn<'a> {
    text: &'a [u8],
    delimiter: Delimiter,
    // Its number, counted from 1.
    number: u64,
    kind: ColumnType,
    nulls: &'a [&'a str],
}

// A row, and the place in the text after the records that come before it.
#[derive(Clone, Copy)]
struct RowPlace {
    row: u64,
    at: usize,
}

// A row with a bad cell, and the place of the next one.
#[derive(Drop)]
struct BadRow {
    number: u64,
    row: Row,
    below: RowPlace,
}

// Whether a field is a whole number of 64 bits.
fn is_integer(field: &[u8]) -> bool
    ensures { result ≡ is_int_text field.now }
{
    match str::from_utf8(field) {
        Ok(text) => text.parse::<i64>().is_ok(),
        Err(_) => false,
    }
}

// Whether a field is UTF-8.
fn is_text(field: &[u8]) -> bool
    ensures { result ≡ is_utf8 field.now }
{
    str::from_utf8(field).is_ok()
}

// Whether a field is neither NULL nor of a type.
fn is_bad(field: &[u8], kind: ColumnType, nulls: &[&str]) -> bool
    ensures { result ≡ is_none (read_cell (null_texts nulls.now) kind field.now) }
{
    if is_null_field(field, nulls) {
        return false;
    }
    match kind {
        ColumnType::Int => !is_integer(field),
        ColumnType::Num(numeric) => read_numeric(field, numeric).is_none(),
        ColumnType::Text => !is_text(field),
    }
}

// Whether a record has a bad cell at the column.
fn has_bad(alloc: Global, column: &TypedColumn<'_>, fields: &Header) -> Result<bool, AllocError>
    ensures { IfOk result (λ b. b ≡ has_bad column.now (names_in fields.now)) }
{
    match field_at(alloc, fields, column.number)? {
        Some(field) => Ok(is_bad(field, column.kind, column.nulls)),
        None => Ok(false),
    }
}

// The first row with a bad cell, from a row on.
fn first_bad(
    alloc: Global,
    column: &TypedColumn<'_>,
    from: RowPlace,
) -> Result<Option<BadRow>, AllocError>
    requires stands { StandsAt column.now.delimiter column.now.text.now from.row from.at }
    requires within { from.at ≤ length column.now.text.now }
    requires rows { from.row ≤ from.at }
    ensures bad { IfOk result (λ o. MatchOption o (HasNoBad column.now from.row)
        (λ b. IsFirstBadRow column.now from.row b.number b.row.line (names_in b.row.fields))) }
    ensures below { IfOk result (λ o. IfSome o (λ b. StandsAt column.now.delimiter column.now.text.now b.below.row b.below.at)) }
    ensures next { IfOk result (λ o. IfSome o (λ b. b.below.row ≡ b.number + 1)) }
    ensures within { IfOk result (λ o. IfSome o (λ b. b.below.at ≤ length column.now.text.now)) }
    ensures rows { IfOk result (λ o. IfSome o (λ b. b.below.row ≤ b.below.at)) }
{
    let mut at = from.at;
    for row in from.row..u64::MAX {
        let rest = &column.text[at..];
        let Some(fields) = Header::of(alloc, rest, column.delimiter)? else {
            return Ok(None);
        };
        let Some(size) = first_record(rest, column.delimiter) else {
            return Ok(None);
        };
        if has_bad(alloc, column, &fields)? {
            return Ok(Some(BadRow {
                number: row,
                row: Row {
                    line: line_from(column.text, at),
                    fields,
                },
                below: RowPlace {
                    row: row + 1,
                    at: at + size,
                },
            }));
        }
        at += size;
    }
    Ok(None)
}

// The line for a bad cell.
fn bad_line(alloc: Global, column: &TypedColumn<'_>, found: &BadRow) -> Result<String, AllocError>
    ensures { IfOk result (λ s. string_bytes s
        ≡ further.bad_line found.now.number found.now.row.line (at_column column.now.number (names_in found.now.row.fields))) }
{
    let (row, line) = (found.number, found.row.line);
    match field_at(alloc, &found.row.fields, column.number)? {
        Some(bytes) => {
            let value = Shown { bytes };
            format!(in alloc; "  row {row}, line {line} of the file: {value}\n")
        }
        None => Ok(String::new(alloc)),
    }
}

// The lines for the first bad cells from a row on.
fn bad_lines(alloc: Global, column: &TypedColumn<'_>, from: RowPlace) -> Result<String, AllocError>
    requires stands { StandsAt column.now.delimiter column.now.text.now from.row from.at }
    requires within { from.at ≤ length column.now.text.now }
    requires rows { from.row ≤ from.at }
    ensures { IfOk result (λ s. AreBadTold column.now from.row 19 (string_bytes s)) }
{
    let mut lines = String::new(alloc);
    let mut place = from;
    for _told in 0..MOST {
        let Some(found) = first_bad(alloc, column, place)? else {
            return Ok(lines);
        };
        let line = bad_line(alloc, column, &found)?;
        lines.push_str(line.as_str())?;
        place = found.below;
    }
    let Some(_next) = first_bad(alloc, column, place)? else {
        return Ok(lines);
    };
    lines.push_str("  .. and more\n")?;
    Ok(lines)
}

// The place below a row, which has the header's number 0 or one behind it.
fn place_below(text: &[u8], delimiter: Delimiter, row: u64) -> Option<RowPlace>
    ensures place { MatchOption result (HasNoRow delimiter text.now (row + 1)) (λ p. StandsAt delimiter text.now p.row p.at) }
    ensures below { IfSome result (λ p. p.row ≡ row + 1) }
    ensures within { IfSome result (λ p. p.at ≤ length text.now) }
    ensures rows { IfSome result (λ p. p.row ≤ p.at) }
{
    let above = place_of_row(text, delimiter, row)?;
    let size = first_record(&text[above..], delimiter)?;
    Some(RowPlace {
        row: row + 1,
        at: above + size,
    })
}

// The lines for the bad cells of a column below a row.
fn lines_below(alloc: Global, column: &TypedColumn<'_>, row: u64) -> Result<String, AllocError>
    ensures { IfOk result (λ s. AreBadTold column.now (row + 1) 19 (string_bytes s)) }
{
    match place_below(column.text, column.delimiter, row) {
        Some(place) => bad_lines(alloc, column, place),
        None => Ok(String::new(alloc)),
    }
}

// The column with this number and type of a side's text.
fn column_of<'a>(
    inputs: &Inputs<'a, 'a>,
    side: Side,
    text: &'a [u8],
    number: u64,
    kind: ColumnType,
) -> TypedColumn<'a>
    ensures { IsColumnOf side inputs.now text.now number kind result }
{
    TypedColumn {
        text,
        delimiter: inputs.table(side).delimiter,
        number,
        kind,
        nulls: inputs.nulls(side),
    }
}

// The lines for the bad cells of a column below a row of a side's text.
fn lines_of_text<'a>(
    alloc: Global,
    inputs: &Inputs<'a, 'a>,
    side: Side,
    text: &'a [u8],
    row: u64,
    number: u64,
) -> Result<String, AllocError>
    ensures { IfOk result (λ s. AreToldIn side row number inputs.now text.now (string_bytes s)) }
{
    let file = inputs.table(side);
    let Some(header) = find_row(alloc, text, file.delimiter, 0)? else {
        return Ok(String::new(alloc));
    };
    match kind_at(alloc, &file, &header, number)? {
        Some(kind) => {
            let column = column_of(inputs, side, text, number, kind);
            lines_below(alloc, &column, row)
        }
        None => Ok(String::new(alloc)),
    }
}

// The same of a side's file.
fn further_lines(
    alloc: Global,
    inputs: &Inputs<'_, '_>,
    side: Side,
    row: u64,
    number: u64,
) -> Result<String, AllocError>
    ensures { IfOk result (λ s. AreFurtherTold side row number inputs.now (string_bytes s)) }
{
    let file = inputs.table(side);
    let quoted = file.quoted_text(alloc)?;
    let text = text_of(&quoted, file.bytes);
    lines_of_text(alloc, inputs, side, text, row, number)
}

/// The lines for the cells that aren't of their column's type below the one that an error names:
/// each with its row and the line of the file on which that begins. There are 19 at most, and one
/// more line if there are more such cells. For other errors there are none.
///
/// # Errors
///
/// It fails only when memory runs out.
pub fn explain_further(
    alloc: Global,
    fault: &Fault,
    inputs: &Inputs<'_, '_>,
) -> Result<String, AllocError>
    ensures { IfOk result (λ s. IsFurtherExplained fault.now inputs.now (string_bytes s)) }
{
    match *fault {
        Fault::BadInteger(side, row, column) | Fault::BadText(side, row, column) => {
            further_lines(alloc, inputs, side, row, column)
        }
        _ => Ok(String::new(alloc)),
    }
}
