//! Columns of the result, and rows that are in more matches than expected.

ghost use Rattle.std.specs.Prelude.{◌≡◌, ◌-◌, ◌++◌, IfOk, IfSome, IsErr, List, MatchOption, Ok, OnOk, ℕ, map, option_map, slice_get, string_bytes, true};
ghost use Rattle.std.specs.Option.{option_copied, option_to_list};
ghost use Rattle.rj_condition.specs.Fits.{fits};
ghost use Rattle.rj_csv_io.specs.Pieces.{names_in};
ghost use Rattle.rj_engine.specs.Naming.{chosen_names};
ghost use Rattle.rj_explain.specs.Explained.{AreKeyColumns, AreKeysAsked, AreNamesWritten, HasNoJoin, HasNoNames, IsCellOfResultTold, IsJoinOf, IsKeyTold, IsNullTold, IsPairedTold, keys_at};
ghost use Rattle.rj_explain.specs.Lines as lines;
ghost use Rattle.rj_explain.specs.Lines.{fields_text};

use crate::cells::{HeaderAndRow, find_both};
use crate::clause::{BothColumns, columns_of_both};
use crate::inputs::Inputs;
use rj_columns::Table;
use rj_condition::{BindRefused, BoundJoin, ParseRefused, bind, parse, split};
use rj_engine::{NamingRefused, chosen_names};
use rj_line::Request;
use rj_line::fault::Side;
use rj_line::shown::Shown;
use std::alloc::{AllocError, Global};

/// The join that a clause asks of two tables, if it is valid.
///
/// # Errors
///
/// It fails only when memory runs out.
pub(crate) fn join_of(
    alloc: Global,
    clause: &str,
    left: &Table,
    right: &Table,
) -> Result<Option<BoundJoin>, AllocError>
    ensures fits { IfOk result (λ o. IfSome o (λ join. fits join left.now.types right.now.types ≡ true)) }
    ensures asked { IfOk result (λ o. MatchOption o (HasNoJoin clause.now left.now right.now) (IsJoinOf clause.now left.now right.now)) }
{
    let clause = match parse(alloc, clause) {
        Ok(clause) => clause,
        Err(ParseRefused::Memory) => return Err(AllocError),
        Err(_) => return Ok(None),
    };
    match bind(alloc, &clause, left, right) {
        Ok(join) => Ok(Some(join)),
        Err(BindRefused::Memory) => Err(AllocError),
        Err(_) => Ok(None),
    }
}

// The names under which the chosen columns of a join are written, if they can be.
fn names_of(
    alloc: Global,
    columns: &BothColumns,
    join: &BoundJoin,
    request: &Request<'_>,
) -> Result<Option<Vec<String>>, AllocError>
    requires { fits join.now columns.now.left.types columns.now.right.types ≡ true }
    ensures { IfOk result (λ o. MatchOption o (IsErr (chosen_names request.now.choice join.now columns.now.left columns.now.right))
        (λ v. chosen_names request.now.choice join.now columns.now.left columns.now.right ≡ Ok (map string_bytes v.items))) }
{
    match chosen_names(alloc, &columns.left, &columns.right, join, &request.choice) {
        Ok(names) => Ok(Some(names)),
        Err(NamingRefused::Memory) => Err(AllocError),
        Err(_) => Ok(None),
    }
}

// The same for the join that is asked for, if it is valid.
fn names_of_result(
    alloc: Global,
    inputs: &Inputs<'_, '_>,
    columns: &BothColumns,
) -> Result<Option<Vec<String>>, AllocError>
    ensures { IfOk result (λ o. MatchOption o (HasNoNames inputs.now.request.now columns.now.left columns.now.right)
        (λ v. AreNamesWritten inputs.now.request.now columns.now.left columns.now.right (map string_bytes v.items))) }
{
    match join_of(alloc, inputs.request.clause, &columns.left, &columns.right)? {
        Some(join) => names_of(alloc, columns, &join, inputs.request),
        None => Ok(None),
    }
}

// The line for a cell under these names.
fn null_text_line(
    alloc: Global,
    names: &[String],
    null: &str,
    row: u64,
    column: u64,
) -> Result<String, AllocError>
    ensures { IfOk result (λ s. string_bytes s ≡ lines.null_line row (slice_get (map string_bytes names.now) (column - 1)) null.now) }
{
    let Some(name) = names.get((column as usize).saturating_sub(1)) else {
        return Ok(String::new(alloc));
    };
    let (name, text) = (
        Shown {
            bytes: name.as_str().as_bytes(),
        },
        Shown {
            bytes: null.as_bytes(),
        },
    );
    format!(in alloc;
        "  row {row} of the result, column {name}: {text} is a text, and null is written so too\n"
    )
}

// The lines for such a cell, by the columns of both tables.
fn lines_of_null_text(
    alloc: Global,
    inputs: &Inputs<'_, '_>,
    columns: &BothColumns,
    row: u64,
    column: u64,
) -> Result<String, AllocError>
    ensures { IfOk result (λ s. IsCellOfResultTold inputs.now.request.now row column (string_bytes s) columns.now.left columns.now.right) }
{
    match names_of_result(alloc, inputs, columns)? {
        Some(names) => null_text_line(
            alloc,
            names.as_slice(),
            inputs.request.out_null,
            row,
            column,
        ),
        None => Ok(String::new(alloc)),
    }
}

/// The lines for a cell of the result whose text is the one that is written for NULL: its row, the
/// name of its column, counted from 1, and the text.
///
/// # Errors
///
/// It fails only when memory runs out.
pub(crate) fn null_text_lines(
    alloc: Global,
    inputs: &Inputs<'_, '_>,
    row: u64,
    column: u64,
) -> Result<String, AllocError>
    ensures { IfOk result (λ s. IsNullTold row column inputs.now (string_bytes s)) }
{
    match columns_of_both(alloc, inputs)? {
        Some(columns) => lines_of_null_text(alloc, inputs, &columns, row, column),
        None => Ok(String::new(alloc)),
    }
}

// The columns of a side's table, counted from 0, that are keys of a join.
fn keys_on(alloc: Global, join: &BoundJoin, side: Side) -> Result<Vec<usize>, AllocError>
    ensures { IfOk result (λ v. v.items ≡ keys_at side join.now) }
{
    let split = split(alloc, join)?;
    match side {
        Side::Left => split.left_columns(alloc),
        Side::Right => split.right_columns(alloc),
    }
}

// The same for the join that is asked for, by the columns of both tables.
fn keys_of_join(
    alloc: Global,
    inputs: &Inputs<'_, '_>,
    columns: &BothColumns,
    side: Side,
) -> Result<Vec<usize>, AllocError>
    ensures { IfOk result (λ v. AreKeysAsked side inputs.now.request.now.clause.now v.items columns.now.left columns.now.right) }
{
    match join_of(alloc, inputs.request.clause, &columns.left, &columns.right)? {
        Some(join) => keys_on(alloc, &join, side),
        None => Ok(Vec::new(alloc)),
    }
}

// The same, if both tables have columns.
fn key_columns(alloc: Global, inputs: &Inputs<'_, '_>, side: Side) -> Result<Vec<usize>, AllocError>
    ensures { IfOk result (λ v. AreKeyColumns side inputs.now v.items) }
{
    match columns_of_both(alloc, inputs)? {
        Some(columns) => keys_of_join(alloc, inputs, &columns, side),
        None => Ok(Vec::new(alloc)),
    }
}

// What is at a column, counted from 0, if there is something.
fn field_in<'f>(fields: &[&'f [u8]], column: usize) -> Option<&'f [u8]>
    ensures { option_copied result ≡ slice_get (map (λ f. f.now) fields.now) column }
{
    fields.get(column).copied()
}

// The name of a column, and what is under it in a row, if the row has it.
fn field_text(
    alloc: Global,
    name: Option<&[u8]>,
    field: Option<&[u8]>,
) -> Result<Option<String>, AllocError>
    ensures { IfOk result (λ o. option_map string_bytes o ≡ lines.field_text (option_copied name.entry) (option_copied field.entry)) }
{
    let (Some(name), Some(field)) = (name, field) else {
        return Ok(None);
    };
    let (name, field) = (Shown { bytes: name }, Shown { bytes: field });
    Ok(Some(format!(in alloc; " {name} is {field}")?))
}

// Adds one of several to a text, if there is one.
fn push_field(text: &mut String, field: Option<String>) -> Result<(), AllocError>
    ensures { (told : List (List ℕ)) → string_bytes text.old ≡ fields_text told
        → OnOk result (string_bytes text.new ≡ fields_text (told ++ option_to_list (option_map string_bytes field))) }
{
    let Some(field) = field else {
        return Ok(());
    };
    text.push_str(if text.is_empty() { ":" } else { "," })?;
    text.push_str(field.as_str())
}

// The names of these columns, counted from 0, and what is under each in a row.
fn key_text_of(alloc: Global, found: &HeaderAndRow, columns: &[usize]) -> Result<String, AllocError>
    ensures { IfOk result (λ s. string_bytes s ≡ lines.key_text (names_in found.now.header.fields) (names_in found.now.row.fields) columns.now) }
{
    let names = found.header.fields.names(alloc)?;
    let fields = found.row.fields.names(alloc)?;
    let mut text = String::new(alloc);
    for column in columns {
        let name = field_in(names.as_slice(), *column);
        let field = field_in(fields.as_slice(), *column);
        push_field(&mut text, field_text(alloc, name, field)?)?;
    }
    Ok(text)
}

// How many matches a row is in.
fn pairs_text(alloc: Global, pairs: u64) -> Result<String, AllocError>
    ensures { IfOk result (λ s. string_bytes s ≡ lines.pairs_text pairs) }
{
    if pairs == 0 {
        return String::from_str(alloc, "no kept pair");
    }
    format!(in alloc; "{pairs} kept pairs")
}

// The line for a row that is in this many matches, and what is in its key.
fn paired_line(
    alloc: Global,
    side: Side,
    row: u64,
    pairs: u64,
    line: u64,
    key: &str,
) -> Result<String, AllocError>
    ensures { IfOk result (λ s. string_bytes s ≡ lines.row_line side row pairs line key.now) }
{
    let pairs = pairs_text(alloc, pairs)?;
    format!(in alloc; "  {side} row {row}, line {line} of the file, is in {pairs}{key}\n")
}

// What is in the key's columns of a row at hand.
fn key_text(
    alloc: Global,
    inputs: &Inputs<'_, '_>,
    found: &HeaderAndRow,
    side: Side,
) -> Result<String, AllocError>
    ensures { IfOk result (λ s. (columns : List ℕ) × AreKeyColumns side inputs.now columns
        × (string_bytes s ≡ lines.key_text (names_in found.now.header.fields) (names_in found.now.row.fields) columns)) }
{
    let columns = key_columns(alloc, inputs, side)?;
    key_text_of(alloc, found, columns.as_slice())
}

// What is told of a row at hand.
fn lines_of_paired(
    alloc: Global,
    inputs: &Inputs<'_, '_>,
    found: &HeaderAndRow,
    side: Side,
    row: u64,
    pairs: u64,
) -> Result<String, AllocError>
    ensures { IfOk result (λ s. IsKeyTold side row pairs inputs.now (string_bytes s) found.now.row.line
        (names_in found.now.header.fields) (names_in found.now.row.fields)) }
{
    let key = key_text(alloc, inputs, found, side)?;
    paired_line(alloc, side, row, pairs, found.row.line, key.as_str())
}

/// The lines for a row of a side's table, counted from 1, that is in this many matches: the line of
/// the file on which it begins, and what is in the key's columns.
///
/// # Errors
///
/// It fails only when memory runs out.
pub fn explain_row(
    alloc: Global,
    inputs: &Inputs<'_, '_>,
    side: Side,
    row: u64,
    pairs: u64,
) -> Result<String, AllocError>
    ensures { IfOk result (λ s. IsPairedTold side row pairs inputs.now (string_bytes s)) }
{
    match find_both(alloc, &inputs.table(side), row)? {
        Some(found) => lines_of_paired(alloc, inputs, &found, side, row, pairs),
        None => Ok(String::new(alloc)),
    }
}
