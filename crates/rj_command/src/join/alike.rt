//! Keys of columns without declared types that hold numbers, which are compared as texts.

ghost use Rattle.std.specs.Prelude.{◌≡◌, ◌<◌, IfOk, length, map, string_bytes, true};
ghost use Rattle.std.specs.List.{list_all};
ghost use Rattle.rj_columns.specs.Contents.{content_of};
ghost use Rattle.rj_columns.specs.Tables.{column_in};
ghost use Rattle.rj_condition.specs.Fits.{fits, pair_fits};
ghost use Rattle.rj_condition.specs.Splits.{keys_of};
ghost use Rattle.rj_condition.specs.Tokens.{is_name_byte};
ghost use Rattle.rj_command.specs.Alike.{are_alike, are_both, first_length, is_cell_of, is_open_column, is_text_key, length_in, names_of, shown_name, text_key_names};

use crate::join::numerals::{Spelling, is_of};
use crate::join::operands::Operands;
use crate::join::shown::shown_text;
use crate::join::stats::TextKey;
use crate::join::types::types_of;
use crate::join::undeclared::{is_open, is_undeclared};
use rj_columns::{Cell, Table};
use rj_condition::split;
use rj_line::Request;
use rj_line::fault::Side;
use std::alloc::{AllocError, Global};

// Whether a cell is NULL, or a text of this spelling.
fn is_cell_of(spelling: Spelling, cell: Cell<'_>) -> bool
    ensures { result ≡ is_cell_of spelling (content_of cell.entry) }
{
    match cell {
        Cell::Null => true,
        Cell::Text(text) => is_of(spelling, text.as_bytes()),
        Cell::Int(_) | Cell::Num { .. } => false,
    }
}

// How many bytes the text in a cell has.
fn length_in(cell: Cell<'_>) -> Option<usize>
    ensures { result ≡ length_in (content_of cell.entry) }
{
    match cell {
        Cell::Text(text) => Some(text.len()),
        _ => None,
    }
}

// How many bytes the first text of a column has, if there is one.
fn first_length(table: &Table, column: usize) -> Option<usize>
    requires { column < length table.now.types }
    ensures { result ≡ first_length (column_in table.now.rows column) }
{
    for row in 0..table.rows() {
        let found = length_in(table.cell(row, column));
        if found.is_some() {
            return found;
        }
    }
    None
}

// Whether each text of a column is of this spelling. The first one that isn't ends the search.
fn are_of(spelling: Spelling, table: &Table, column: usize) -> bool
    requires { column < length table.now.types }
    ensures { result ≡ list_all (is_cell_of spelling) (column_in table.now.rows column) }
{
    for row in 0..table.rows() {
        if !is_cell_of(spelling, table.cell(row, column)) {
            return false;
        }
    }
    true
}

// Whether each text of two columns is of this spelling.
fn are_both(spelling: Spelling, left: &Table, i: usize, right: &Table, j: usize) -> bool
    requires left { i < length left.now.types }
    requires right { j < length right.now.types }
    ensures { result ≡ are_both spelling (column_in left.now.rows i) (column_in right.now.rows j) }
{
    are_of(spelling, left, i) && are_of(spelling, right, j)
}

// Whether two columns hold numbers that aren't written in one way. Each step ends at the first text
// that decides it, so that words are told from numbers by the first of them.
#[tactic(auto, using(crate::proofs::AlikeFacts::alike_none, crate::proofs::AlikeFacts::alike_plain, crate::proofs::AlikeFacts::alike_codes, crate::proofs::AlikeFacts::alike_others))]
fn are_alike(left: &Table, i: usize, right: &Table, j: usize) -> bool
    requires left { i < length left.now.types }
    requires right { j < length right.now.types }
    ensures { result ≡ are_alike (column_in left.now.rows i) (column_in right.now.rows j) }
{
    let Some(digits) = first_length(left, i) else {
        return false;
    };
    let Some(_) = first_length(right, j) else {
        return false;
    };
    if are_both(Spelling::Plain, left, i, right, j) {
        return false;
    }
    if are_both(Spelling::Code(digits), left, i, right, j) {
        return false;
    }
    are_both(Spelling::Numeral, left, i, right, j)
}

// Whether the type of a side's column isn't declared.
fn is_open_column(request: &Request<'_>, side: Side, table: &Table, column: usize) -> bool
    requires { column < length table.now.types }
    ensures { result ≡ is_open_column request.now side table.now column }
{
    is_undeclared(
        is_open(request, side),
        types_of(request, side),
        table.name(column),
    )
}

// Whether a key's two columns are undeclared and hold such numbers.
fn is_text_key(request: &Request<'_>, left: &Table, i: usize, right: &Table, j: usize) -> bool
    requires left { i < length left.now.types }
    requires right { j < length right.now.types }
    ensures { result ≡ is_text_key request.now left.now right.now (i, j) }
{
    is_open_column(request, Side::Left, left, i)
        && is_open_column(request, Side::Right, right, j)
        && are_alike(left, i, right, j)
}

fn is_name_byte(byte: u8) -> bool
    ensures { result ≡ is_name_byte byte }
{
    byte.is_ascii_alphanumeric() || byte == b'_'
}

fn are_name_bytes(bytes: &[u8]) -> bool
    ensures { result ≡ list_all is_name_byte bytes.now }
{
    bytes.iter().all(|b| is_name_byte(*b))
}

// A column's name as it is shown.
fn shown_name(alloc: Global, name: &str) -> Result<String, AllocError>
    ensures { IfOk result (λ s. string_bytes s ≡ shown_name name.now) }
{
    if are_name_bytes(name.as_bytes()) {
        return String::from_str(alloc, name);
    }
    shown_text(alloc, name)
}

// A key by the names of its columns.
fn text_key(alloc: Global, left: &str, right: &str) -> Result<TextKey, AllocError>
    ensures { IfOk result (λ k. names_of k ≡ (shown_name left.now, shown_name right.now)) }
{
    Ok(TextKey {
        left: shown_name(alloc, left)?,
        right: shown_name(alloc, right)?,
    })
}

// Those of some keys, left column then right, that are told.
fn told_keys(
    alloc: Global,
    keys: &[(usize, usize)],
    operands: &Operands,
    request: &Request<'_>,
) -> Result<Vec<TextKey>, AllocError>
    requires { list_all (pair_fits operands.now.left.types operands.now.right.types) keys.now ≡ true }
    ensures { IfOk result (λ v. map names_of v.items ≡ text_key_names request.now operands.now.left operands.now.right keys.now) }
{
    let (left, right) = (&operands.left, &operands.right);
    let mut told = Vec::new(alloc);
    for k in 0..keys.len() {
        let (i, j) = keys[k];
        if is_text_key(request, left, i, right, j) {
            let key = text_key(alloc, left.name(i), right.name(j))?;
            told.push(key)?;
        }
    }
    Ok(told)
}

/// The keys of the operands' join whose two columns have no declared types and hold numbers that
/// aren't written in one way. No cell is looked at unless both tables have columns without types.
///
/// # Errors
///
/// It fails only when memory runs out.
pub(crate) fn text_keys_of(
    alloc: Global,
    operands: &Operands,
    request: &Request<'_>,
) -> Result<Vec<TextKey>, AllocError>
    requires { fits operands.now.join operands.now.left.types operands.now.right.types ≡ true }
    ensures { IfOk result (λ v. map names_of v.items ≡ text_key_names request.now operands.now.left operands.now.right (keys_of operands.now.join)) }
{
    if !request.left_undeclared || !request.right_undeclared {
        return Ok(Vec::new(alloc));
    }
    let split = split(alloc, &operands.join)?;
    told_keys(alloc, split.keys.as_slice(), operands, request)
}
