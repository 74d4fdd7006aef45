//! The types that the cells of columns suggest.

ghost use Rattle.std.specs.Prelude.{◌≡◌, ◌<◌, ◌≤◌, ◌+◌, ◌^◌, length, true, false, option_map, IfNone, IfOk, IfSome};
ghost use Rattle.rj_columns.specs.Tables.{cell_of};
ghost use Rattle.rj_line.specs.Suggested.{AreSuggested, EachText, IsFirstNotOf, IsMost, IsNumericOrText, IsSuggested, SomeText, is_of, most_with, text_in};

use crate::suggest::number::{Form, Part, count_digits, is_of};
use rj_columns::{Cell, ColumnType, NumericType, Table};
use std::alloc::{AllocError, Global};

// The most digits of a numeric type.
const MOST_DIGITS: usize = 18;

// How many digits a suggested type has before the point beyond those seen, as far as it may have so
// many.
const MARGIN: usize = 2;

// The text in a cell.
pub(crate) fn text_at(table: &Table, row: u64, col: usize) -> Option<&str>
    requires row { row < length table.now.rows }
    requires col { col < length table.now.types }
    ensures { option_map (λ s. s.now) result ≡ text_in (cell_of table.now row col) }
{
    match table.cell(row, col) {
        Cell::Text(text) => Some(text),
        _ => None,
    }
}

// Whether a column has a text.
fn has_text(table: &Table, col: usize) -> bool
    requires { col < length table.now.types }
    ensures some { result ≡ true → SomeText table.now col (λ _. Unit {0}) }
    ensures none { result ≡ false → EachText table.now col (λ _. ⊥) }
{
    for row in 0..table.rows() {
        if text_at(table, row, col).is_some() {
            return true;
        }
    }
    false
}

// The first row of a column whose text isn't of this form.
pub(crate) fn first_not_of(form: Form, table: &Table, col: usize) -> Option<u64>
    requires { col < length table.now.types }
    ensures none { IfNone result (EachText table.now col (λ s. is_of form s ≡ true)) }
    ensures some { IfSome result (IsFirstNotOf form table.now col) }
{
    for row in 0..table.rows() {
        if let Some(text) = text_at(table, row, col) {
            if !is_of(form, text) {
                return Some(row);
            }
        }
    }
    None
}

// Whether each text of a column is of this form.
fn are_of(form: Form, table: &Table, col: usize) -> bool
    requires { col < length table.now.types }
    ensures each { result ≡ true → EachText table.now col (λ s. is_of form s ≡ true) }
    ensures other { result ≡ false → SomeText table.now col (λ s. is_of form s ≡ false) }
{
    first_not_of(form, table, col).is_none()
}

// The most digits so far, with those of a text, if there is one.
fn most_with(part: Part, most: usize, text: Option<&str>) -> usize
    ensures { result ≡ most_with part most (option_map (λ s. s.now) text.entry) }
{
    match text {
        Some(text) => most.max(count_digits(part, text)),
        None => most,
    }
}

// The most digits that a text of a column has in this part, and no fewer than the least.
fn most_digits(part: Part, table: &Table, col: usize, least: usize) -> usize
    requires { col < length table.now.types }
    ensures { IsMost table.now col part least result }
{
    let mut most = least;
    for row in 0..table.rows() {
        most = most_with(part, most, text_at(table, row, col));
    }
    most
}

// The numeric type for numbers with these digits before and after the point, with a margin for
// larger ones, or that of texts if there are too many.
fn numeric_or_text(before: usize, after: usize) -> ColumnType
    requires { 1 ≤ before }
    ensures { IsNumericOrText before after result }
{
    if before > MOST_DIGITS || after > MOST_DIGITS - before {
        return ColumnType::Text;
    }
    let precision = MOST_DIGITS.min(before + after + MARGIN);
    ColumnType::Num(NumericType {
        precision: precision as u8,
        scale: after as u8,
    })
}

// The type that the cells of a column suggest.
fn kind_of(table: &Table, col: usize) -> ColumnType
    requires { col < length table.now.types }
    ensures { IsSuggested table.now col result }
{
    if !has_text(table, col) {
        return ColumnType::Text;
    }
    if are_of(Form::Int, table, col) {
        return ColumnType::Int;
    }
    if !are_of(Form::Number, table, col) {
        return ColumnType::Text;
    }
    let before = most_digits(Part::Before, table, col, 1);
    let after = most_digits(Part::After, table, col, 0);
    numeric_or_text(before, after)
}

// The types that the cells of the columns of a table suggest, in order.
pub(crate) fn kinds_of(alloc: Global, table: &Table) -> Result<Vec<ColumnType>, AllocError>
    ensures { IfOk result (λ kinds. AreSuggested table.now kinds.items) }
{
    let mut kinds = Vec::new(alloc);
    for col in 0..table.columns() {
        kinds.push(kind_of(table, col))?;
    }
    Ok(kinds)
}
