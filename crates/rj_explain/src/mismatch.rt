//! Operands of a clause that can't be compared.

ghost use Rattle.std.specs.Prelude.{◌≡◌, ◌++◌, IfOk, Some, codes, slice_get, string_bytes};
ghost use Rattle.std.specs.Fmt.{WritesOnOk};
ghost use Rattle.rj_explain.specs.Explained.{IsApartTold, IsMismatchTold, pair_line};
ghost use Rattle.rj_line.specs.Shown as shown;
ghost use Rattle.rj_explain.specs.Typed.{column_text, digits, is_plain, literal_text, name_word, typed_text};

use crate::clause::{BothColumns, columns_of_both};
use crate::inputs::Inputs;
use crate::shown::TypeWord;
use rj_columns::Table;
use rj_columns::decimal::DecimalBuffer;
use rj_condition::{BoundOperand, DecimalLiteral, Literal, Mismatch, first_mismatch};
use rj_line::shown::{Shown, ShownText, write_loose_bytes};
use std::alloc::{AllocError, Global};
use std::fmt;

// The most bytes of a clause.
const LONGEST: usize = 65_536;

// An operand with its type: a column with its table's letter, or a literal as a clause writes it.
#[derive(Clone, Copy)]
struct Typed<'t> {
    operand: &'t BoundOperand,
    left: &'t Table,
    right: &'t Table,
}

fn is_plain_name(name: &str) -> bool
    ensures { result ≡ is_plain name.now }
{
    name.as_bytes()
        .iter()
        .all(|b| b.is_ascii_alphanumeric() || *b == b'_')
}

// Writes a name, between double quotes if it has other signs than letters, digits and underscores.
fn show_name<W: fmt::Write>(f: &mut fmt::Formatter<W>, name: &str) -> fmt::Result
    ensures { WritesOnOk W.write_str_gives f.old result (name_word name.now) f.new }
{
    if is_plain_name(name) {
        return f.write_str(name);
    }
    let name = Shown {
        bytes: name.as_bytes(),
    };
    write!(f, "{name}")
}

// A column of the table with this letter, and its type.
fn show_column<W: fmt::Write>(
    f: &mut fmt::Formatter<W>,
    letter: &str,
    table: &Table,
    column: usize,
) -> fmt::Result
    ensures { WritesOnOk W.write_str_gives f.old result (column_text letter.now (slice_get table.now.types column) (slice_get table.now.names column)) f.new }
{
    if column >= table.columns() {
        return f.write_str("");
    }
    let kind = TypeWord {
        kind: table.column_type(column),
    };
    f.write_str(letter)?;
    f.write_str(".")?;
    show_name(f, table.name(column))?;
    write!(f, " is {kind}")
}

#[tactic(auto, unfolding(crate::specs::Typed::digits))]
fn show_digits<W: fmt::Write>(f: &mut fmt::Formatter<W>, decimal: DecimalLiteral) -> fmt::Result
    ensures { WritesOnOk W.write_str_gives f.old result (digits decimal.scale decimal.units) f.new }
{
    let mut buffer = DecimalBuffer::new();
    write_loose_bytes(f, buffer.format(i128::from(decimal.units), decimal.scale))
}

fn show_decimal<W: fmt::Write>(f: &mut fmt::Formatter<W>, decimal: DecimalLiteral) -> fmt::Result
    ensures { WritesOnOk W.write_str_gives f.old result (digits decimal.scale decimal.units ++ codes " is a number") f.new }
{
    show_digits(f, decimal)?;
    f.write_str(" is a number")
}

fn show_text<W: fmt::Write>(f: &mut fmt::Formatter<W>, text: &str) -> fmt::Result
    ensures { WritesOnOk W.write_str_gives f.old result (shown.literal text.now ++ codes " is text") f.new }
{
    let text = ShownText { text };
    write!(f, "{text} is text")
}

fn show_literal<W: fmt::Write>(f: &mut fmt::Formatter<W>, literal: &Literal) -> fmt::Result
    ensures { WritesOnOk W.write_str_gives f.old result (literal_text literal.now) f.new }
{
    match literal {
        Literal::Integer(number) => {
            let number = *number;
            write!(f, "{number} is a number")
        }
        Literal::Decimal(decimal) => show_decimal(f, *decimal),
        Literal::Text(text) => show_text(f, text.as_str()),
    }
}

impl fmt::Display for Typed<'_> {
    ghost output = { λ t. Some (typed_text t.operand.now t.left.now t.right.now) };

    fn fmt<W: fmt::Write>(&self, f: &mut fmt::Formatter<W>) -> fmt::Result {
        match self.operand {
            BoundOperand::Left(column) => show_column(f, "L", self.left, *column),
            BoundOperand::Right(column) => show_column(f, "R", self.right, *column),
            BoundOperand::Literal(literal) => show_literal(f, literal),
        }
    }
}

// The text of an operand with its type.
fn typed_text(
    alloc: Global,
    operand: &BoundOperand,
    columns: &BothColumns,
) -> Result<String, AllocError>
    ensures { IfOk result (λ s. string_bytes s ≡ typed_text operand.now columns.now.left columns.now.right) }
{
    let typed = Typed {
        operand,
        left: &columns.left,
        right: &columns.right,
    };
    format!(in alloc; "{typed}")
}

// The line for two operands that can't be compared.
fn mismatch_line(
    alloc: Global,
    found: &Mismatch,
    columns: &BothColumns,
) -> Result<String, AllocError>
    ensures { IfOk result (λ s. string_bytes s ≡ pair_line found.now columns.now.left columns.now.right) }
{
    let at = found.at;
    let first = typed_text(alloc, &found.first, columns)?;
    let second = typed_text(alloc, &found.second, columns)?;
    format!(in alloc; "  {first}, {second}, at byte {at} of the clause\n")
}

// The line for the first comparison of a clause whose operands are a number and a text, if there is
// one.
fn first_mismatch_line(
    alloc: Global,
    clause: &str,
    columns: &BothColumns,
) -> Result<String, AllocError>
    ensures { IfOk result (λ s. IsApartTold clause.now (string_bytes s) columns.now.left columns.now.right) }
{
    if clause.len() > LONGEST {
        return Ok(String::new(alloc));
    }
    match first_mismatch(alloc, clause, &columns.left, &columns.right)? {
        Some(found) => mismatch_line(alloc, &found, columns),
        None => Ok(String::new(alloc)),
    }
}

/// The lines for the first comparison of the clause whose operands are a number and a text: both
/// with their types, and the byte at which it begins.
///
/// # Errors
///
/// It fails only when memory runs out.
pub(crate) fn mismatch_lines(alloc: Global, inputs: &Inputs<'_, '_>) -> Result<String, AllocError>
    ensures { IfOk result (λ s. IsMismatchTold inputs.now (string_bytes s)) }
{
    match columns_of_both(alloc, inputs)? {
        Some(columns) => first_mismatch_line(alloc, inputs.request.clause, &columns),
        None => Ok(String::new(alloc)),
    }
}
