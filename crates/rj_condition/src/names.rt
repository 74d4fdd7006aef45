//! Which column a name means (SQL-92, 5.4 and 6.4).

ghost use Rattle.std.specs.Prelude.{◌≡◌, ◌≢◌, ◌<◌, IfOk, IfErr, IfSome, Ok, Err, length};
ghost use Rattle.std.specs.List.{position_from};
ghost use Rattle.std.specs.Str.{bytes_eq, str_eq_ignore_ascii_case};
ghost use Rattle.std.specs.Option.{option_copied};
ghost use Rattle.rj_condition.specs.Names as names;
ghost use Rattle.rj_condition.specs.Names.{matches, qualified, resolved_operand};

use crate::bound::BoundOperand;
use crate::refused::BindRefused;
use crate::tree::{Literal, Name, Operand};
use crate::word::Word;
use rj_columns::Table;
use std::alloc::Global;

// Whether two texts are the same.
fn is_same(a: &str, b: &str) -> bool
    ensures { result ≡ bytes_eq a.now b.now }
{
    a == b
}

// Whether two texts are the same when ASCII case is ignored.
fn is_same_ignoring_case(a: &str, b: &str) -> bool
    ensures { result ≡ str_eq_ignore_ascii_case a.now b.now }
{
    a.eq_ignore_ascii_case(b)
}

// Whether the name means a column with this name.
fn is_name_of(name: &Name, called: &str) -> bool
    ensures { result ≡ matches name.now called.now }
{
    if name.delimited {
        is_same(name.text.as_str(), called)
    } else {
        is_same_ignoring_case(name.text.as_str(), called)
    }
}

// Whether two texts are the same, by their bytes.
fn are_same_bytes(a: &[u8], b: &[u8]) -> bool
    ensures { result ≡ bytes_eq a.now b.now }
{
    a == b
}

// Whether they are the same when ASCII case is ignored.
fn are_same_bytes_ignoring_case(a: &[u8], b: &[u8]) -> bool
    ensures { result ≡ str_eq_ignore_ascii_case a.now b.now }
{
    a.eq_ignore_ascii_case(b)
}

impl Name {
    /// Whether the name means a column whose name is these bytes. A regular name ignores ASCII
    /// case, a delimited one is exact (SQL-92, 5.4).
    pub fn means(&self, called: &[u8]) -> bool
        ensures { result ≡ matches self.now called.now }
    {
        if self.delimited {
            are_same_bytes(self.text.as_str().as_bytes(), called)
        } else {
            are_same_bytes_ignoring_case(self.text.as_str().as_bytes(), called)
        }
    }
}

// The column of the table that the name means.
pub(crate) fn column_named(table: &Table, name: &Name) -> Option<usize>
    ensures place { result ≡ position_from (matches name.now) 0 table.now.names }
    ensures within { IfSome result (λ i. i < length table.now.types) }
{
    for i in 0..table.columns() {
        if is_name_of(name, table.name(i)) {
            return Some(i);
        }
    }
    None
}

// The column of the table with this name, ignoring ASCII case.
pub(crate) fn column_called(table: &Table, called: &str) -> Option<usize>
    ensures place { result ≡ position_from (str_eq_ignore_ascii_case called.now) 0 table.now.names }
    ensures within { IfSome result (λ i. i < length table.now.types) }
{
    for i in 0..table.columns() {
        if is_same_ignoring_case(called, table.name(i)) {
            return Some(i);
        }
    }
    None
}

// What an unqualified name means that is in these columns. It has to be in exactly one table.
fn in_one(left: Option<usize>, right: Option<usize>) -> Result<BoundOperand, BindRefused>
    ensures { result ≡ names.in_one left right }
{
    match left {
        Some(i) => match right {
            Some(_) => Err(BindRefused::AmbiguousColumn),
            None => Ok(BoundOperand::Left(i)),
        },
        None => in_right(right),
    }
}

fn in_left(column: Option<usize>) -> Result<BoundOperand, BindRefused>
    ensures { result ≡ names.in_left column }
{
    match column {
        Some(i) => Ok(BoundOperand::Left(i)),
        None => Err(BindRefused::UnknownColumn),
    }
}

fn in_right(column: Option<usize>) -> Result<BoundOperand, BindRefused>
    ensures { result ≡ names.in_right column }
{
    match column {
        Some(j) => Ok(BoundOperand::Right(j)),
        None => Err(BindRefused::UnknownColumn),
    }
}

/// The column that the name means, perhaps qualified by its table's name.
pub(crate) fn resolve_column(
    qualifier: Option<&Name>,
    name: &Name,
    left: &Table,
    right: &Table,
) -> Result<BoundOperand, BindRefused>
    ensures { result ≡ qualified left.now.names right.now.names (option_copied qualifier.entry) name.now }
{
    match qualifier {
        None => in_one(column_named(left, name), column_named(right, name)),
        Some(table) => {
            if is_name_of(table, "L") {
                in_left(column_named(left, name))
            } else if is_name_of(table, "R") {
                in_right(column_named(right, name))
            } else {
                Err(BindRefused::UnknownColumn)
            }
        }
    }
}

fn copy_of(alloc: Global, literal: &Literal) -> Result<Literal, BindRefused>
    ensures ok { IfOk result (λ copy. copy ≡ literal.now) }
    ensures err { IfErr result (λ e. e ≡ BindRefused.Memory) }
{
    match literal {
        Literal::Integer(n) => Ok(Literal::Integer(*n)),
        Literal::Decimal(decimal) => Ok(Literal::Decimal(*decimal)),
        Literal::Text(text) => match Word::new(alloc, text.as_str()) {
            Ok(copy) => Ok(Literal::Text(copy)),
            Err(_) => Err(BindRefused::Memory),
        },
    }
}

// The operand with its name resolved.
pub(crate) fn resolve_operand(
    alloc: Global,
    operand: &Operand,
    left: &Table,
    right: &Table,
) -> Result<BoundOperand, BindRefused>
    ensures ok { IfOk result (λ x. resolved_operand left.now.names right.now.names operand.now ≡ Ok x) }
    ensures err { IfErr result (λ e. e ≢ BindRefused.Memory → resolved_operand left.now.names right.now.names operand.now ≡ Err e) }
{
    match operand {
        Operand::Column(column) => {
            resolve_column(column.qualifier.as_ref(), &column.name, left, right)
        }
        Operand::Literal(literal) => {
            let literal = copy_of(alloc, literal)?;
            Ok(BoundOperand::Literal(literal))
        }
    }
}
