//! The first column of a clause that is compared as only one of a declared type can be, though its
//! type isn't declared.

ghost use Rattle.std.specs.Prelude.{◌≡◌, IfOk};
ghost use Rattle.rj_condition.specs.Names.{place};
ghost use Rattle.rj_condition.specs.Resolved.{resolved};
ghost use Rattle.rj_condition.specs.Undeclared as specs;
ghost use Rattle.rj_condition.specs.Undeclared.{first_some, marked, needing_among, needing_called, needing_named, needing_of, undeclared_in};

use crate::bound::{BoundCondition, BoundOperand};
use crate::names::{column_called, column_named};
use crate::refused::BindRefused;
use crate::resolving::resolve;
use crate::tree::{Clause, Comparison, Condition, Name};
use crate::typing::{TypeFamily, family_of_operand};
use rj_columns::Table;
use std::alloc::{AllocError, Global};

/// A table, and which of its columns have a type that isn't declared. They are of texts.
#[derive(Clone, Copy)]
pub struct Columns<'t> {
    /// The table. Only its names and types are looked at.
    pub table: &'t Table,
    /// For each column, in order, whether its type isn't declared.
    pub undeclared: &'t [bool],
}

/// A column of the left or of the right table, counted from 0.
#[derive(Clone, Copy, Debug, PartialEq, Eq)]
pub enum TableColumn {
    Left(usize),
    Right(usize),
}

// Whether the type of a column isn't declared.
fn is_marked(columns: &Columns<'_>, column: usize) -> bool
    ensures { result ≡ specs.is_marked (marked columns.now) column }
{
    match columns.undeclared.get(column) {
        Some(mark) => *mark,
        None => false,
    }
}

// The column of an undeclared type that an operand is.
fn undeclared_column(
    operand: &BoundOperand,
    left: &Columns<'_>,
    right: &Columns<'_>,
) -> Option<TableColumn>
    ensures { result ≡ specs.undeclared_column (marked left.now) (marked right.now) operand.now }
{
    match operand {
        BoundOperand::Left(column) => {
            if is_marked(left, *column) {
                Some(TableColumn::Left(*column))
            } else {
                None
            }
        }
        BoundOperand::Right(column) => {
            if is_marked(right, *column) {
                Some(TableColumn::Right(*column))
            } else {
                None
            }
        }
        BoundOperand::Literal(_) => None,
    }
}

fn is_order(operator: Comparison) -> bool
    ensures { result ≡ specs.is_order operator }
{
    match operator {
        Comparison::Equal | Comparison::NotEqual => false,
        Comparison::Less
        | Comparison::Greater
        | Comparison::LessOrEqual
        | Comparison::GreaterOrEqual => true,
    }
}

fn is_number(family: Option<TypeFamily>) -> bool
    ensures { result ≡ specs.is_number family }
{
    match family {
        Some(TypeFamily::Number) => true,
        Some(TypeFamily::Text) | None => false,
    }
}

// Whether what is compared so with this operand has to be of a declared type.
fn needs_type(
    operator: Comparison,
    other: &BoundOperand,
    left: &Columns<'_>,
    right: &Columns<'_>,
) -> bool
    ensures { result ≡ specs.needs_type (marked left.now) (marked right.now) operator other.now }
{
    is_order(operator) || is_number(family_of_operand(other, left.table, right.table))
}

// The first operand of a comparison, if it needs a declared type and has none.
fn needing(
    operator: Comparison,
    x: &BoundOperand,
    y: &BoundOperand,
    left: &Columns<'_>,
    right: &Columns<'_>,
) -> Option<TableColumn>
    ensures { result ≡ specs.needing (marked left.now) (marked right.now) operator x.now y.now }
{
    if needs_type(operator, y, left, right) {
        undeclared_column(x, left, right)
    } else {
        None
    }
}

// The first of both operands that needs a declared type and has none.
fn needing_of(
    operator: Comparison,
    x: &BoundOperand,
    y: &BoundOperand,
    left: &Columns<'_>,
    right: &Columns<'_>,
) -> Option<TableColumn>
    ensures { result ≡ needing_of (marked left.now) (marked right.now) operator x.now y.now }
{
    match needing(operator, x, y, left, right) {
        Some(found) => Some(found),
        None => needing(operator, y, x, left, right),
    }
}

// The first one of a BETWEEN.
fn needing_between(
    operand: &BoundOperand,
    low: &BoundOperand,
    high: &BoundOperand,
    left: &Columns<'_>,
    right: &Columns<'_>,
) -> Option<TableColumn>
    ensures { result ≡ specs.needing_between (marked left.now) (marked right.now) operand.now low.now high.now }
{
    match needing_of(Comparison::GreaterOrEqual, operand, low, left, right) {
        Some(found) => Some(found),
        None => needing_of(Comparison::LessOrEqual, operand, high, left, right),
    }
}

// The first one of an IN.
fn needing_of_members(
    operand: &BoundOperand,
    members: &[BoundOperand],
    left: &Columns<'_>,
    right: &Columns<'_>,
) -> Option<TableColumn>
    ensures { result ≡ first_some (needing_of (marked left.now) (marked right.now) Comparison.Equal operand.now) members.now }
{
    for member in members {
        if let Some(found) = needing_of(Comparison::Equal, operand, member, left, right) {
            return Some(found);
        }
    }
    None
}

// The first one of a condition.
#[cycle(needing)]
fn needing_in(
    condition: &BoundCondition,
    left: &Columns<'_>,
    right: &Columns<'_>,
) -> Option<TableColumn>
    ensures { result ≡ specs.needing_in (marked left.now) (marked right.now) condition.now }
{
    match condition {
        BoundCondition::Compare {
            left: a,
            operator,
            right: b,
        } => needing_of(*operator, a, b, left, right),
        BoundCondition::Between {
            operand,
            low,
            high,
            negated: _,
        } => needing_between(operand, low, high, left, right),
        BoundCondition::In {
            operand,
            members,
            negated: _,
        } => needing_of_members(operand, members.as_slice(), left, right),
        BoundCondition::IsNull {
            operand: _,
            negated: _,
        } => None,
        BoundCondition::Is {
            condition: inner,
            truth: _,
            negated: _,
        } => needing_in(inner.get(), left, right),
        BoundCondition::Not(inner) => needing_in(inner.get(), left, right),
        BoundCondition::All(conditions) => needing_among(conditions.as_slice(), left, right),
        BoundCondition::Any(conditions) => needing_among(conditions.as_slice(), left, right),
    }
}

#[cycle(needing)]
fn needing_among(
    conditions: &[BoundCondition],
    left: &Columns<'_>,
    right: &Columns<'_>,
) -> Option<TableColumn>
    ensures { result ≡ needing_among (marked left.now) (marked right.now) conditions.now }
{
    for condition in conditions {
        if let Some(found) = needing_in(condition, left, right) {
            return Some(found);
        }
    }
    None
}

// The first one of a condition whose names can all be taken.
fn needing_on(
    alloc: Global,
    condition: &Condition,
    left: &Columns<'_>,
    right: &Columns<'_>,
) -> Result<Option<TableColumn>, AllocError>
    ensures { IfOk result (λ o. o ≡ specs.needing_on (marked left.now) (marked right.now) (resolved left.now.table.now.names right.now.table.now.names condition.now)) }
{
    match resolve(alloc, condition, left.table, right.table) {
        Ok(bound) => Ok(needing_in(&bound, left, right)),
        Err(BindRefused::Memory) => Err(AllocError),
        Err(_) => Ok(None),
    }
}

// The first one of two columns that have to be equal.
fn needing_pair(
    i: Option<usize>,
    j: Option<usize>,
    left: &Columns<'_>,
    right: &Columns<'_>,
) -> Option<TableColumn>
    ensures { result ≡ specs.needing_pair (marked left.now) (marked right.now) i j }
{
    match i {
        None => None,
        Some(i) => match j {
            None => None,
            Some(j) => {
                let (x, y) = (BoundOperand::Left(i), BoundOperand::Right(j));
                needing_of(Comparison::Equal, &x, &y, left, right)
            }
        },
    }
}

// The first one of the columns of a name of USING.
fn needing_named(name: &Name, left: &Columns<'_>, right: &Columns<'_>) -> Option<TableColumn>
    ensures { result ≡ needing_named (marked left.now) (marked right.now) name.now }
{
    let (i, j) = (
        column_named(left.table, name),
        column_named(right.table, name),
    );
    needing_pair(i, j, left, right)
}

// The first one of the names of USING.
fn needing_among_names(
    names: &[Name],
    left: &Columns<'_>,
    right: &Columns<'_>,
) -> Option<TableColumn>
    ensures { result ≡ first_some (needing_named (marked left.now) (marked right.now)) names.now }
{
    for name in names {
        if let Some(found) = needing_named(name, left, right) {
            return Some(found);
        }
    }
    None
}

// The first one of the columns of NATURAL with this name.
fn needing_called(called: &str, left: &Columns<'_>, right: &Columns<'_>) -> Option<TableColumn>
    ensures { result ≡ needing_called (marked left.now) (marked right.now) called.now }
{
    let (i, j) = (
        column_called(left.table, called),
        column_called(right.table, called),
    );
    needing_pair(i, j, left, right)
}

// The first one of the columns of NATURAL.
fn needing_in_common(left: &Columns<'_>, right: &Columns<'_>) -> Option<TableColumn>
    ensures { result ≡ first_some (needing_called (marked left.now) (marked right.now)) left.now.table.now.names }
{
    for i in 0..left.table.columns() {
        if let Some(found) = needing_called(left.table.name(i), left, right) {
            return Some(found);
        }
    }
    None
}

/// The first column in a clause, over two tables, that needs a declared type and has none. A column
/// needs one if it is compared by an order (`<`, `>`, `<=`, `>=`, BETWEEN), or with a number: a
/// literal, or a column of numbers. None does if a name of an ON condition can't be taken.
///
/// # Errors
///
/// It fails only when memory runs out.
pub fn first_undeclared(
    alloc: Global,
    clause: &Clause,
    left: &Columns<'_>,
    right: &Columns<'_>,
) -> Result<Option<TableColumn>, AllocError>
    ensures { IfOk result (λ o. o ≡ undeclared_in (marked left.now) (marked right.now) clause.now) }
{
    match clause {
        Clause::Cross => Ok(None),
        Clause::Natural(_) => Ok(needing_in_common(left, right)),
        Clause::Using(_, names) => Ok(needing_among_names(names.as_slice(), left, right)),
        Clause::On(_, condition) => needing_on(alloc, condition, left, right),
    }
}
