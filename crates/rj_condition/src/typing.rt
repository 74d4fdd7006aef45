//! Whether what a condition compares is of one family.

ghost use Rattle.std.specs.Prelude.{◌≡◌, slice_get};
ghost use Rattle.std.specs.List.{list_all};
ghost use Rattle.rj_condition.specs.Fits.{family_in, literal_family, family_of, are_one_family, has_family, condition_fits, all_fit};
ghost use Rattle.rj_condition.specs.Fits as specs;

use crate::bound::{BoundCondition, BoundOperand};
use crate::tree::Literal;
use rj_columns::{ColumnType, Table};

/// How a value is compared (SQL-92, 8.2): numbers of all types with one another, and texts with
/// texts.
#[derive(Clone, Copy)]
pub(crate) enum TypeFamily {
    Number,
    Text,
}

fn family_of_type(kind: ColumnType) -> TypeFamily
    ensures { result ≡ specs.family_of_type kind }
{
    match kind {
        ColumnType::Int | ColumnType::Num(_) => TypeFamily::Number,
        ColumnType::Text => TypeFamily::Text,
    }
}

// The family of a column, if there is such a column.
pub(crate) fn column_family(table: &Table, column: usize) -> Option<TypeFamily>
    ensures { result ≡ family_in (slice_get table.now.types column) }
{
    if column < table.columns() {
        Some(family_of_type(table.column_type(column)))
    } else {
        None
    }
}

fn family_of_literal(literal: &Literal) -> TypeFamily
    ensures { result ≡ literal_family literal.now }
{
    match literal {
        Literal::Integer(_) | Literal::Decimal(_) => TypeFamily::Number,
        Literal::Text(_) => TypeFamily::Text,
    }
}

// The family of an operand over the two tables.
pub(crate) fn family_of_operand(
    operand: &BoundOperand,
    left: &Table,
    right: &Table,
) -> Option<TypeFamily>
    ensures { result ≡ family_of left.now.types right.now.types operand.now }
{
    match operand {
        BoundOperand::Left(column) => column_family(left, *column),
        BoundOperand::Right(column) => column_family(right, *column),
        BoundOperand::Literal(literal) => Some(family_of_literal(literal)),
    }
}

// Whether both are there and may be compared.
pub(crate) fn agree(a: Option<TypeFamily>, b: Option<TypeFamily>) -> bool
    ensures { result ≡ are_one_family a b }
{
    match (a, b) {
        (Some(TypeFamily::Number), Some(TypeFamily::Number)) => true,
        (Some(TypeFamily::Text), Some(TypeFamily::Text)) => true,
        _ => false,
    }
}

fn is_known(a: Option<TypeFamily>) -> bool
    ensures { result ≡ has_family a }
{
    match a {
        Some(_) => true,
        None => false,
    }
}

// Whether each member may be compared with a value of this family.
fn members_agree(
    operand: Option<TypeFamily>,
    members: &[BoundOperand],
    left: &Table,
    right: &Table,
) -> bool
    ensures { result ≡ list_all (λ m. are_one_family operand (family_of left.now.types right.now.types m)) members.now }
{
    for member in members {
        if !agree(operand, family_of_operand(member, left, right)) {
            return false;
        }
    }
    true
}

// Whether each column of the condition is there, and each comparison is of one family.
#[cycle(typing)]
pub(crate) fn is_typed(condition: &BoundCondition, left: &Table, right: &Table) -> bool
    ensures { result ≡ condition_fits left.now.types right.now.types condition.now }
{
    match condition {
        BoundCondition::Compare {
            left: a,
            operator: _,
            right: b,
        } => agree(
            family_of_operand(a, left, right),
            family_of_operand(b, left, right),
        ),
        BoundCondition::Between {
            operand,
            low,
            high,
            negated: _,
        } => {
            let family = family_of_operand(operand, left, right);
            agree(family, family_of_operand(low, left, right))
                && agree(family, family_of_operand(high, left, right))
        }
        BoundCondition::In {
            operand,
            members,
            negated: _,
        } => {
            let family = family_of_operand(operand, left, right);
            is_known(family) && members_agree(family, members.as_slice(), left, right)
        }
        BoundCondition::IsNull {
            operand,
            negated: _,
        } => is_known(family_of_operand(operand, left, right)),
        BoundCondition::Is {
            condition: inner,
            truth: _,
            negated: _,
        } => is_typed(inner.get(), left, right),
        BoundCondition::Not(inner) => is_typed(inner.get(), left, right),
        BoundCondition::All(conditions) => are_typed(conditions.as_slice(), left, right),
        BoundCondition::Any(conditions) => are_typed(conditions.as_slice(), left, right),
    }
}

#[cycle(typing)]
fn are_typed(conditions: &[BoundCondition], left: &Table, right: &Table) -> bool
    ensures { result ≡ all_fit left.now.types right.now.types conditions.now }
{
    for condition in conditions {
        if !is_typed(condition, left, right) {
            return false;
        }
    }
    true
}
