//! Conditions with their names resolved.

ghost use Rattle.std.specs.Prelude.{◌≡◌, ◌≢◌, IfOk, IfErr, Ok, Err, map};
ghost use Rattle.rj_condition.specs.Names.{resolved_operand};
ghost use Rattle.rj_condition.specs.Resolved.{resolved, resolved_at, all_ok};
ghost use Rattle.rj_condition.specs.declared.bound.BoundCondition.{Is, Not};
ghost use Rattle.rj_condition.specs.declared.tree.Condition.TheOpen.{Condition-F};

use crate::bound::{BoundCondition, BoundOperand};
use crate::names::resolve_operand;
use crate::refused::BindRefused;
use crate::tree::{Comparison, Condition, Operand};
use crate::truth::Truth;
use rj_columns::Table;
use sqlite_items::{Boxed, Items};
use std::alloc::Global;

fn boxed(alloc: Global, inner: BoundCondition) -> Result<Boxed<BoundCondition>, BindRefused>
    ensures ok { IfOk result (λ b. b ≡ inner) }
    ensures err { IfErr result (λ e. e ≡ BindRefused.Memory) }
{
    match Boxed::new(alloc, inner) {
        Ok(inner) => Ok(inner),
        Err(_) => Err(BindRefused::Memory),
    }
}

// Each operand with its name resolved, in order.
fn resolve_operands(
    alloc: Global,
    operands: &[Operand],
    left: &Table,
    right: &Table,
) -> Result<Items<BoundOperand>, BindRefused>
    ensures ok { IfOk result (λ xs. all_ok (map (resolved_operand left.now.names right.now.names) operands.now) ≡ Ok xs) }
    ensures err { IfErr result (λ e. e ≢ BindRefused.Memory → all_ok (map (resolved_operand left.now.names right.now.names) operands.now) ≡ Err e) }
{
    let mut done = Items::new(alloc);
    for operand in operands {
        let bound = resolve_operand(alloc, operand, left, right)?;
        match done.push(bound) {
            Ok(()) => {}
            Err(_) => return Err(BindRefused::Memory),
        }
    }
    Ok(done)
}

// A comparison with its names resolved.
fn resolve_comparison(
    alloc: Global,
    a: &Operand,
    operator: Comparison,
    b: &Operand,
    left: &Table,
    right: &Table,
) -> Result<BoundCondition, BindRefused>
    ensures ok { IfOk result (λ c. resolved_at left.now.names right.now.names (Condition-F.Compare a.now operator b.now) ≡ Ok c) }
    ensures err { IfErr result (λ e. e ≢ BindRefused.Memory → resolved_at left.now.names right.now.names (Condition-F.Compare a.now operator b.now) ≡ Err e) }
{
    let x = resolve_operand(alloc, a, left, right)?;
    let y = resolve_operand(alloc, b, left, right)?;
    Ok(BoundCondition::Compare {
        left: x,
        operator,
        right: y,
    })
}

// A BETWEEN with its names resolved.
fn resolve_between(
    alloc: Global,
    operand: &Operand,
    low: &Operand,
    high: &Operand,
    negated: bool,
    left: &Table,
    right: &Table,
) -> Result<BoundCondition, BindRefused>
    ensures ok { IfOk result (λ c. resolved_at left.now.names right.now.names (Condition-F.Between operand.now low.now high.now negated) ≡ Ok c) }
    ensures err { IfErr result
        (λ e. e ≢ BindRefused.Memory → resolved_at left.now.names right.now.names (Condition-F.Between operand.now low.now high.now negated) ≡ Err e) }
{
    let operand = resolve_operand(alloc, operand, left, right)?;
    let low = resolve_operand(alloc, low, left, right)?;
    let high = resolve_operand(alloc, high, left, right)?;
    Ok(BoundCondition::Between {
        operand,
        low,
        high,
        negated,
    })
}

// An IN with its names resolved.
fn resolve_in(
    alloc: Global,
    operand: &Operand,
    members: &[Operand],
    negated: bool,
    left: &Table,
    right: &Table,
) -> Result<BoundCondition, BindRefused>
    ensures ok { IfOk result (λ c. resolved_at left.now.names right.now.names (Condition-F.In operand.now members.now negated) ≡ Ok c) }
    ensures err { IfErr result
        (λ e. e ≢ BindRefused.Memory → resolved_at left.now.names right.now.names (Condition-F.In operand.now members.now negated) ≡ Err e) }
{
    let operand = resolve_operand(alloc, operand, left, right)?;
    let members = resolve_operands(alloc, members, left, right)?;
    Ok(BoundCondition::In {
        operand,
        members,
        negated,
    })
}

// An IS NULL with its name resolved.
fn resolve_null_test(
    alloc: Global,
    operand: &Operand,
    negated: bool,
    left: &Table,
    right: &Table,
) -> Result<BoundCondition, BindRefused>
    ensures ok { IfOk result (λ c. resolved_at left.now.names right.now.names (Condition-F.IsNull operand.now negated) ≡ Ok c) }
    ensures err { IfErr result (λ e. e ≢ BindRefused.Memory → resolved_at left.now.names right.now.names (Condition-F.IsNull operand.now negated) ≡ Err e) }
{
    let operand = resolve_operand(alloc, operand, left, right)?;
    Ok(BoundCondition::IsNull { operand, negated })
}

// The test of a bound condition's truth.
fn truth_test(
    alloc: Global,
    bound: BoundCondition,
    truth: Truth,
    negated: bool,
) -> Result<BoundCondition, BindRefused>
    ensures ok { IfOk result (λ c. c ≡ Is bound truth negated) }
    ensures err { IfErr result (λ e. e ≡ BindRefused.Memory) }
{
    Ok(BoundCondition::Is {
        condition: boxed(alloc, bound)?,
        truth,
        negated,
    })
}

// The negation of a bound condition.
fn negation(alloc: Global, bound: BoundCondition) -> Result<BoundCondition, BindRefused>
    ensures ok { IfOk result (λ c. c ≡ Not bound) }
    ensures err { IfErr result (λ e. e ≡ BindRefused.Memory) }
{
    Ok(BoundCondition::Not(boxed(alloc, bound)?))
}

// The condition with its names resolved, or the first error in the order of the text.
#[cycle(resolving)]
pub(crate) fn resolve(
    alloc: Global,
    condition: &Condition,
    left: &Table,
    right: &Table,
) -> Result<BoundCondition, BindRefused>
    ensures ok { IfOk result (λ b. resolved left.now.names right.now.names condition.now ≡ Ok b) }
    ensures err { IfErr result (λ e. e ≢ BindRefused.Memory → resolved left.now.names right.now.names condition.now ≡ Err e) }
{
    match condition {
        Condition::Compare {
            left: a,
            operator,
            right: b,
        } => resolve_comparison(alloc, a, *operator, b, left, right),
        Condition::Between {
            operand,
            low,
            high,
            negated,
        } => resolve_between(alloc, operand, low, high, *negated, left, right),
        Condition::In {
            operand,
            members,
            negated,
        } => resolve_in(alloc, operand, members.as_slice(), *negated, left, right),
        Condition::IsNull { operand, negated } => {
            resolve_null_test(alloc, operand, *negated, left, right)
        }
        Condition::Is {
            condition: inner,
            truth,
            negated,
        } => {
            let bound = resolve(alloc, inner.get(), left, right)?;
            truth_test(alloc, bound, *truth, *negated)
        }
        Condition::Not(inner) => {
            let bound = resolve(alloc, inner.get(), left, right)?;
            negation(alloc, bound)
        }
        Condition::All(conditions) => {
            let all = resolve_each(alloc, conditions.as_slice(), left, right)?;
            Ok(BoundCondition::All(all))
        }
        Condition::Any(conditions) => {
            let all = resolve_each(alloc, conditions.as_slice(), left, right)?;
            Ok(BoundCondition::Any(all))
        }
    }
}

// Each condition with its names resolved, in order.
#[cycle(resolving)]
fn resolve_each(
    alloc: Global,
    conditions: &[Condition],
    left: &Table,
    right: &Table,
) -> Result<Items<BoundCondition>, BindRefused>
    ensures ok { IfOk result (λ bs. all_ok (map (resolved left.now.names right.now.names) conditions.now) ≡ Ok bs) }
    ensures err { IfErr result (λ e. e ≢ BindRefused.Memory → all_ok (map (resolved left.now.names right.now.names) conditions.now) ≡ Err e) }
{
    let mut done = Items::new(alloc);
    for condition in conditions {
        let bound = resolve(alloc, condition, left, right)?;
        match done.push(bound) {
            Ok(()) => {}
            Err(_) => return Err(BindRefused::Memory),
        }
    }
    Ok(done)
}
