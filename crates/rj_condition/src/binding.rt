//! Clauses bound to two tables.

ghost use Rattle.std.specs.Prelude.{◌≡◌, ◌≢◌, IfOk, IfErr, Ok, Err, true, List, if◌then◌else◌};
ghost use Rattle.rj_columns.specs.declared.cell.ColumnType.{ColumnType};
ghost use Rattle.rj_condition.specs.Fits.{condition_fits, rule_fits, fits};
ghost use Rattle.rj_condition.specs.Resolved.{bound_on};
ghost use Rattle.rj_condition.specs.Partners.{no_partners};
ghost use Rattle.rj_condition.specs.Bound.{bound};

use crate::bound::{BoundCondition, BoundJoin, Rule};
use crate::partners::{common_partners, partners_named, without_partners};
use crate::refused::BindRefused;
use crate::resolving::resolve;
use crate::tree::{Clause, Condition, JoinKind};
use crate::typing::is_typed;
use rj_columns::Table;
use sqlite_items::Items;
use std::alloc::Global;

// What is bound, if its types fit.
fn where_typed<T: Drop>(bound: T, typed: bool) -> Result<T, BindRefused>
    ensures { result ≡ (if typed then Ok bound else Err BindRefused.TypeMismatch) }
{
    if typed {
        Ok(bound)
    } else {
        Err(BindRefused::TypeMismatch)
    }
}

// The condition bound to the two tables. All names come first, in the order of the text, then the
// types.
fn bind_condition(
    alloc: Global,
    condition: &Condition,
    left: &Table,
    right: &Table,
) -> Result<BoundCondition, BindRefused>
    ensures ok { IfOk result (λ b. bound_on left.now right.now condition.now ≡ Ok b) }
    ensures err { IfErr result (λ e. e ≢ BindRefused.Memory → bound_on left.now right.now condition.now ≡ Err e) }
    ensures fits { IfOk result (λ b. condition_fits left.now.types right.now.types b ≡ true) }
{
    let bound = resolve(alloc, condition, left, right)?;
    let typed = is_typed(&bound, left, right);
    where_typed(bound, typed)
}

// A join without join columns.
fn join_by_rule(
    alloc: Global,
    kind: JoinKind,
    rule: Rule,
    left: &Table,
) -> Result<BoundJoin, BindRefused>
    ensures ok { IfOk result (λ join. join ≡ record { kind = kind; partners = no_partners left.now; rule = rule }) }
    ensures err { IfErr result (λ e. e ≡ BindRefused.Memory) }
    ensures fits { (right : List ColumnType) → rule_fits left.now.types right rule ≡ true → IfOk result (λ join. fits join left.now.types right ≡ true) }
{
    match without_partners(alloc, left.columns()) {
        Ok(partners) => Ok(BoundJoin {
            kind,
            partners: Items::from_vec(partners),
            rule,
        }),
        Err(_) => Err(BindRefused::Memory),
    }
}

/// Binds the clause to two tables (SQL-92, 7.5).
///
/// # Errors
///
/// The first error. For ON all column references are resolved in the order of the text, and then
/// the types of all comparisons are tested. USING is tested name by name, for missing columns,
/// repeats and types. `Memory` may come in place of any other error.
#[tactic(auto, unfolding(crate::specs::Bound::bound))]
pub fn bind(
    alloc: Global,
    clause: &Clause,
    left: &Table,
    right: &Table,
) -> Result<BoundJoin, BindRefused>
    ensures ok { IfOk result (λ join. bound clause.now left.now right.now ≡ Ok join) }
    ensures fault { IfErr result (λ e. e ≢ BindRefused.Memory → bound clause.now left.now right.now ≡ Err e) }

    // the tables are those to which the join was bound
    ensures fits { IfOk result (λ join. fits join left.now.types right.now.types ≡ true) }
{
    match clause {
        Clause::Cross => join_by_rule(alloc, JoinKind::Inner, Rule::AllPairs, left),
        Clause::Natural(kind) => {
            let partners = common_partners(alloc, left, right)?;
            Ok(BoundJoin {
                kind: *kind,
                partners: Items::from_vec(partners),
                rule: Rule::EqualPartners,
            })
        }
        Clause::Using(kind, names) => {
            let partners = partners_named(alloc, names.as_slice(), left, right)?;
            Ok(BoundJoin {
                kind: *kind,
                partners: Items::from_vec(partners),
                rule: Rule::EqualPartners,
            })
        }
        Clause::On(kind, condition) => {
            let bound = bind_condition(alloc, condition, left, right)?;
            join_by_rule(alloc, *kind, Rule::Condition(bound), left)
        }
    }
}
