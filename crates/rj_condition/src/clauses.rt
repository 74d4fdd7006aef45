//! Join clauses (SQL-92, 7.5).

ghost use Rattle.std.specs.Prelude.{◌≡◌, [], ◌∷◌};
ghost use Rattle.rj_condition.specs.Internal.Reading.{Gives, GivesWhole};
ghost use Rattle.rj_condition.specs.Internal.Reading as reading;

use crate::conditions::condition;
use crate::steps::{after, behind, names, optional, whole};
use crate::stop::Stop;
use crate::token::{Keyword, Sign, Token};
use crate::tree::{Clause, JoinKind};
use std::alloc::Global;

// The type of a join: no type means INNER.
#[tactic(auto, unfolding(crate::specs::Internal::Reading::kind_at))]
fn kind(tokens: &[Token]) -> (JoinKind, &[Token])
    ensures { (result.0, result.1.now) ≡ reading.kind_at tokens.now }
{
    if let Some(rest) = after(tokens, Keyword::Inner) {
        return (JoinKind::Inner, rest);
    }
    if let Some(rest) = after(tokens, Keyword::Left) {
        return (JoinKind::Left, optional(rest, Keyword::Outer).1);
    }
    if let Some(rest) = after(tokens, Keyword::Right) {
        return (JoinKind::Right, optional(rest, Keyword::Outer).1);
    }
    match after(tokens, Keyword::Full) {
        Some(rest) => (JoinKind::Full, optional(rest, Keyword::Outer).1),
        None => (JoinKind::Inner, tokens),
    }
}

#[tactic(auto, unfolding(crate::specs::Internal::Reading::join_at))]
fn join(tokens: &[Token]) -> Result<(JoinKind, &[Token]), Stop>
    ensures { Gives result (reading.join_at tokens.now) }
{
    let (kind, rest) = kind(tokens);
    match after(rest, Keyword::Join) {
        Some(rest) => Ok((kind, rest)),
        None => Err(Stop::Syntax(rest.len())),
    }
}

// After CROSS.
#[tactic(auto, unfolding(crate::specs::Internal::Reading::cross_at))]
fn cross(tokens: &[Token]) -> Result<Clause, Stop>
    ensures { GivesWhole result (reading.cross_at tokens.now) }
{
    match after(tokens, Keyword::Join) {
        Some(rest) => whole(Clause::Cross, rest),
        None => Err(Stop::Syntax(tokens.len())),
    }
}

// After NATURAL.
#[tactic(auto, unfolding(crate::specs::Internal::Reading::natural_at))]
fn natural(tokens: &[Token]) -> Result<Clause, Stop>
    ensures { GivesWhole result (reading.natural_at tokens.now) }
{
    match join(tokens) {
        Ok((kind, rest)) => whole(Clause::Natural(kind), rest),
        Err(stop) => Err(stop),
    }
}

// After ON.
#[tactic(auto, unfolding(crate::specs::Internal::Reading::on_at))]
fn on(alloc: Global, kind: JoinKind, tokens: &[Token]) -> Result<Clause, Stop>
    ensures { GivesWhole result (reading.on_at kind tokens.now) }
{
    match condition(alloc, tokens.len(), tokens) {
        Ok((condition, rest)) => whole(Clause::On(kind, condition), rest),
        Err(stop) => Err(stop),
    }
}

// USING and its names.
#[tactic(auto, unfolding(crate::specs::Internal::Reading::using_at))]
fn using(alloc: Global, kind: JoinKind, tokens: &[Token]) -> Result<Clause, Stop>
    ensures { GivesWhole result (reading.using_at kind tokens.now) }
{
    let Some(rest) = after(tokens, Keyword::Using) else {
        return Err(Stop::Syntax(tokens.len()));
    };
    let Some(rest) = behind(rest, Sign::Open) else {
        return Err(Stop::Syntax(rest.len()));
    };
    let (names, rest) = names(alloc, rest)?;
    let Some(rest) = behind(rest, Sign::Close) else {
        return Err(Stop::Syntax(rest.len()));
    };
    whole(Clause::Using(kind, names), rest)
}

// A join with ON or USING.
#[tactic(auto, unfolding(crate::specs::Internal::Reading::qualified_at))]
fn qualified(alloc: Global, tokens: &[Token]) -> Result<Clause, Stop>
    ensures { GivesWhole result (reading.qualified_at tokens.now) }
{
    let (kind, rest) = join(tokens)?;
    match after(rest, Keyword::On) {
        Some(rest) => on(alloc, kind, rest),
        None => using(alloc, kind, rest),
    }
}

/// The clause that the tokens are.
///
/// # Errors
///
/// `Syntax` if they are no clause, `Memory` if memory ran out.
#[tactic(auto, unfolding(crate::specs::Internal::Reading::clause_at))]
pub fn clause(alloc: Global, tokens: &[Token]) -> Result<Clause, Stop>
    ensures { GivesWhole result (reading.clause_at tokens.now) }
{
    if let Some(rest) = after(tokens, Keyword::Cross) {
        return cross(rest);
    }
    match after(tokens, Keyword::Natural) {
        Some(rest) => natural(rest),
        None => qualified(alloc, tokens),
    }
}
