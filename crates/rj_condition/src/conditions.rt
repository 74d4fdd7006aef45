//! Conditions by recursive descent (SQL-92, 8.12). The limit bounds the loop turns and the nesting;
//! the number of tokens is enough.

ghost use Rattle.std.specs.Prelude.{◌≡◌, [], ◌∷◌};
ghost use Rattle.rj_condition.specs.Internal.Reading.{Gives, factor_at, factors_at, term_at, terms_at, cond_at, group_at, test_at, primary_at, any_of, all_of};
ghost use Rattle.rj_condition.specs.Internal.Reading as reading;

use crate::predicates::predicate;
use crate::steps::{after, behind, closed, optional};
use crate::stop::Stop;
use crate::token::{Keyword, Sign, Token};
use crate::tree::Condition;
use crate::truth::Truth;
use sqlite_items::{Boxed, Items};
use std::alloc::Global;

// Conditions joined by OR. A single one is itself.
fn any(mut conditions: Items<Condition>) -> Condition
    ensures { result ≡ any_of conditions }
{
    if conditions.len() == 1 {
        conditions.remove(0)
    } else {
        Condition::Any(conditions)
    }
}

// Conditions joined by AND. A single one is itself.
fn all(mut conditions: Items<Condition>) -> Condition
    ensures { result ≡ all_of conditions }
{
    if conditions.len() == 1 {
        conditions.remove(0)
    } else {
        Condition::All(conditions)
    }
}

fn truth_of(keyword: Keyword) -> Option<Truth>
    ensures { result ≡ reading.truth_of keyword }
{
    match keyword {
        Keyword::False => Some(Truth::False),
        Keyword::Unknown => Some(Truth::Unknown),
        Keyword::True => Some(Truth::True),
        _ => None,
    }
}

// The truth value after IS and perhaps NOT.
#[tactic(auto, unfolding(crate::specs::Internal::Reading::truth_at))]
fn truth(tokens: &[Token]) -> Result<(Truth, &[Token]), Stop>
    ensures { Gives result (reading.truth_at tokens.now) }
{
    match tokens {
        [Token::Keyword(keyword), rest @ ..] => match truth_of(*keyword) {
            Some(truth) => Ok((truth, rest)),
            None => Err(Stop::Syntax(tokens.len())),
        },
        _ => Err(Stop::Syntax(tokens.len())),
    }
}

#[tactic(auto, unfolding(crate::specs::Internal::Reading::truth_test_at))]
fn truth_test(
    alloc: Global,
    condition: Condition,
    negated: bool,
    tokens: &[Token],
) -> Result<(Condition, &[Token]), Stop>
    ensures { Gives result (reading.truth_test_at condition (negated, tokens.now)) }
{
    let condition = Boxed::new(alloc, condition)?;
    match truth(tokens) {
        Ok((truth, rest)) => Ok((
            Condition::Is {
                condition,
                truth,
                negated,
            },
            rest,
        )),
        Err(stop) => Err(stop),
    }
}

// `[IS [NOT] truth]`, after a primary.
#[tactic(auto, unfolding(crate::specs::Internal::Reading::suffix))]
fn suffix(
    alloc: Global,
    condition: Condition,
    tokens: &[Token],
) -> Result<(Condition, &[Token]), Stop>
    ensures { Gives result (reading.suffix condition tokens.now) }
{
    match after(tokens, Keyword::Is) {
        Some(rest) => {
            let (negated, rest) = optional(rest, Keyword::Not);
            truth_test(alloc, condition, negated, rest)
        }
        None => Ok((condition, tokens)),
    }
}

#[cycle(reading)]
#[tactic(auto, using(crate::proofs::Turns::factor_none, crate::proofs::Turns::factor_not, crate::proofs::Turns::factor_test))]
fn factor(alloc: Global, limit: usize, tokens: &[Token]) -> Result<(Condition, &[Token]), Stop>
    ensures { Gives result (factor_at limit tokens.now) }
{
    if limit == 0 {
        return Err(Stop::Syntax(tokens.len()));
    }
    match after(tokens, Keyword::Not) {
        Some(rest) => {
            let (inner, rest) = factor(alloc, limit - 1, rest)?;
            Ok((Condition::Not(Boxed::new(alloc, inner)?), rest))
        }
        None => test(alloc, limit - 1, tokens),
    }
}

#[cycle(reading)]
#[tactic(auto, unfolding(crate::specs::Internal::Reading::test_with))]
fn test(alloc: Global, limit: usize, tokens: &[Token]) -> Result<(Condition, &[Token]), Stop>
    ensures { Gives result (test_at limit tokens.now) }
{
    match primary(alloc, limit, tokens) {
        Ok((inner, rest)) => suffix(alloc, inner, rest),
        Err(stop) => Err(stop),
    }
}

#[cycle(reading)]
#[tactic(auto, unfolding(crate::specs::Internal::Reading::primary_with))]
fn primary(alloc: Global, limit: usize, tokens: &[Token]) -> Result<(Condition, &[Token]), Stop>
    ensures { Gives result (primary_at limit tokens.now) }
{
    match behind(tokens, Sign::Open) {
        Some(rest) => group(alloc, limit, rest),
        None => predicate(alloc, tokens),
    }
}

// A condition after an open parenthesis, and what closes it.
#[cycle(reading)]
#[tactic(auto, unfolding(crate::specs::Internal::Reading::group_with))]
fn group(alloc: Global, limit: usize, tokens: &[Token]) -> Result<(Condition, &[Token]), Stop>
    ensures { Gives result (group_at limit tokens.now) }
{
    match condition(alloc, limit, tokens) {
        Ok((inner, rest)) => closed(inner, rest),
        Err(stop) => Err(stop),
    }
}

#[cycle(reading)]
#[tactic(auto, using(crate::proofs::Turns::turns), unfolding(crate::specs::Internal::Reading::separated))]
fn factors(
    alloc: Global,
    limit: usize,
    tokens: &[Token],
) -> Result<(Items<Condition>, &[Token]), Stop>
    ensures { Gives result (factors_at limit tokens.now) }
{
    let mut found = Items::new(alloc);
    let mut rest = tokens;
    for turn in 0..limit {
        let (one, behind_one) = factor(alloc, limit, rest)?;
        found.push(one)?;
        match after(behind_one, Keyword::And) {
            Some(more) => rest = more,
            None => return Ok((found, behind_one)),
        }
    }
    Err(Stop::Syntax(rest.len()))
}

#[cycle(reading)]
#[tactic(auto, unfolding(crate::specs::Internal::Reading::term_with))]
fn term(alloc: Global, limit: usize, tokens: &[Token]) -> Result<(Condition, &[Token]), Stop>
    ensures { Gives result (term_at limit tokens.now) }
{
    match factors(alloc, limit, tokens) {
        Ok((conditions, rest)) => Ok((all(conditions), rest)),
        Err(stop) => Err(stop),
    }
}

#[cycle(reading)]
#[tactic(auto, using(crate::proofs::Turns::turns), unfolding(crate::specs::Internal::Reading::separated))]
fn terms(
    alloc: Global,
    limit: usize,
    tokens: &[Token],
) -> Result<(Items<Condition>, &[Token]), Stop>
    ensures { Gives result (terms_at limit tokens.now) }
{
    let mut found = Items::new(alloc);
    let mut rest = tokens;
    for turn in 0..limit {
        let (one, behind_one) = term(alloc, limit, rest)?;
        found.push(one)?;
        match after(behind_one, Keyword::Or) {
            Some(more) => rest = more,
            None => return Ok((found, behind_one)),
        }
    }
    Err(Stop::Syntax(rest.len()))
}

/// The condition that comes next, and the tokens after it.
///
/// # Errors
///
/// `Syntax` if no condition within `limit` comes next, `Memory` if memory ran out.
#[cycle(reading)]
#[tactic(auto, unfolding(crate::specs::Internal::Reading::cond_with))]
pub fn condition(
    alloc: Global,
    limit: usize,
    tokens: &[Token],
) -> Result<(Condition, &[Token]), Stop>
    ensures { Gives result (cond_at limit tokens.now) }
{
    match terms(alloc, limit, tokens) {
        Ok((conditions, rest)) => Ok((any(conditions), rest)),
        Err(stop) => Err(stop),
    }
}
