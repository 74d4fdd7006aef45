//! Operands and predicates (SQL-92, 8.2, 8.3, 8.4, 8.6).

ghost use Rattle.std.specs.Prelude.{◌≡◌, [], ◌∷◌};
ghost use Rattle.rj_condition.specs.Internal.Reading.{Gives};
ghost use Rattle.rj_condition.specs.Internal.Reading as reading;

use crate::steps::{after, behind, name, optional};
use crate::stop::Stop;
use crate::token::{Keyword, Sign, Token};
use crate::tree::{ColumnName, Comparison, Condition, Literal, Operand};
use crate::word::Word;
use sqlite_items::Items;
use std::alloc::Global;

#[tactic(auto, unfolding(crate::specs::Internal::Reading::column_at))]
fn column(alloc: Global, tokens: &[Token]) -> Result<(Operand, &[Token]), Stop>
    ensures { Gives result (reading.column_at tokens.now) }
{
    let (first, rest) = name(alloc, tokens)?;
    match behind(rest, Sign::Point) {
        Some(rest) => {
            let (second, rest) = name(alloc, rest)?;
            Ok((
                Operand::Column(ColumnName {
                    qualifier: Some(first),
                    name: second,
                }),
                rest,
            ))
        }
        None => Ok((
            Operand::Column(ColumnName {
                qualifier: None,
                name: first,
            }),
            rest,
        )),
    }
}

#[tactic(auto, unfolding(crate::specs::Internal::Reading::operand_at))]
fn operand(alloc: Global, tokens: &[Token]) -> Result<(Operand, &[Token]), Stop>
    ensures { Gives result (reading.operand_at tokens.now) }
{
    match tokens {
        [Token::Integer(value), rest @ ..] => Ok((
            Operand::Literal(Literal::Integer(*value)),
            rest,
        )),
        [Token::Decimal(decimal), rest @ ..] => Ok((
            Operand::Literal(Literal::Decimal(*decimal)),
            rest,
        )),
        [Token::Text(text), rest @ ..] => Ok((
            Operand::Literal(Literal::Text(Word::new(alloc, text.as_str())?)),
            rest,
        )),
        _ => column(alloc, tokens),
    }
}

// Operands with commas between.
#[tactic(auto, using(crate::proofs::Turns::turns), unfolding(crate::specs::Internal::Reading::operands_at, crate::specs::Internal::Reading::separated))]
fn operands(alloc: Global, tokens: &[Token]) -> Result<(Items<Operand>, &[Token]), Stop>
    ensures { Gives result (reading.operands_at tokens.now) }
{
    let mut found = Items::new(alloc);
    let mut rest = tokens;
    for turn in 0..tokens.len() {
        let (one, behind_one) = operand(alloc, rest)?;
        found.push(one)?;
        match behind(behind_one, Sign::Comma) {
            Some(more) => rest = more,
            None => return Ok((found, behind_one)),
        }
    }
    Err(Stop::Syntax(rest.len()))
}

fn comparison(sign: Sign) -> Option<Comparison>
    ensures { result ≡ reading.comparison_of sign }
{
    match sign {
        Sign::Equal => Some(Comparison::Equal),
        Sign::NotEqual => Some(Comparison::NotEqual),
        Sign::Less => Some(Comparison::Less),
        Sign::Greater => Some(Comparison::Greater),
        Sign::LessOrEqual => Some(Comparison::LessOrEqual),
        Sign::GreaterOrEqual => Some(Comparison::GreaterOrEqual),
        Sign::Open | Sign::Close | Sign::Comma | Sign::Point => None,
    }
}

// The operator of a comparison, if it comes next.
#[tactic(auto, unfolding(crate::specs::Internal::Reading::operator_at))]
fn operator(tokens: &[Token]) -> Option<(Comparison, &[Token])>
    ensures { reading.view result ≡ reading.operator_at tokens.now }
{
    match tokens {
        [Token::Sign(sign), rest @ ..] => match comparison(*sign) {
            Some(operator) => Some((operator, rest)),
            None => None,
        },
        _ => None,
    }
}

// `[NOT] NULL`, after an operand and IS.
#[tactic(auto, unfolding(crate::specs::Internal::Reading::null_at))]
fn null(operand: Operand, negated: bool, tokens: &[Token]) -> Result<(Condition, &[Token]), Stop>
    ensures { Gives result (reading.null_at operand (negated, tokens.now)) }
{
    match after(tokens, Keyword::Null) {
        Some(rest) => Ok((Condition::IsNull { operand, negated }, rest)),
        None => Err(Stop::Syntax(tokens.len())),
    }
}

// The bounds after BETWEEN.
#[tactic(auto, unfolding(crate::specs::Internal::Reading::bounds_at))]
fn bounds(
    alloc: Global,
    operand_between: Operand,
    negated: bool,
    tokens: &[Token],
) -> Result<(Condition, &[Token]), Stop>
    ensures { Gives result (reading.bounds_at operand_between negated tokens.now) }
{
    let (low, rest) = operand(alloc, tokens)?;
    let Some(rest) = after(rest, Keyword::And) else {
        return Err(Stop::Syntax(rest.len()));
    };
    let (high, rest) = operand(alloc, rest)?;
    Ok((
        Condition::Between {
            operand: operand_between,
            low,
            high,
            negated,
        },
        rest,
    ))
}

// The members after IN.
#[tactic(auto, unfolding(crate::specs::Internal::Reading::members_at))]
fn members(
    alloc: Global,
    operand: Operand,
    negated: bool,
    tokens: &[Token],
) -> Result<(Condition, &[Token]), Stop>
    ensures { Gives result (reading.members_at operand negated tokens.now) }
{
    let Some(rest) = behind(tokens, Sign::Open) else {
        return Err(Stop::Syntax(tokens.len()));
    };
    let (members, rest) = operands(alloc, rest)?;
    let Some(rest) = behind(rest, Sign::Close) else {
        return Err(Stop::Syntax(rest.len()));
    };
    Ok((
        Condition::In {
            operand,
            members,
            negated,
        },
        rest,
    ))
}

// BETWEEN or IN, after an operand and perhaps NOT.
#[tactic(auto, unfolding(crate::specs::Internal::Reading::range_at))]
fn range(
    alloc: Global,
    operand: Operand,
    negated: bool,
    tokens: &[Token],
) -> Result<(Condition, &[Token]), Stop>
    ensures { Gives result (reading.range_at operand (negated, tokens.now)) }
{
    if let Some(rest) = after(tokens, Keyword::Between) {
        return bounds(alloc, operand, negated, rest);
    }
    match after(tokens, Keyword::In) {
        Some(rest) => members(alloc, operand, negated, rest),
        None => Err(Stop::Syntax(tokens.len())),
    }
}

// What a predicate says of its first operand.
#[tactic(auto, unfolding(crate::specs::Internal::Reading::test_of))]
fn test_of(alloc: Global, first: Operand, tokens: &[Token]) -> Result<(Condition, &[Token]), Stop>
    ensures { Gives result (reading.test_of first tokens.now) }
{
    if let Some((operator, rest)) = operator(tokens) {
        let (right, rest) = operand(alloc, rest)?;
        return Ok((
            Condition::Compare {
                left: first,
                operator,
                right,
            },
            rest,
        ));
    }
    match after(tokens, Keyword::Is) {
        Some(rest) => {
            let (negated, rest) = optional(rest, Keyword::Not);
            null(first, negated, rest)
        }
        None => {
            let (negated, rest) = optional(tokens, Keyword::Not);
            range(alloc, first, negated, rest)
        }
    }
}

/// The predicate that comes next, and the tokens after it.
///
/// # Errors
///
/// `Syntax` if no predicate comes next, `Memory` if memory ran out.
#[tactic(auto, unfolding(crate::specs::Internal::Reading::predicate_at))]
pub fn predicate(alloc: Global, tokens: &[Token]) -> Result<(Condition, &[Token]), Stop>
    ensures { Gives result (reading.predicate_at tokens.now) }
{
    match operand(alloc, tokens) {
        Ok((first, rest)) => test_of(alloc, first, rest),
        Err(stop) => Err(stop),
    }
}
