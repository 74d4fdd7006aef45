//! Steps of the reader: the next token, if it is the wanted one.

ghost use Rattle.std.specs.Prelude.{◌≡◌, [], ◌∷◌, IfOk, IsTrue, ◌↔◌, List};
ghost use Rattle.rj_condition.specs.Internal.Reading.{Gives, GivesWhole, rest_view};
ghost use Rattle.rj_condition.specs.Internal.Reading as reading;

use crate::stop::Stop;
use crate::token::{Keyword, Sign, Token};
use crate::tree::{Clause, Name};
use crate::word::Word;
use sqlite_items::Items;
use std::alloc::{AllocError, Global};

fn same_keyword(found: Keyword, wanted: Keyword) -> bool
    ensures { IsTrue result ↔ (found ≡ wanted) }
{
    found == wanted
}

fn same_sign(found: Sign, wanted: Sign) -> bool
    ensures { IsTrue result ↔ (found ≡ wanted) }
{
    found == wanted
}

// The tokens after the keyword, if it comes next.
#[tactic(auto, unfolding(crate::specs::Internal::Reading::after))]
pub fn after(tokens: &[Token], keyword: Keyword) -> Option<&[Token]>
    ensures { rest_view result ≡ reading.after keyword tokens.now }
{
    match tokens {
        [Token::Keyword(found), rest @ ..] => {
            if same_keyword(*found, keyword) {
                Some(rest)
            } else {
                None
            }
        }
        _ => None,
    }
}

// The tokens after the sign, if it comes next.
#[tactic(auto, unfolding(crate::specs::Internal::Reading::behind))]
pub fn behind(tokens: &[Token], sign: Sign) -> Option<&[Token]>
    ensures { rest_view result ≡ reading.behind sign tokens.now }
{
    match tokens {
        [Token::Sign(found), rest @ ..] => {
            if same_sign(*found, sign) {
                Some(rest)
            } else {
                None
            }
        }
        _ => None,
    }
}

/// The value, and the tokens after a closing parenthesis, which has to come next.
///
/// # Errors
///
/// `Syntax` if no closing parenthesis comes next.
pub fn closed<T: Drop>(value: T, tokens: &[Token]) -> Result<(T, &[Token]), Stop>
    ensures { Gives result (reading.closed value tokens.now) }
{
    match behind(tokens, Sign::Close) {
        Some(rest) => Ok((value, rest)),
        None => Err(Stop::Syntax(tokens.len())),
    }
}

// Whether the keyword comes next, and the tokens after it.
pub fn optional(tokens: &[Token], keyword: Keyword) -> (bool, &[Token])
    ensures { (result.0, result.1.now) ≡ reading.opt keyword tokens.now }
{
    match after(tokens, keyword) {
        Some(rest) => (true, rest),
        None => (false, tokens),
    }
}

/// The clause, if no tokens are left after it.
///
/// # Errors
///
/// `Syntax` if tokens are left.
pub fn whole(clause: Clause, rest: &[Token]) -> Result<Clause, Stop>
    ensures { GivesWhole result (reading.ended clause rest.now) }
{
    match rest {
        [] => Ok(clause),
        _ => Err(Stop::Syntax(rest.len())),
    }
}

fn copied(alloc: Global, name: &Name) -> Result<Name, AllocError>
    ensures { IfOk result (λ n. n ≡ name.now) }
{
    Ok(Name {
        text: Word::new(alloc, name.text.as_str())?,
        delimited: name.delimited,
    })
}

/// The name that comes next, and the tokens after it.
///
/// # Errors
///
/// `Syntax` if no name comes next, `Memory` if memory ran out.
#[tactic(auto, unfolding(crate::specs::Internal::Reading::name_at))]
pub fn name(alloc: Global, tokens: &[Token]) -> Result<(Name, &[Token]), Stop>
    ensures { Gives result (reading.name_at tokens.now) }
{
    match tokens {
        [Token::Name(name), rest @ ..] => Ok((copied(alloc, name)?, rest)),
        _ => Err(Stop::Syntax(tokens.len())),
    }
}

/// The names that come next, with commas between, and the tokens after them.
///
/// # Errors
///
/// `Syntax` if no name comes next, at first or after a comma, `Memory` if memory ran out.
#[tactic(auto, using(crate::proofs::Turns::turns), unfolding(crate::specs::Internal::Reading::names_at, crate::specs::Internal::Reading::separated))]
pub fn names(alloc: Global, tokens: &[Token]) -> Result<(Items<Name>, &[Token]), Stop>
    ensures { Gives result (reading.names_at tokens.now) }
{
    let mut found = Items::new(alloc);
    let mut rest = tokens;
    for turn in 0..tokens.len() {
        let (one, behind_one) = name(alloc, rest)?;
        found.push(one)?;
        match behind(behind_one, Sign::Comma) {
            Some(more) => rest = more,
            None => return Ok((found, behind_one)),
        }
    }
    Err(Stop::Syntax(rest.len()))
}
