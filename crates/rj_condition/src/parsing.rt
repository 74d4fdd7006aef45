//! A clause text and its syntax tree.

ghost use Rattle.std.specs.Prelude.{◌≡◌, ◌∷◌, ◌-◌, [], ◌≤◌, length, slice_get, unwrap_or};
ghost use Rattle.rj_condition.specs.declared.tree.Clause.{Clause};
ghost use Rattle.rj_condition.specs.declared.refused.ParseRefused.TheVariants as refused;
ghost use Rattle.rj_condition.specs.Clauses.{IsTooLong, IsTooDeep, HasClause, HasNoClause, Parses, IsAnswer, Refuses, IsSyntax};

use crate::clauses::clause;
use crate::lexer::lex;
use crate::nesting::too_deep;
use crate::refused::ParseRefused;
use crate::stop::Stop;
use crate::tree::Clause;
use std::alloc::Global;

const LONGEST: usize = 65_536;

/// The syntax tree of a join clause (SQL-92, 7.5).
///
/// # Errors
///
/// In this order: `TooLong` if the text is over 65,536 bytes, `TooDeep` if its parentheses and NOTs
/// are nested over 64 deep, `Syntax` if it is no clause, with the byte of the first token that no
/// clause can have there. `Memory` if memory ran out. The text isn't changed.
#[tactic(auto, using(crate::proofs::Answer::only, crate::proofs::Answer::long, crate::proofs::Answer::deep, crate::proofs::Answer::none))]
pub fn parse(alloc: Global, text: &str) -> Result<Clause, ParseRefused>
    // It is the clause of the text, or its error.
    ensures answer { Parses text.now result }
    // A text has at most one clause. If it has one, that is returned, unless memory runs out.
    ensures only { (c : Clause) → HasClause text.now c → IsAnswer result c }
    // An error of the text is reported, unless memory runs out.
    ensures too_long { IsTooLong text.now → Refuses result (λ e. e ≡ refused.TooLong) }
    ensures too_deep { IsTooDeep text.now → Refuses result (λ e. e ≡ refused.TooDeep) }
    ensures no_clause { HasNoClause text.now → Refuses result IsSyntax }
{
    read(alloc, text)
}

fn read(alloc: Global, text: &str) -> Result<Clause, ParseRefused>
    ensures { Parses text.now result }
{
    if text.len() > LONGEST {
        return Err(ParseRefused::TooLong);
    }
    let lexed = lex(alloc, text)?;
    if too_deep(alloc, lexed.tokens.as_slice())? {
        return Err(ParseRefused::TooDeep);
    }
    match clause(alloc, lexed.tokens.as_slice()) {
        Ok(clause) => Ok(clause),
        Err(Stop::Memory) => Err(ParseRefused::Memory),
        Err(Stop::Syntax(left)) => Err(ParseRefused::Syntax(
            fault_byte(lexed.starts.as_slice(), left, text.len()) as u64,
        )),
    }
}

// The byte at which the first of the last `left` tokens starts, or the end of the text if none are
// left.
fn fault_byte(starts: &[u32], left: usize, text_len: usize) -> usize
    requires { left ≤ length starts.now }
    ensures { result ≡ unwrap_or (slice_get starts.now (length starts.now - left)) text_len }
{
    match starts.get(starts.len() - left) {
        Some(start) => *start as usize,
        None => text_len,
    }
}
