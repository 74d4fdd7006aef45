//! The first column name of a clause that is refused, and where it is in the text.

ghost use Rattle.std.specs.Prelude.{◌≡◌, ◌<◌, ◌≤◌, ℕ, IfOk, MatchOption, None, Some, length, option_and_then, option_map, slice_get};
ghost use Rattle.std.specs.List.{list_any};
ghost use Rattle.std.specs.Option.{option_copied};
ghost use Rattle.rj_condition.specs.Names.{place};
ghost use Rattle.rj_condition.specs.Refusals as refusals;
ghost use Rattle.rj_condition.specs.Refusals.{AreTaken, IsRefusedColumn, IsTaken, IsToldOf};

use crate::lexer::lex;
use crate::names::{column_named, resolve_column};
use crate::refused::BindRefused;
use crate::token::{Keyword, Sign, Token};
use crate::tree::Name;
use crate::word::Word;
use rj_columns::Table;
use std::alloc::{AllocError, Global};

/// A column name of a clause that is refused.
#[derive(Drop)]
pub struct RefusedColumn {
    /// The byte of the text, counted from 0, at which the name begins.
    pub at: u64,
    /// The name, without the quotes of a delimited one.
    pub name: Word,
    /// The name before it and a point, if it is qualified.
    pub qualifier: Option<Word>,
    /// Why it is refused.
    pub refused: BindRefused,
}

pub(crate) fn token_at(tokens: &[Token], i: usize) -> Option<&Token>
    ensures { option_copied result ≡ slice_get tokens.now i }
{
    tokens.get(i)
}

// The name that a token is.
pub(crate) fn name_at(tokens: &[Token], i: usize) -> Option<&Name>
    ensures { option_copied result ≡ refusals.name_of (slice_get tokens.now i) }
{
    match token_at(tokens, i) {
        Some(Token::Name(name)) => Some(name),
        _ => None,
    }
}

pub(crate) fn is_point_at(tokens: &[Token], i: usize) -> bool
    ensures { result ≡ refusals.is_point (slice_get tokens.now i) }
{
    match token_at(tokens, i) {
        Some(Token::Sign(Sign::Point)) => true,
        _ => false,
    }
}

// The name before the point before a token.
fn qualifier_at(tokens: &[Token], i: usize) -> Option<&Name>
    ensures { option_copied result ≡ refusals.qualifier_at tokens.now i }
{
    if i < 2 || !is_point_at(tokens, i - 1) {
        return None;
    }
    name_at(tokens, i - 2)
}

fn is_using(token: &Token) -> bool
    ensures { result ≡ refusals.is_using token.now }
{
    match token {
        Token::Keyword(Keyword::Using) => true,
        _ => false,
    }
}

// Whether the tokens are those of a USING clause.
pub(crate) fn are_using(tokens: &[Token]) -> bool
    ensures { result ≡ list_any refusals.is_using tokens.now }
{
    tokens.iter().any(|token| is_using(token))
}

// Why a name of an ON clause is refused, if it is.
fn reference_refusal(
    qualifier: Option<&Name>,
    name: &Name,
    left: &Table,
    right: &Table,
) -> Option<BindRefused>
    ensures { result ≡ refusals.reference_refusal left.now.names right.now.names (record { qualifier = option_copied qualifier.entry; name = name.now }) }
{
    match resolve_column(qualifier, name, left, right) {
        Ok(_) => None,
        Err(refused) => Some(refused),
    }
}

// Whether a token names this column of a table.
fn is_name_of_column(token: &Token, table: &Table, column: usize) -> bool
    ensures { result ≡ refusals.is_same_place column (option_and_then (place table.now.names) (refusals.name_of (Some token.now))) }
{
    match token {
        Token::Name(name) => column_named(table, name) == Some(column),
        _ => false,
    }
}

fn is_named_in(tokens: &[Token], table: &Table, column: usize) -> bool
    ensures { result ≡ refusals.is_named_in table.now.names tokens.now column }
{
    tokens
        .iter()
        .any(|token| is_name_of_column(token, table, column))
}

// Why a name of USING is refused after these tokens, if it is.
fn using_refusal(before: &[Token], name: &Name, left: &Table, right: &Table) -> Option<BindRefused>
    ensures { result ≡ refusals.using_refusal left.now.names before.now (place left.now.names name.now) (place right.now.names name.now) }
{
    match (column_named(left, name), column_named(right, name)) {
        (Some(column), Some(_)) => {
            if is_named_in(before, left, column) {
                Some(BindRefused::RepeatedUsing)
            } else {
                None
            }
        }
        _ => Some(BindRefused::UnknownColumn),
    }
}

// Why the column that a token names is refused, if it names one and that is refused.
fn refusal_at(
    tokens: &[Token],
    in_using: bool,
    i: usize,
    left: &Table,
    right: &Table,
) -> Option<BindRefused>
    requires { i < length tokens.now }
    ensures { result ≡ refusals.refusal_at in_using left.now.names right.now.names tokens.now i }
{
    if is_point_at(tokens, i + 1) {
        return None;
    }
    let Some(name) = name_at(tokens, i) else {
        return None;
    };
    if in_using {
        using_refusal(&tokens[..i], name, left, right)
    } else {
        reference_refusal(qualifier_at(tokens, i), name, left, right)
    }
}

// The first token that names a column which is refused, and why.
fn first_refused(tokens: &[Token], left: &Table, right: &Table) -> Option<(usize, BindRefused)>
    ensures { MatchOption result
        ((i : ℕ) → i < length tokens.now → refusals.refusal_at (list_any refusals.is_using tokens.now) left.now.names right.now.names tokens.now i ≡ None)
        (λ p. (refusals.refusal_at (list_any refusals.is_using tokens.now) left.now.names right.now.names tokens.now p.0 ≡ Some p.1)
        × ((i : ℕ) → i < p.0 → refusals.refusal_at (list_any refusals.is_using tokens.now) left.now.names right.now.names tokens.now i ≡ None)) }
{
    let in_using = are_using(tokens);
    for i in 0..tokens.len() {
        if let Some(refused) = refusal_at(tokens, in_using, i, left, right) {
            return Some((i, refused));
        }
    }
    None
}

fn text_of(alloc: Global, name: &Name) -> Result<Word, AllocError>
    ensures { IfOk result (λ w. w ≡ name.now.text) }
{
    Word::new(alloc, name.text.as_str())
}

fn qualifier_of(alloc: Global, name: Option<&Name>) -> Result<Option<Word>, AllocError>
    ensures { IfOk result (λ o. o ≡ option_map (λ n. n.text) (option_copied name.entry)) }
{
    match name {
        Some(name) => Ok(Some(text_of(alloc, name)?)),
        None => Ok(None),
    }
}

// The byte at which a token begins.
pub(crate) fn start_at(starts: &[u32], i: usize) -> u64
    requires { i < length starts.now }
    ensures { slice_get starts.now i ≡ Some result }
{
    u64::from(starts[i])
}

// The first column name among tokens that is refused.
fn refused_in(
    alloc: Global,
    tokens: &[Token],
    starts: &[u32],
    left: &Table,
    right: &Table,
) -> Result<Option<RefusedColumn>, AllocError>
    requires { length starts.now ≡ length tokens.now }
    ensures { IfOk result (λ o. MatchOption o (AreTaken left.now.names right.now.names tokens.now)
        (IsToldOf left.now.names right.now.names tokens.now starts.now)) }
{
    let Some((i, refused)) = first_refused(tokens, left, right) else {
        return Ok(None);
    };
    let Some(name) = name_at(tokens, i) else {
        unreachable!()
    };
    let at = start_at(starts, i);
    let text = text_of(alloc, name)?;
    let qualifier = qualifier_of(alloc, qualifier_at(tokens, i))?;
    Ok(Some(RefusedColumn {
        at,
        name: text,
        qualifier,
        refused,
    }))
}

/// The first column name in the text of an ON or a USING clause that is refused over two tables:
/// for ON because it can't be resolved, for USING because a table has no such column or it was
/// named before. `None` if none is refused.
///
/// # Errors
///
/// It fails only when memory runs out.
pub fn refused_column(
    alloc: Global,
    text: &str,
    left: &Table,
    right: &Table,
) -> Result<Option<RefusedColumn>, AllocError>
    requires { length text.now ≤ 65536 }
    ensures { IfOk result (λ o. MatchOption o (IsTaken text.now left.now.names right.now.names)
        (IsRefusedColumn text.now left.now.names right.now.names)) }
{
    let lexed = lex(alloc, text)?;
    let (tokens, starts) = (lexed.tokens.as_slice(), lexed.starts.as_slice());
    match refused_in(alloc, tokens, starts, left, right)? {
        Some(found) => Ok(Some(found)),
        None => Ok(None),
    }
}
