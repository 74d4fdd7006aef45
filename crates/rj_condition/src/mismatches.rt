//! The first comparison of a clause that can't be made, since one operand is a number and the other
//! a text.

ghost use Rattle.std.specs.Prelude.{◌≡◌, ◌<◌, ◌≤◌, ℕ, IfOk, MatchOption, None, Some, length, option_map, slice_get};
ghost use Rattle.std.specs.List.{list_any};
ghost use Rattle.std.specs.Option.{option_or};
ghost use Rattle.rj_condition.specs.Mismatches as mismatches;
ghost use Rattle.rj_condition.specs.Mismatches.{AreOneFamily, HasNoMismatch, IsFirstApart, IsMismatch, IsToldApart, first_of};
ghost use Rattle.rj_condition.specs.Names.{resolved_operand};
ghost use Rattle.rj_condition.specs.Internal.Reading.{predicate_at};
ghost use Rattle.rj_condition.specs.Refusals.{is_using};
ghost use Rattle.rj_condition.specs.declared.bound.BoundOperand.TheVariants as bound;

use crate::bound::BoundOperand;
use crate::lexer::lex;
use crate::names::{column_called, column_named, resolve_operand};
use crate::predicates::predicate;
use crate::refusals::{are_using, is_point_at, name_at, start_at, token_at};
use crate::refused::BindRefused;
use crate::stop::Stop;
use crate::token::{Keyword, Token};
use crate::tree::{Condition, Name, Operand};
use crate::typing::{agree, family_of_operand};
use rj_columns::Table;
use std::alloc::{AllocError, Global};

/// Two operands of a clause that can't be compared, since one is a number and the other a text.
#[derive(Drop)]
pub struct Mismatch {
    /// The byte of the text, counted from 0, at which the comparison begins: at a predicate's first
    /// operand, at a name of USING, or at NATURAL.
    pub at: u64,
    /// The operand that is compared.
    pub first: BoundOperand,
    /// The operand that it is compared with.
    pub second: BoundOperand,
}

// Two operands, if both are there and they are of two families.
fn apart(
    x: Option<BoundOperand>,
    y: Option<BoundOperand>,
    left: &Table,
    right: &Table,
) -> Option<(BoundOperand, BoundOperand)>
    ensures { result ≡ mismatches.apart left.now right.now x y }
{
    match x {
        None => None,
        Some(x) => match y {
            None => None,
            Some(y) => {
                if agree(
                    family_of_operand(&x, left, right),
                    family_of_operand(&y, left, right),
                ) {
                    None
                } else {
                    Some((x, y))
                }
            }
        },
    }
}

// What an operand means, if it can be resolved.
fn taken(
    alloc: Global,
    operand: &Operand,
    left: &Table,
    right: &Table,
) -> Result<Option<BoundOperand>, AllocError>
    ensures { IfOk result (λ o. o ≡ mismatches.taken (resolved_operand left.now.names right.now.names operand.now)) }
{
    match resolve_operand(alloc, operand, left, right) {
        Ok(operand) => Ok(Some(operand)),
        Err(BindRefused::Memory) => Err(AllocError),
        Err(_) => Ok(None),
    }
}

// The operands of a comparison, if they differ in family.
fn differ(
    alloc: Global,
    a: &Operand,
    b: &Operand,
    left: &Table,
    right: &Table,
) -> Result<Option<(BoundOperand, BoundOperand)>, AllocError>
    ensures { IfOk result (λ o. o ≡ mismatches.differ left.now right.now a.now b.now) }
{
    let x = taken(alloc, a, left, right)?;
    let y = taken(alloc, b, left, right)?;
    Ok(apart(x, y, left, right))
}

// The operand of BETWEEN and the first bound from which it differs in family.
fn differ_from_bounds(
    alloc: Global,
    operand: &Operand,
    low: &Operand,
    high: &Operand,
    left: &Table,
    right: &Table,
) -> Result<Option<(BoundOperand, BoundOperand)>, AllocError>
    ensures { IfOk result (λ o. o ≡ option_or (mismatches.differ left.now right.now operand.now low.now)
        (mismatches.differ left.now right.now operand.now high.now)) }
{
    match differ(alloc, operand, low, left, right)? {
        Some(found) => Ok(Some(found)),
        None => differ(alloc, operand, high, left, right),
    }
}

// The operand of IN and the first member from which it differs in family.
fn differ_from_members(
    alloc: Global,
    operand: &Operand,
    members: &[Operand],
    left: &Table,
    right: &Table,
) -> Result<Option<(BoundOperand, BoundOperand)>, AllocError>
    ensures { IfOk result (λ o. o ≡ first_of (mismatches.differ left.now right.now operand.now) members.now) }
{
    for member in members {
        if let Some(found) = differ(alloc, operand, member, left, right)? {
            return Ok(Some(found));
        }
    }
    Ok(None)
}

// The first operands that a predicate compares and that differ in family.
fn differ_in(
    alloc: Global,
    predicate: &Condition,
    left: &Table,
    right: &Table,
) -> Result<Option<(BoundOperand, BoundOperand)>, AllocError>
    ensures { IfOk result (λ o. o ≡ mismatches.differ_in left.now right.now predicate.now) }
{
    match predicate {
        Condition::Compare {
            left: a,
            operator: _,
            right: b,
        } => differ(alloc, a, b, left, right),
        Condition::Between {
            operand,
            low,
            high,
            negated: _,
        } => differ_from_bounds(alloc, operand, low, high, left, right),
        Condition::In {
            operand,
            members,
            negated: _,
        } => differ_from_members(alloc, operand, members.as_slice(), left, right),
        Condition::IsNull { .. }
        | Condition::Is { .. }
        | Condition::Not(_)
        | Condition::All(_)
        | Condition::Any(_) => Ok(None),
    }
}

// The same of the predicate that tokens begin with, if they do.
fn differ_read(
    alloc: Global,
    tokens: &[Token],
    left: &Table,
    right: &Table,
) -> Result<Option<(BoundOperand, BoundOperand)>, AllocError>
    ensures { IfOk result (λ o. o ≡ mismatches.differ_read left.now right.now (predicate_at tokens.now)) }
{
    match predicate(alloc, tokens) {
        Ok((found, _)) => differ_in(alloc, &found, left, right),
        Err(Stop::Memory) => Err(AllocError),
        Err(Stop::Syntax(_)) => Ok(None),
    }
}

fn as_left(column: Option<usize>) -> Option<BoundOperand>
    ensures { result ≡ option_map bound.Left column }
{
    match column {
        Some(i) => Some(BoundOperand::Left(i)),
        None => None,
    }
}

fn as_right(column: Option<usize>) -> Option<BoundOperand>
    ensures { result ≡ option_map bound.Right column }
{
    match column {
        Some(j) => Some(BoundOperand::Right(j)),
        None => None,
    }
}

// The columns of a name of USING, if they differ in family.
fn differ_by_name(name: &Name, left: &Table, right: &Table) -> Option<(BoundOperand, BoundOperand)>
    ensures { result ≡ mismatches.differ_by_name left.now right.now name.now }
{
    let x = as_left(column_named(left, name));
    let y = as_right(column_named(right, name));
    apart(x, y, left, right)
}

// The first columns of NATURAL that differ in family.
fn first_common(left: &Table, right: &Table) -> Option<(BoundOperand, BoundOperand)>
    ensures { result ≡ mismatches.first_common left.now right.now 0 left.now.names }
{
    for i in 0..left.columns() {
        let x = as_left(Some(i));
        let y = as_right(column_called(right, left.name(i)));
        if let Some(found) = apart(x, y, left, right) {
            return Some(found);
        }
    }
    None
}

fn is_natural_at(tokens: &[Token], i: usize) -> bool
    ensures { result ≡ mismatches.is_natural (slice_get tokens.now i) }
{
    match token_at(tokens, i) {
        Some(Token::Keyword(Keyword::Natural)) => true,
        _ => false,
    }
}

fn is_behind_point(tokens: &[Token], i: usize) -> bool
    ensures { result ≡ mismatches.is_behind_point tokens.now i }
{
    i > 0 && is_point_at(tokens, i - 1)
}

// The first operands compared at a token of a clause without USING that differ in family.
fn differ_on(
    alloc: Global,
    tokens: &[Token],
    i: usize,
    left: &Table,
    right: &Table,
) -> Result<Option<(BoundOperand, BoundOperand)>, AllocError>
    requires { i < length tokens.now }
    ensures { IfOk result (λ o. o ≡ mismatches.differ_on left.now right.now tokens.now i) }
{
    if is_natural_at(tokens, i) {
        return Ok(first_common(left, right));
    }
    if is_behind_point(tokens, i) {
        return Ok(None);
    }
    let (_, rest) = tokens.split_at(i);
    differ_read(alloc, rest, left, right)
}

// The same of a clause with USING or without.
fn differ_from(
    alloc: Global,
    tokens: &[Token],
    in_using: bool,
    i: usize,
    left: &Table,
    right: &Table,
) -> Result<Option<(BoundOperand, BoundOperand)>, AllocError>
    requires { i < length tokens.now }
    ensures { IfOk result (λ o. o ≡ mismatches.differ_from in_using left.now right.now tokens.now i) }
{
    if !in_using {
        return differ_on(alloc, tokens, i, left, right);
    }
    match name_at(tokens, i) {
        Some(name) => Ok(differ_by_name(name, left, right)),
        None => Ok(None),
    }
}

// The first token at which operands differ in family, and these operands.
fn first_apart(
    alloc: Global,
    tokens: &[Token],
    left: &Table,
    right: &Table,
) -> Result<Option<(usize, (BoundOperand, BoundOperand))>, AllocError>
    ensures { IfOk result (λ o. MatchOption o (AreOneFamily left.now right.now tokens.now)
        (λ p. (p.0 < length tokens.now) × IsFirstApart left.now right.now tokens.now p.0 p.1)) }
{
    let in_using = are_using(tokens);
    for i in 0..tokens.len() {
        if let Some(operands) = differ_from(alloc, tokens, in_using, i, left, right)? {
            return Ok(Some((i, operands)));
        }
    }
    Ok(None)
}

// The mismatch of the first operands among tokens that differ in family.
fn told_apart(
    alloc: Global,
    tokens: &[Token],
    starts: &[u32],
    left: &Table,
    right: &Table,
) -> Result<Option<Mismatch>, AllocError>
    requires { length starts.now ≡ length tokens.now }
    ensures { IfOk result (λ o. MatchOption o (AreOneFamily left.now right.now tokens.now)
        (IsToldApart left.now right.now tokens.now starts.now)) }
{
    match first_apart(alloc, tokens, left, right)? {
        Some((i, (first, second))) => Ok(Some(Mismatch {
            at: start_at(starts, i),
            first,
            second,
        })),
        None => Ok(None),
    }
}

/// The first comparison in the text of a clause, over two tables, of a number with a text. A
/// comparison is one of ON, where BETWEEN compares its operand with each bound and IN with each
/// member, or the two columns of a name of USING, or two columns of NATURAL. `None` if the operands
/// of each comparison are of one family.
///
/// # Errors
///
/// It fails only when memory runs out.
pub fn first_mismatch(
    alloc: Global,
    text: &str,
    left: &Table,
    right: &Table,
) -> Result<Option<Mismatch>, AllocError>
    requires { length text.now ≤ 65536 }
    ensures { IfOk result (λ o. MatchOption o (HasNoMismatch text.now left.now right.now)
        (IsMismatch text.now left.now right.now)) }
{
    let lexed = lex(alloc, text)?;
    let (tokens, starts) = (lexed.tokens.as_slice(), lexed.starts.as_slice());
    match told_apart(alloc, tokens, starts, left, right)? {
        Some(found) => Ok(Some(found)),
        None => Ok(None),
    }
}
