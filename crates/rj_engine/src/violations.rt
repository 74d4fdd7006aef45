//! How a joined table differs from what is expected.

ghost use Rattle.std.specs.Prelude.{◌≡◌, ◌<◌, ◌↔◌, ℕ, All, IfOk, IsTrue, MatchOption, Some, length, map, slice_index};
ghost use Rattle.rj_engine.specs.Expected.{AreDistinct, AreMatched, HasNoLone, IsAsExpected};
ghost use Rattle.rj_engine.specs.Internal.Marks.{row_on};
ghost use Rattle.rj_engine.specs.Results.{joined_of};
ghost use Rattle.rj_engine.specs.Violations.{IsFirstRepeated, IsLoneViolation, IsPairViolation, IsViolation, times};

use crate::expected::has_at_most;
use crate::joined::Joined;
use crate::marks::{PairSide, lone_rows, row_on};
use crate::match_ranges::MatchRanges;
use rj_columns::Table;
use rj_condition::BoundJoin;
use rj_settings::{Expectation, Matching};
use std::alloc::{AllocError, Global};

/// How a joined table differs from what is expected.
#[derive(Clone, Copy, Debug, PartialEq, Eq)]
pub enum Violation {
    /// It has this many rows.
    Rows(u64),
    /// This left row, counted from 0, is in this many matches.
    LeftRow(u32, u64),
    /// This right row, counted from 0, is in this many matches.
    RightRow(u32, u64),
    /// This left row, counted from 0, is in no match.
    LoneLeft(u32),
}

// How often each number below the count is among the numbers, all of which are below it.
fn occurrences(alloc: Global, numbers: &[u32], count: u32) -> Result<Vec<u64>, AllocError>
    requires { All (λ n. n < count) numbers.now }
    ensures len { IfOk result (λ v. length v.items ≡ count) }
    ensures each { IfOk result (λ v. (k : ℕ) → k < count → slice_index v.items k ≡ times k numbers.now) }
{
    let mut counts = vec![in alloc; 0u64; count as usize]?;
    for number in numbers {
        counts[*number as usize] += 1;
    }
    Ok(counts)
}

// The least number that occurs more than once among the numbers, and how often it does. All numbers
// are below the count.
fn first_repeated(
    alloc: Global,
    numbers: &[u32],
    count: u32,
) -> Result<Option<(u32, u64)>, AllocError>
    requires { All (λ n. n < count) numbers.now }
    ensures { IfOk result (λ o. MatchOption o (AreDistinct numbers.now) (λ p. IsFirstRepeated numbers.now p.0 p.1)) }
{
    let counts = occurrences(alloc, numbers, count)?;
    for number in 0..count {
        let often = counts[number as usize];
        if often > 1 {
            return Ok(Some((number, often)));
        }
    }
    Ok(None)
}

// The rows of the pairs on a side.
fn rows_on(alloc: Global, pairs: &MatchRanges, side: PairSide) -> Result<Vec<u32>, AllocError>
    ensures { IfOk result (λ v. v.items ≡ map (row_on side) pairs.now) }
{
    let mut rows = Vec::with_capacity(alloc, pairs.len())?;
    for place in 0..pairs.len() {
        rows.push(row_on(side, pairs.get(place)))?;
    }
    Ok(rows)
}

// The first left row that is in more than one of the matches.
fn left_violation(
    alloc: Global,
    pairs: &MatchRanges,
    lefts: u32,
) -> Result<Option<Violation>, AllocError>
    requires { All (λ p. p.0 < lefts) pairs.now }
    ensures { IfOk result (λ o. MatchOption o (AreDistinct (map (λ p. p.0) pairs.now)) (IsPairViolation (Some Matching.ManyToOne) pairs.now)) }
{
    let rows = rows_on(alloc, pairs, PairSide::Left)?;
    match first_repeated(alloc, rows.as_slice(), lefts)? {
        Some((row, often)) => Ok(Some(Violation::LeftRow(row, often))),
        None => Ok(None),
    }
}

// The first right row that is in more than one of the matches.
fn right_violation(
    alloc: Global,
    pairs: &MatchRanges,
    rights: u32,
) -> Result<Option<Violation>, AllocError>
    requires { All (λ p. p.1 < rights) pairs.now }
    ensures { IfOk result (λ o. MatchOption o (AreDistinct (map (λ p. p.1) pairs.now)) (IsPairViolation (Some Matching.OneToMany) pairs.now)) }
{
    let rows = rows_on(alloc, pairs, PairSide::Right)?;
    match first_repeated(alloc, rows.as_slice(), rights)? {
        Some((row, often)) => Ok(Some(Violation::RightRow(row, often))),
        None => Ok(None),
    }
}

// The first left row that is in more than one of the matches, or else the first right one.
fn either_violation(
    alloc: Global,
    pairs: &MatchRanges,
    lefts: u32,
    rights: u32,
) -> Result<Option<Violation>, AllocError>
    requires left { All (λ p. p.0 < lefts) pairs.now }
    requires right { All (λ p. p.1 < rights) pairs.now }
    ensures { IfOk result (λ o. MatchOption o (AreMatched (Some Matching.OneToOne) pairs.now) (IsPairViolation (Some Matching.OneToOne) pairs.now)) }
{
    match left_violation(alloc, pairs, lefts)? {
        Some(found) => Ok(Some(found)),
        None => match right_violation(alloc, pairs, rights)? {
            Some(found) => Ok(Some(found)),
            None => Ok(None),
        },
    }
}

// The first row that is in more matches than the matching allows, given how many left and right
// rows there are.
fn pair_violation(
    alloc: Global,
    pairs: &MatchRanges,
    matching: Option<Matching>,
    lefts: u32,
    rights: u32,
) -> Result<Option<Violation>, AllocError>
    requires left { All (λ p. p.0 < lefts) pairs.now }
    requires right { All (λ p. p.1 < rights) pairs.now }
    ensures { IfOk result (λ o. MatchOption o (AreMatched matching pairs.now) (IsPairViolation matching pairs.now)) }
{
    match matching {
        None => Ok(None),
        Some(Matching::ManyToOne) => left_violation(alloc, pairs, lefts),
        Some(Matching::OneToMany) => right_violation(alloc, pairs, rights),
        Some(Matching::OneToOne) => either_violation(alloc, pairs, lefts, rights),
    }
}

// The first of this many left rows that is in no match, if each has to be in one.
fn lone_violation(
    alloc: Global,
    pairs: &MatchRanges,
    matched: bool,
    lefts: u32,
) -> Result<Option<Violation>, AllocError>
    ensures { IfOk result (λ o. MatchOption o (HasNoLone matched lefts pairs.now) (IsLoneViolation matched lefts pairs.now)) }
{
    if !matched {
        return Ok(None);
    }
    let lone = lone_rows(alloc, pairs, PairSide::Left, lefts)?;
    if lone.is_empty() {
        return Ok(None);
    }
    Ok(Some(Violation::LoneLeft(lone[0])))
}

/// How the joined table of these tables by this join differs from what is expected. It is the
/// number of rows, if there are too many, or else the first row that is in more than one match,
/// with their number. If neither a left nor a right row may be, a left one comes before a right
/// one. If there is none, it is the first left row that is in no match, if each has to be in one.
/// `None` exactly if the joined table is as expected.
///
/// # Errors
///
/// It fails only when memory runs out. It takes eight bytes for each row of a side that may be in
/// one match only, and four for each match. If each left row has to be in a match, it takes a byte
/// for each left row, and four more for each unmatched one.
pub fn first_violation(
    alloc: Global,
    left: &Table,
    right: &Table,
    join: &BoundJoin,
    joined: &Joined,
    expectation: &Expectation,
) -> Result<Option<Violation>, AllocError>
    requires { joined.now.members ≡ joined_of join.now left.now right.now }
    ensures { IfOk result (λ o. MatchOption o (IsAsExpected expectation.now (length left.now.rows) (joined_of join.now left.now right.now))
        (IsViolation expectation.now (length left.now.rows) (joined_of join.now left.now right.now))) }
{
    if !has_at_most(joined, expectation.most_rows) {
        return Ok(Some(Violation::Rows(joined.len() as u64)));
    }
    let pairs = joined.kept_pairs();
    let (lefts, rights) = (left.rows() as u32, right.rows() as u32);
    match pair_violation(alloc, pairs, expectation.matching, lefts, rights)? {
        Some(found) => Ok(Some(found)),
        None => lone_violation(alloc, pairs, expectation.matched, lefts),
    }
}
