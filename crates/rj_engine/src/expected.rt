//! Whether a joined table is as expected.

ghost use Rattle.std.specs.Prelude.{◌≡◌, ◌<◌, ◌↔◌, All, IfOk, IsTrue, length, map};
ghost use Rattle.rj_engine.specs.Expected.{AreDistinct, AreMatched, HasAtMost, HasNoLone, IsAsExpected};
ghost use Rattle.rj_engine.specs.Internal.Marks.{row_on};
ghost use Rattle.rj_engine.specs.Results.{joined_of};

use crate::joined::Joined;
use crate::marks::{PairSide, lone_rows, mark, row_on};
use crate::match_ranges::MatchRanges;
use rj_columns::Table;
use rj_condition::BoundJoin;
use rj_settings::{Expectation, Matching};
use std::alloc::{AllocError, Global};

// Whether none of this many rows of a side is in two of the matches.
fn are_distinct(
    alloc: Global,
    pairs: &MatchRanges,
    side: PairSide,
    count: u32,
) -> Result<bool, AllocError>
    requires { All (λ p. row_on side p < count) pairs.now }
    ensures { IfOk result (λ b. IsTrue b ↔ AreDistinct (map (row_on side) pairs.now)) }
{
    let mut marks = vec![in alloc; false; count as usize]?;
    for place in 0..pairs.len() {
        let row = row_on(side, pairs.get(place));
        if marks[row as usize] {
            return Ok(false);
        }
        mark(&mut marks, row);
    }
    Ok(true)
}

// Whether the matches are as the matching asks, given how many left and right rows there are.
fn are_matched(
    alloc: Global,
    pairs: &MatchRanges,
    matching: Option<Matching>,
    lefts: u32,
    rights: u32,
) -> Result<bool, AllocError>
    requires left { All (λ p. p.0 < lefts) pairs.now }
    requires right { All (λ p. p.1 < rights) pairs.now }
    ensures { IfOk result (λ b. IsTrue b ↔ AreMatched matching pairs.now) }
{
    let Some(matching) = matching else {
        return Ok(true);
    };
    match matching {
        Matching::ManyToOne => are_distinct(alloc, pairs, PairSide::Left, lefts),
        Matching::OneToMany => are_distinct(alloc, pairs, PairSide::Right, rights),
        Matching::OneToOne => {
            let one = are_distinct(alloc, pairs, PairSide::Left, lefts)?;
            let other = are_distinct(alloc, pairs, PairSide::Right, rights)?;
            Ok(one && other)
        }
    }
}

// Whether each of this many left rows is in a match, if that is asked for.
fn has_no_lone(
    alloc: Global,
    pairs: &MatchRanges,
    matched: bool,
    lefts: u32,
) -> Result<bool, AllocError>
    ensures { IfOk result (λ b. IsTrue b ↔ HasNoLone matched lefts pairs.now) }
{
    if !matched {
        return Ok(true);
    }
    let lone = lone_rows(alloc, pairs, PairSide::Left, lefts)?;
    Ok(lone.is_empty())
}

// Whether there are no more members than this.
pub(crate) fn has_at_most(joined: &Joined, most: Option<u32>) -> bool
    ensures { IsTrue result ↔ HasAtMost most joined.now.members }
{
    match most {
        Some(most) => joined.len() <= most as usize,
        None => true,
    }
}

/// Whether the joined table of these tables by this join is as expected, in how many rows it has,
/// in how many matches a row is, and in whether each left row is in one.
///
/// # Errors
///
/// It fails only when memory runs out. It takes a byte for each row of a side that may be in one
/// match only. If each left row has to be in a match, it takes one for each left row, and four more
/// for each unmatched one.
pub fn is_as_expected(
    alloc: Global,
    left: &Table,
    right: &Table,
    join: &BoundJoin,
    joined: &Joined,
    expectation: &Expectation,
) -> Result<bool, AllocError>
    requires { joined.now.members ≡ joined_of join.now left.now right.now }
    ensures { IfOk result (λ b. IsTrue b ↔ IsAsExpected expectation.now (length left.now.rows) (joined_of join.now left.now right.now)) }
{
    let pairs = joined.kept_pairs();
    let (lefts, rights) = (left.rows() as u32, right.rows() as u32);
    if !has_at_most(joined, expectation.most_rows) {
        return Ok(false);
    }
    if !are_matched(alloc, pairs, expectation.matching, lefts, rights)? {
        return Ok(false);
    }
    has_no_lone(alloc, pairs, expectation.matched, lefts)
}
