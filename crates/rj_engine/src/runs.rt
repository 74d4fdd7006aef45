//! The members that are shown, cut into runs whose left rows are in one segment of the left table.

ghost use Rattle.std.specs.Prelude.{◌≡◌, ◌≢◌, ◌<◌, ◌≤◌, ◌+◌, ◌^◌, [], All, IfOk, IsTrue, ◌↔◌, Some, length, slice_get, take};
ghost use Rattle.std.specs.Option.{ForSome};
ghost use Rattle.rj_columns.specs.Tables.{rows_of_all};
ghost use Rattle.rj_engine.specs.Chosen.{shown_rows};
ghost use Rattle.rj_engine.specs.Shown.{Follow, IsRunOf, StandsWithin, rows_between, start_of};

use crate::chosen_rows::{count_of, row_at};
use crate::joined::{Joined, JoinedRow};
use crate::shown::Shown;
use rj_columns::Table;
use std::alloc::{AllocError, Global};

// The most rows of a run.
const MOST_ROWS: usize = 65536;

/// Consecutive members that are shown, whose left rows are in one segment of the left table.
#[derive(Clone, Copy)]
pub struct Run {
    pub(crate) segment: usize,
    // The number of the segment's first row.
    pub(crate) first: u32,
    pub(crate) from: usize,
    pub(crate) to: usize,
}

impl Run {
    /// The number of the segment, counted from 0.
    pub fn segment(&self) -> usize
        ensures { result ≡ self.now.segment }
    {
        self.segment
    }
}

// The number of a segment's first row.
fn start_of(segments: &[Table], segment: usize) -> u64
    requires segment { segment ≤ length segments.now }
    requires few { length (rows_of_all segments.now) < 2 ^ 31 }
    ensures { result ≡ start_of segments.now segment }
{
    let mut start = 0;
    for k in 0..segment {
        start += segments[k].rows();
    }
    start
}

// The segment that has this row.
fn segment_with(segments: &[Table], row: u32) -> usize
    requires row { row < length (rows_of_all segments.now) }
    requires few { length (rows_of_all segments.now) < 2 ^ 31 }
    ensures segment { result < length segments.now }
    ensures first { start_of segments.now result ≤ row }
    ensures end { row < start_of segments.now (result + 1) }
{
    let mut start = 0;
    for k in 0..segments.len() {
        start += segments[k].rows();
        if u64::from(row) < start {
            return k;
        }
    }
    unreachable!()
}

// The segment that has a member's left row or, if it has none, the one whose turn it is.
fn segment_of(segments: &[Table], row: JoinedRow, turn: usize) -> usize
    requires some { segments.now ≢ [] }
    requires few { length (rows_of_all segments.now) < 2 ^ 31 }
    requires row { StandsWithin 0 (length (rows_of_all segments.now)) row }
    ensures segment { result < length segments.now }
    ensures within { StandsWithin (start_of segments.now result) (start_of segments.now (result + 1)) row }
{
    match row {
        JoinedRow::Both(i, _) => segment_with(segments, i),
        JoinedRow::LeftOnly(i) => segment_with(segments, i),
        JoinedRow::RightOnly(_) => turn % segments.len(),
    }
}

// Whether a member's left row is one from the first up to the end, or missing.
fn stands_within(first: u32, end: u32, row: JoinedRow) -> bool
    ensures { IsTrue result ↔ StandsWithin first end row }
{
    match row {
        JoinedRow::Both(i, _) => first <= i && i < end,
        JoinedRow::LeftOnly(i) => first <= i && i < end,
        JoinedRow::RightOnly(_) => true,
    }
}

// A place up to which all members from another one are matches whose left rows are within, if all of
// the joined table is shown. Then it is looked for in the lists of the matches, without getting each.
fn match_end(joined: &Joined, shown: &Shown, from: usize, to: usize, first: u32, end: u32) -> usize
    requires { from ≤ to }
    ensures from { from ≤ result }
    ensures to { result ≤ to }
    ensures rows { All (StandsWithin first end) (rows_between from result (shown_rows shown.now.chosen joined.now.members)) }
{
    match &shown.chosen {
        Some(_) => from,
        None => joined.kept_pairs().end_within(first, end, from, to),
    }
}

// Where a run ends that begins at a place: at the next member whose left row isn't within, or when
// it has as many members as a run can have.
fn end_of_run(joined: &Joined, shown: &Shown, from: usize, first: u32, end: u32) -> usize
    requires from { from < length (shown_rows shown.now.chosen joined.now.members) }
    requires begins { ForSome (slice_get (shown_rows shown.now.chosen joined.now.members) from) (StandsWithin first end) }
    ensures some { from < result }
    ensures within { result ≤ length (shown_rows shown.now.chosen joined.now.members) }
    ensures rows { All (StandsWithin first end) (rows_between from result (shown_rows shown.now.chosen joined.now.members)) }
{
    let most = count_of(&shown.chosen, joined).min(from.saturating_add(MOST_ROWS));
    let begun = match_end(joined, shown, from, most, first, end);
    for place in begun..most {
        if !stands_within(first, end, row_at(&shown.chosen, joined, place)) {
            return place;
        }
    }
    most
}

// The run that begins at a place.
fn next_run(segments: &[Table], joined: &Joined, shown: &Shown, from: usize, turn: usize) -> Run
    requires from { from < length (shown_rows shown.now.chosen joined.now.members) }
    requires some { segments.now ≢ [] }
    requires few { length (rows_of_all segments.now) < 2 ^ 31 }
    requires rows { All (StandsWithin 0 (length (rows_of_all segments.now))) (shown_rows shown.now.chosen joined.now.members) }
    ensures run { IsRunOf segments.now (shown_rows shown.now.chosen joined.now.members) result }
    ensures from { result.from ≡ from }
    ensures some { from < result.to }
{
    let row = row_at(&shown.chosen, joined, from);
    let segment = segment_of(segments, row, turn);
    let first = start_of(segments, segment) as u32;
    let end = start_of(segments, segment + 1) as u32;
    let to = end_of_run(joined, shown, from, first, end);
    Run {
        segment,
        first,
        from,
        to,
    }
}

/// The members that are shown, cut into consecutive runs. The left rows of a run are in one segment
/// of the left table, and a run has at most 65,536 members. Members without a left row go with the
/// segments in turn.
///
/// # Errors
///
/// It fails only when memory runs out.
pub fn cut_runs(
    alloc: Global,
    segments: &[Table],
    joined: &Joined,
    shown: &Shown,
) -> Result<Vec<Run>, AllocError>
    requires some { segments.now ≢ [] }
    requires few { length (rows_of_all segments.now) < 2 ^ 31 }
    requires rows { All (StandsWithin 0 (length (rows_of_all segments.now))) (shown_rows shown.now.chosen joined.now.members) }
    ensures follow { IfOk result (λ v. Follow 0 (length (shown_rows shown.now.chosen joined.now.members)) v.items) }
    ensures each { IfOk result (λ v. All (IsRunOf segments.now (shown_rows shown.now.chosen joined.now.members)) v.items) }
{
    let rows = count_of(&shown.chosen, joined);
    let mut runs = Vec::new(alloc);
    let mut place = 0;
    while place < rows {
        let run = next_run(segments, joined, shown, place, runs.len());
        place = run.to;
        runs.push(run)?;
    }
    Ok(runs)
}
