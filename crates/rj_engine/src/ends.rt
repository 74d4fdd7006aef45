//! The last columns that are shown, where they come from the right table alone, and each member's
//! right row.

ghost use Rattle.std.specs.Prelude.{◌≡◌, ◌≤◌, ◌<◌, ◌-◌, All, IfOk, drop, length, map, not, slice_index_or, true, false};
ghost use Rattle.rj_engine.specs.Chosen.{is_of_left, shown_rows};
ghost use Rattle.rj_engine.specs.Ends.{IsFront, right_row};
ghost use Rattle.rj_engine.specs.Shown.{rows_between};
ghost use Rattle.rj_engine.specs.declared.origin.Origin.TheVariants as origin;

use crate::chosen_rows::{count_of, row_at};
use crate::joined::{Joined, JoinedRow};
use crate::origin::Origin;
use crate::runs::Run;
use crate::shown::Shown;
use std::alloc::{AllocError, Global};

// Whether a column comes from the right table alone.
fn is_right(origin: Origin) -> bool
    ensures { result ≡ not (is_of_left origin) }
{
    match origin {
        Origin::Coalesced(_, _) | Origin::Left(_) => false,
        Origin::Right(_) => true,
    }
}

impl Shown {
    /// How many columns are shown before the last ones that come from the right table alone.
    pub fn front(&self) -> usize
        ensures { IsFront self.now.origins.items result }
    {
        let mut front = self.origins.len();
        while front > 0 {
            if !is_right(self.origins[front - 1]) {
                return front;
            }
            front -= 1;
        }
        front
    }

    /// The columns of the right table from which the last ones come that are shown, in their order:
    /// those behind so many, which come from it alone.
    ///
    /// # Errors
    ///
    /// It fails only when memory runs out.
    pub fn right_columns(&self, alloc: Global, front: usize) -> Result<Vec<usize>, AllocError>
        requires { IsFront self.now.origins.items front }
        ensures { IfOk result (λ v. map (λ b. origin.Right b) v.items ≡ drop front self.now.origins.items) }
    {
        let mut columns = Vec::new(alloc);
        for origin in &self.origins[front..] {
            match *origin {
                Origin::Coalesced(_, _) | Origin::Left(_) => unreachable!(),
                Origin::Right(b) => columns.push(b)?,
            }
        }
        Ok(columns)
    }
}

// The right row of a member, or this number if it has none.
fn right_row(row: JoinedRow, none: u32) -> u32
    ensures { result ≡ right_row none row }
{
    match row {
        JoinedRow::Both(_, j) | JoinedRow::RightOnly(j) => j,
        JoinedRow::LeftOnly(_) => none,
    }
}

/// The right row of each member of a run that is shown, in their order, and this number for a member
/// that has none.
///
/// # Errors
///
/// It fails only when memory runs out.
pub fn right_rows(
    alloc: Global,
    joined: &Joined,
    shown: &Shown,
    run: Run,
    none: u32,
) -> Result<Vec<u32>, AllocError>
    requires order { run.from ≤ run.to }
    requires within { run.to ≤ length (shown_rows shown.now.chosen joined.now.members) }
    ensures { IfOk result (λ v. v.items ≡ map (right_row none) (rows_between run.from run.to (shown_rows shown.now.chosen joined.now.members))) }
{
    let mut rows = Vec::with_capacity(alloc, run.to - run.from)?;
    for place in run.from..run.to {
        rows.push(right_row(row_at(&shown.chosen, joined, place), none))?;
    }
    Ok(rows)
}
