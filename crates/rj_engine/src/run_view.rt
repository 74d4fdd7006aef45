//! The rows of cells of a run, borrowed from a segment of the left table and from the right table.

ghost use Rattle.std.specs.Prelude.{◌≡◌, ◌<◌, ◌≤◌, ◌+◌, ◌-◌, ◌++◌, All, OnOk, Some, length, map, slice_get};
ghost use Rattle.rj_columns.specs.Contents.{content_of};
ghost use Rattle.rj_engine.specs.Shown.{IsRunWithin, IsShownOf, run_view, shown_view};

use crate::cells::Tables;
use crate::chosen_rows::{count_of, row_at};
use crate::joined::Joined;
use crate::runs::Run;
use crate::shown::{Shown, add_shown, cell_at, counted_from};
use rj_columns::{Cell, RowSource, Table};
use std::alloc::AllocError;
use std::marker::Model;

/// The rows of cells of a run, borrowed from a segment of the left table and from the right table.
/// No cell is copied.
#[derive(Drop)]
pub struct RunView<'a> {
    segment: &'a Table,
    right: &'a Table,
    joined: &'a Joined,
    shown: &'a Shown,
    run: Run,
}

impl<'a> Model for RunView<'a> {
    ghost use Rattle.rj_engine.specs.Cells.{ViewValue};
    ghost use Rattle.rj_engine.specs.Shown.{run_view, IsRunWithin};

    ghost Value = { ViewValue };

    ghost view = { λ a. run_view a.shown.now a.segment.now a.right.now a.joined.now.members a.run };

    ghost invariant = { λ a. IsRunWithin a.segment.now a.right.now a.joined.now.members a.shown.now a.run };
}

impl<'a> RunView<'a> {
    /// The rows of a run, whose left rows are in this segment.
    pub fn open(
        segment: &'a Table,
        right: &'a Table,
        joined: &'a Joined,
        shown: &'a Shown,
        run: Run,
    ) -> RunView<'a>
        requires { IsRunWithin segment.now right.now joined.now.members shown.now run }
        ensures { result ≡ run_view shown.now segment.now right.now joined.now.members run }
    {
        RunView {
            segment,
            right,
            joined,
            shown,
            run,
        }
    }

    /// All rows that are shown of a joined table, as one run, whose segment is the left table.
    pub fn whole(
        left: &'a Table,
        right: &'a Table,
        joined: &'a Joined,
        shown: &'a Shown,
    ) -> RunView<'a>
        requires { IsShownOf left.now right.now joined.now.members shown.now }
        ensures { result ≡ shown_view shown.now left.now right.now joined.now.members }
    {
        let run = Run {
            segment: 0,
            first: 0,
            from: 0,
            to: count_of(&shown.chosen, joined),
        };
        RunView::open(left, right, joined, shown, run)
    }
}

impl<'a> RowSource for RunView<'a> {
    ghost contents = { λ v. v.cells };

    ghost width = { λ v. v.width };

    fn rows(&self) -> u64 {
        (self.run.to - self.run.from) as u64
    }

    fn columns(&self) -> usize {
        self.shown.origins.len()
    }

    fn cell(&self, row: u64, col: usize) -> Cell<'_> {
        let _members = count_of(&self.shown.chosen, self.joined); // so the place is a number that fits
        let place = self.run.from + row as usize;
        let member = row_at(&self.shown.chosen, self.joined, place);
        let counted = counted_from(self.run.first, member);
        let (origin, scale) = (self.shown.origins[col], self.shown.scales[col]);
        cell_at(self.segment, self.right, counted, origin, scale)
    }

    fn cells<'s>(
        &'s self,
        cells: &mut Vec<Cell<'s>>,
        col: usize,
        from: u64,
        to: u64,
    ) -> Result<(), AllocError> {
        let _members = count_of(&self.shown.chosen, self.joined); // so the places are numbers that fit
        let (from, to) = (self.run.from + from as usize, self.run.from + to as usize);
        let tables = Tables {
            left: self.segment,
            first: self.run.first,
            right: self.right,
        };
        add_shown(cells, &tables, self.joined, self.shown, col, from..to)
    }
}
