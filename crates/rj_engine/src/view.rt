//! The header and the cells of a joined table, borrowed from its two tables.

ghost use Rattle.std.specs.Prelude.{◌≡◌, ◌<◌, ◌≤◌, ◌++◌, map, length, true, Some, slice_get, IfOk, OnOk, All};
ghost use Rattle.rj_columns.specs.Contents.{content_of};
ghost use Rattle.rj_condition.specs.Fits.{fits};
ghost use Rattle.rj_engine.specs.Results.{joined_of};
ghost use Rattle.rj_engine.specs.Chosen.{chosen_header, chosen_view};
ghost use Rattle.rj_engine.specs.Cells.{header_of, view_of, columns_of, name_of, IsColumnOf};

use crate::cells::Tables;
use crate::chosen_columns::chosen_origins;
use crate::chosen_rows::{count_of, row_at};
use crate::joined::Joined;
use crate::origin::{Origin, name_at, origins};
use crate::shown::{Shown, add_shown, cell_at};
use rj_columns::{Cell, RowSource, Table};
use rj_condition::BoundJoin;
use rj_settings::Choice;
use std::alloc::{AllocError, Global};
use std::marker::Model;

/// The rows of cells of a joined table, borrowed from its two tables. No cell is copied.
pub struct View<'a> {
    left: &'a Table,
    right: &'a Table,
    joined: &'a Joined,
    shown: Shown,
}

impl<'a> Model for View<'a> {
    ghost use Rattle.std.specs.Prelude.{◌≡◌};
    ghost use Rattle.rj_engine.specs.Cells.{ViewValue};
    ghost use Rattle.rj_engine.specs.Shown.{shown_view, IsShownOf};

    ghost Value = { ViewValue };

    ghost view = { λ a. shown_view a.shown a.left.now a.right.now a.joined.now.members };

    ghost invariant = { λ a. IsShownOf a.left.now a.right.now a.joined.now.members a.shown };
}

impl<'a> Drop for View<'a> {
    fn drop(self) {
        let View {
            left: _,
            right: _,
            joined: _,
            shown: _,
        } = self;
    }
}

impl<'a> View<'a> {
    /// The rows of a joined table of these tables by this join, which was bound to them.
    ///
    /// # Errors
    ///
    /// It fails only when memory runs out.
    pub fn open(
        alloc: Global,
        left: &'a Table,
        right: &'a Table,
        join: &BoundJoin,
        joined: &'a Joined,
    ) -> Result<View<'a>, AllocError>
        requires bound { fits join.now left.now.types right.now.types ≡ true }
        requires joined { joined.now.members ≡ joined_of join.now left.now right.now }
        ensures { IfOk result (λ v. v ≡ view_of join.now left.now right.now) }
    {
        let shown = Shown::all(alloc, left, right, join, joined)?;
        Ok(View {
            left,
            right,
            joined,
            shown,
        })
    }

    /// The rows of a joined table of these tables by this join, which was bound to them: the chosen
    /// rows, with the chosen columns. Names play no part. Unless all rows are chosen in their own
    /// order, a row takes 12 bytes.
    ///
    /// # Errors
    ///
    /// It fails only when memory runs out.
    pub fn choose(
        alloc: Global,
        left: &'a Table,
        right: &'a Table,
        join: &BoundJoin,
        joined: &'a Joined,
        choice: &Choice<'_>,
    ) -> Result<View<'a>, AllocError>
        requires bound { fits join.now left.now.types right.now.types ≡ true }
        requires joined { joined.now.members ≡ joined_of join.now left.now right.now }
        ensures { IfOk result (λ v. v ≡ chosen_view choice.now join.now left.now right.now) }
    {
        let shown = Shown::choose(alloc, left, right, join, joined, choice)?;
        Ok(View {
            left,
            right,
            joined,
            shown,
        })
    }
}

impl<'a> RowSource for View<'a> {
    ghost contents = { λ v. v.cells };

    ghost width = { λ v. v.width };

    fn rows(&self) -> u64 {
        count_of(&self.shown.chosen, self.joined) as u64
    }

    fn columns(&self) -> usize {
        self.shown.origins.len()
    }

    fn cell(&self, row: u64, col: usize) -> Cell<'_> {
        let member = row_at(&self.shown.chosen, self.joined, row as usize);
        let (origin, scale) = (self.shown.origins[col], self.shown.scales[col]);
        cell_at(self.left, self.right, member, origin, scale)
    }

    fn cells<'s>(
        &'s self,
        cells: &mut Vec<Cell<'s>>,
        col: usize,
        from: u64,
        to: u64,
    ) -> Result<(), AllocError> {
        let (from, to) = (from as usize, to as usize);
        let tables = Tables {
            left: self.left,
            first: 0,
            right: self.right,
        };
        add_shown(cells, &tables, self.joined, &self.shown, col, from..to)
    }
}

/// The names of the columns of the joined table of these tables by this join, which was bound to them.
///
/// # Errors
///
/// It fails only when memory runs out.
pub fn header<'a>(
    alloc: Global,
    left: &'a Table,
    right: &'a Table,
    join: &BoundJoin,
) -> Result<Vec<&'a str>, AllocError>
    requires { fits join.now left.now.types right.now.types ≡ true }
    ensures { IfOk result (λ v. map (λ n. n.now) v.items ≡ header_of join.now left.now right.now) }
{
    let columns = origins(alloc, join.partners(), right.columns())?;
    let names = names_of(alloc, left, right, &columns)?;
    Ok(names)
}

/// The names that the chosen columns of the joined table have in these tables. The join was bound
/// to them.
///
/// # Errors
///
/// It fails only when memory runs out.
pub fn chosen_header<'a>(
    alloc: Global,
    left: &'a Table,
    right: &'a Table,
    join: &BoundJoin,
    choice: &Choice<'_>,
) -> Result<Vec<&'a str>, AllocError>
    requires { fits join.now left.now.types right.now.types ≡ true }
    ensures { IfOk result (λ v. map (λ n. n.now) v.items ≡ chosen_header choice.now join.now left.now right.now) }
{
    let columns = chosen_origins(alloc, left, right, join, &choice.columns)?;
    let names = names_of(alloc, left, right, &columns)?;
    Ok(names)
}

// The names of these columns.
fn names_of<'a>(
    alloc: Global,
    left: &'a Table,
    right: &'a Table,
    columns: &[Origin],
) -> Result<Vec<&'a str>, AllocError>
    requires { All (IsColumnOf left.now right.now) columns.now }
    ensures { IfOk result (λ v. map (λ n. n.now) v.items ≡ map (name_of left.now right.now) columns.now) }
{
    let mut names = Vec::new(alloc);
    for origin in columns {
        names.push(name_at(left, right, *origin))?;
    }
    Ok(names)
}
