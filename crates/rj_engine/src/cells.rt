//! The cells of a column, at consecutive members.

ghost use Rattle.std.specs.Prelude.{◌≡◌, ◌<◌, ◌≤◌, ◌-◌, ◌++◌, All, OnOk, length, map, slice_get};
ghost use Rattle.rj_columns.specs.Contents.{content_of, nothing};
ghost use Rattle.rj_columns.specs.Scales.{coalesced, in_scale};
ghost use Rattle.rj_columns.specs.Tables.{cell_of};
ghost use Rattle.rj_engine.specs.Cells.{coalesced_scale, joined_cell, left_cell, members_rows, right_cell, scale_of};
ghost use Rattle.rj_engine.specs.Cells.{IsLeftRow, IsMemberOf, IsRightRow};
ghost use Rattle.rj_engine.specs.Internal.Marks.{row_on};
ghost use Rattle.rj_engine.specs.Shown.{counted_from};
ghost use Rattle.rj_engine.specs.declared.origin.Origin.TheVariants as origin;

use crate::joined::Members;
use crate::marks::{PairSide, row_on};
use rj_columns::{Cell, Table, in_scale};
use std::alloc::AllocError;

/// The tables of some members: the left table, or a segment of it, which begins with the row of this
/// number, and the right table.
#[derive(Clone, Copy)]
pub(crate) struct Tables<'s> {
    pub(crate) left: &'s Table,
    pub(crate) first: u32,
    pub(crate) right: &'s Table,
}

// Adds the cells of a column at these rows of a table whose first row has this number.
fn add_rows<'s>(
    cells: &mut Vec<Cell<'s>>,
    table: &'s Table,
    first: u32,
    col: usize,
    rows: &[u32],
) -> Result<(), AllocError>
    requires rows { All (λ i. i - first < length table.now.rows) rows.now }
    requires col { col < length table.now.types }
    ensures { OnOk result (map content_of cells.new.items ≡ map content_of cells.old.items ++ map (λ i. cell_of table.now (i - first) col) rows.now) }
{
    for row in rows {
        let place = row.saturating_sub(first);
        cells.push(table.cell(u64::from(place), col))?;
    }
    Ok(())
}

// Adds the cells of a column at the rows of these pairs on a side, in a table whose first row has
// this number.
fn add_side<'s>(
    cells: &mut Vec<Cell<'s>>,
    table: &'s Table,
    first: u32,
    col: usize,
    pairs: &[(u32, u32)],
    side: PairSide,
) -> Result<(), AllocError>
    requires rows { All (λ p. row_on side p - first < length table.now.rows) pairs.now }
    requires col { col < length table.now.types }
    ensures { OnOk result (map content_of cells.new.items ≡ map content_of cells.old.items ++ map (λ p. cell_of table.now (row_on side p - first) col) pairs.now) }
{
    for pair in pairs {
        let place = row_on(side, *pair).saturating_sub(first);
        cells.push(table.cell(u64::from(place), col))?;
    }
    Ok(())
}

// Adds a NULL for each of these rows.
fn add_nulls(cells: &mut Vec<Cell<'_>>, rows: &[u32]) -> Result<(), AllocError>
    ensures { OnOk result (map content_of cells.new.items ≡ map content_of cells.old.items ++ map (λ i. nothing) rows.now) }
{
    for _row in rows {
        cells.push(Cell::Null)?;
    }
    Ok(())
}

/// Adds the cells of a column of the left table. A member without a left row has NULL.
pub(crate) fn add_left<'s>(
    cells: &mut Vec<Cell<'s>>,
    tables: &Tables<'s>,
    col: usize,
    members: Members<'_>,
) -> Result<(), AllocError>
    requires rows { All (λ m. IsLeftRow tables.now.left.now (counted_from tables.now.first m)) (members_rows members) }
    requires col { col < length tables.now.left.now.types }
    ensures { OnOk result (map content_of cells.new.items
        ≡ map content_of cells.old.items ++ map (λ m. left_cell tables.now.left.now (counted_from tables.now.first m) col) (members_rows members.entry)) }
{
    let (left, first) = (tables.left, tables.first);
    add_side(cells, left, first, col, members.pairs, PairSide::Left)?;
    add_rows(cells, left, first, col, members.lone_left)?;
    add_nulls(cells, members.lone_right)?;
    Ok(())
}

/// Adds the cells of a column of the right table. A member without a right row has NULL.
pub(crate) fn add_right<'s>(
    cells: &mut Vec<Cell<'s>>,
    right: &'s Table,
    col: usize,
    members: Members<'_>,
) -> Result<(), AllocError>
    requires rows { All (IsRightRow right.now) (members_rows members) }
    requires col { col < length right.now.types }
    ensures { OnOk result (map content_of cells.new.items
        ≡ map content_of cells.old.items ++ map (λ m. right_cell right.now m col) (members_rows members.entry)) }
{
    add_side(cells, right, 0, col, members.pairs, PairSide::Right)?;
    add_nulls(cells, members.lone_left)?;
    add_rows(cells, right, 0, col, members.lone_right)?;
    Ok(())
}

// The cell at a row, given in a scale that is at least that of its column.
#[tactic(auto, using(crate::proofs::Scaled::fits_scaled, crate::proofs::Scaled::wider))]
fn cell_in_scale<'s>(table: &'s Table, row: u32, col: usize, scale: u8) -> Cell<'s>
    requires row { row < length table.now.rows }
    requires col { col < length table.now.types }
    requires scale { (scale_of (slice_get table.now.types col) ≤ scale) × (scale ≤ 18) }
    ensures { content_of result ≡ in_scale scale (cell_of table.now row col) }
{
    in_scale(table.cell(u64::from(row), col), scale)
}

// Adds the cells of a column at these rows of a table whose first row has this number, given in a
// scale that is at least that of the column.
fn add_rows_in_scale<'s>(
    cells: &mut Vec<Cell<'s>>,
    table: &'s Table,
    first: u32,
    col: usize,
    rows: &[u32],
    scale: u8,
) -> Result<(), AllocError>
    requires rows { All (λ i. i - first < length table.now.rows) rows.now }
    requires col { col < length table.now.types }
    requires scale { (scale_of (slice_get table.now.types col) ≤ scale) × (scale ≤ 18) }
    ensures { OnOk result (map content_of cells.new.items
        ≡ map content_of cells.old.items ++ map (λ i. in_scale scale (cell_of table.now (i - first) col)) rows.now) }
{
    for row in rows {
        let place = row.saturating_sub(first);
        cells.push(cell_in_scale(table, place, col, scale))?;
    }
    Ok(())
}

// The first cell of a pair that is not NULL, in the greater scale. The right row is looked at only
// if the left cell is NULL.
#[tactic(auto, using(crate::proofs::Scaled::fits_scaled, crate::proofs::Scaled::wider, crate::proofs::Scaled::small_coalesced))]
fn coalesced_cell<'s>(
    left: &'s Table,
    a: usize,
    right: &'s Table,
    b: usize,
    pair: (u32, u32),
    scale: u8,
) -> Cell<'s>
    requires rows { (pair.0 < length left.now.rows) × (pair.1 < length right.now.rows) }
    requires cols { (a < length left.now.types) × (b < length right.now.types) }
    requires scale { scale ≡ coalesced_scale left.now right.now a b }
    ensures { content_of result ≡ in_scale scale (coalesced (cell_of left.now pair.0 a) (cell_of right.now pair.1 b)) }
{
    let first = left.cell(u64::from(pair.0), a);
    if first.is_null() {
        return cell_in_scale(right, pair.1, b, scale);
    }
    in_scale(first, scale)
}

// Adds the coalesced cells of these pairs.
fn add_coalesced_pairs<'s>(
    cells: &mut Vec<Cell<'s>>,
    tables: &Tables<'s>,
    a: usize,
    b: usize,
    pairs: &[(u32, u32)],
    scale: u8,
) -> Result<(), AllocError>
    requires rows { All (λ p. (p.0 - tables.now.first < length tables.now.left.now.rows) × (p.1 < length tables.now.right.now.rows)) pairs.now }
    requires cols { (a < length tables.now.left.now.types) × (b < length tables.now.right.now.types) }
    requires scale { scale ≡ coalesced_scale tables.now.left.now tables.now.right.now a b }
    ensures { OnOk result (map content_of cells.new.items ≡ map content_of cells.old.items
        ++ map (λ p. in_scale scale (coalesced (cell_of tables.now.left.now (p.0 - tables.now.first) a) (cell_of tables.now.right.now p.1 b))) pairs.now) }
{
    let (left, first, right) = (tables.left, tables.first, tables.right);
    for pair in pairs {
        let places = (pair.0.saturating_sub(first), pair.1);
        cells.push(coalesced_cell(left, a, right, b, places, scale))?;
    }
    Ok(())
}

/// Adds the cells of two coalesced columns: the first that is not NULL, in the greater scale.
pub(crate) fn add_coalesced<'s>(
    cells: &mut Vec<Cell<'s>>,
    tables: &Tables<'s>,
    a: usize,
    b: usize,
    members: Members<'_>,
    scale: u8,
) -> Result<(), AllocError>
    requires rows { All (λ m. IsMemberOf tables.now.left.now tables.now.right.now (counted_from tables.now.first m)) (members_rows members) }
    requires cols { (a < length tables.now.left.now.types) × (b < length tables.now.right.now.types) }
    requires scale { scale ≡ coalesced_scale tables.now.left.now tables.now.right.now a b }
    ensures { OnOk result (map content_of cells.new.items ≡ map content_of cells.old.items
        ++ map (λ m. joined_cell tables.now.left.now tables.now.right.now (counted_from tables.now.first m) (origin.Coalesced a b)) (members_rows members.entry)) }
{
    let (left, first, right) = (tables.left, tables.first, tables.right);
    add_coalesced_pairs(cells, tables, a, b, members.pairs, scale)?;
    add_rows_in_scale(cells, left, first, a, members.lone_left, scale)?;
    add_rows_in_scale(cells, right, 0, b, members.lone_right, scale)?;
    Ok(())
}
