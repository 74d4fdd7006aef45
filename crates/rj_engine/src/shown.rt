//! What is shown of a joined table, without its two tables.

ghost use Rattle.std.specs.Prelude.{◌≡◌, ◌<◌, ◌≤◌, ◌++◌, All, IfOk, OnOk, Some, length, map, slice_get, slice_index_or, true};
ghost use Rattle.rj_columns.specs.Contents.{content_of};
ghost use Rattle.rj_condition.specs.Fits.{fits};
ghost use Rattle.rj_engine.specs.Cells.{joined_cell, left_cell, members_rows, right_cell, scale_of, shown_scale, view_of};
ghost use Rattle.rj_engine.specs.Cells.{IsColumnOf, IsLeftRow, IsMemberOf, IsRightRow, IsScaledWithin};
ghost use Rattle.rj_engine.specs.Chosen.{chosen_view, shown_rows};
ghost use Rattle.rj_engine.specs.Join.{rows_in};
ghost use Rattle.rj_engine.specs.Results.{joined_of};
ghost use Rattle.rj_engine.specs.Shown.{HasColumnsOf, IsShownOf, counted_from, rows_between, shown_view};
ghost use Rattle.rj_engine.specs.declared.origin.Origin.{Origin};

use crate::cells::{Tables, add_coalesced, add_left, add_right};
use crate::chosen_columns::chosen_origins;
use crate::chosen_rows::choose_rows;
use crate::joined::{Joined, JoinedRow, Members};
use crate::origin::{Origin, origins};
use rj_columns::{Cell, ColumnType, Table, coalesce, in_scale};
use rj_condition::BoundJoin;
use rj_settings::Choice;
use std::alloc::{AllocError, Global};
use std::ops::Range;

/// What is shown of a joined table: which of its members, in which order, and which of its columns.
/// It holds no cell and no table, so the left table can be taken apart.
pub struct Shown {
    // The members that are shown, unless these are all of the joined table in its order.
    pub(crate) chosen: Option<Vec<JoinedRow>>,
    pub(crate) origins: Vec<Origin>,
    // The scale of each column that is coalesced.
    pub(crate) scales: Vec<u8>,
}

impl Drop for Shown {
    fn drop(self) {
        let Shown {
            chosen: _,
            origins: _,
            scales: _,
        } = self;
    }
}

impl Shown {
    // All of a joined table of these tables, in its own order.
    pub(crate) fn all(
        alloc: Global,
        left: &Table,
        right: &Table,
        join: &BoundJoin,
        joined: &Joined,
    ) -> Result<Shown, AllocError>
        requires bound { fits join.now left.now.types right.now.types ≡ true }
        requires joined { joined.now.members ≡ joined_of join.now left.now right.now }
        ensures view { IfOk result (λ s. shown_view s left.now right.now joined.now.members ≡ view_of join.now left.now right.now) }
        ensures there { IfOk result (IsShownOf left.now right.now joined.now.members) }
    {
        let _joined = joined;
        let origins = origins(alloc, join.partners(), right.columns())?;
        let scales = scales_of(alloc, left, right, &origins)?;
        Ok(Shown {
            chosen: None,
            origins,
            scales,
        })
    }

    /// What a choice asks for of a joined table of these tables by this join, which was bound to
    /// them: the chosen rows, with the chosen columns. Names play no part. Unless all rows are
    /// chosen in their own order, a row takes 12 bytes.
    ///
    /// # Errors
    ///
    /// It fails only when memory runs out.
    pub fn choose(
        alloc: Global,
        left: &Table,
        right: &Table,
        join: &BoundJoin,
        joined: &Joined,
        choice: &Choice<'_>,
    ) -> Result<Shown, AllocError>
        requires bound { fits join.now left.now.types right.now.types ≡ true }
        requires joined { joined.now.members ≡ joined_of join.now left.now right.now }
        ensures view { IfOk result (λ s. shown_view s left.now right.now joined.now.members ≡ chosen_view choice.now join.now left.now right.now) }
        ensures there { IfOk result (IsShownOf left.now right.now joined.now.members) }
    {
        let chosen = choose_rows(alloc, joined, left.rows() as u32, choice)?;
        let origins = chosen_origins(alloc, left, right, join, &choice.columns)?;
        let scales = scales_of(alloc, left, right, &origins)?;
        Ok(Shown {
            chosen,
            origins,
            scales,
        })
    }
}

/// Adds the cells of a column at the members that are shown, at these places.
pub(crate) fn add_shown<'s>(
    cells: &mut Vec<Cell<'s>>,
    tables: &Tables<'s>,
    joined: &Joined,
    shown: &Shown,
    col: usize,
    places: Range<usize>,
) -> Result<(), AllocError>
    requires order { places.start ≤ places.end }
    requires within { places.end ≤ length (shown_rows shown.now.chosen joined.now.members) }
    requires rows { All (λ row. IsMemberOf tables.now.left.now tables.now.right.now (counted_from tables.now.first row))
        (rows_between places.start places.end (shown_rows shown.now.chosen joined.now.members)) }
    requires columns { HasColumnsOf tables.now.left.now tables.now.right.now shown.now }
    requires col { col < length shown.now.origins.items }
    ensures { (o : Origin) → OnOk result (map content_of cells.new.items ≡ map content_of cells.old.items
        ++ map (λ row. joined_cell tables.now.left.now tables.now.right.now (counted_from tables.now.first row) (slice_index_or shown.now.origins.items col o))
        (rows_between places.start places.end (shown_rows shown.now.chosen joined.now.members))) }
{
    let (origin, scale) = (shown.origins[col], shown.scales[col]);
    let (from, to) = (places.start, places.end);
    match &shown.chosen {
        Some(rows) => add_chosen(cells, tables, &rows[from..to], origin, scale),
        None => add_places(cells, tables, joined, places, origin, scale),
    }
}

// Adds the cells of the members at these places in a column that is given in this scale: of the
// matches list by list, and then of the unmatched rows.
fn add_places<'s>(
    cells: &mut Vec<Cell<'s>>,
    tables: &Tables<'s>,
    joined: &Joined,
    places: Range<usize>,
    origin: Origin,
    scale: u8,
) -> Result<(), AllocError>
    requires order { places.start ≤ places.end }
    requires rows { All (λ row. IsMemberOf tables.now.left.now tables.now.right.now (counted_from tables.now.first row))
        (rows_between places.start places.end (rows_in joined.now.members)) }
    requires column { IsColumnOf tables.now.left.now tables.now.right.now origin }
    requires scale { scale ≡ shown_scale tables.now.left.now tables.now.right.now origin }
    ensures { OnOk result (map content_of cells.new.items ≡ map content_of cells.old.items
        ++ map (λ row. joined_cell tables.now.left.now tables.now.right.now (counted_from tables.now.first row) origin)
        (rows_between places.start places.end (rows_in joined.now.members))) }
{
    let (from, to) = (places.start, places.end);
    let ranges = joined.kept_pairs().ranges();
    let mut before = 0usize;
    for range in ranges {
        let members = Members::of_range(range, before, from, to);
        add_members(cells, tables, members, origin, scale)?;
        before += range.len();
    }
    add_members(cells, tables, joined.lone_members(from, to), origin, scale)
}

// Adds the cells of consecutive members in a column that is given in this scale.
fn add_members<'s>(
    cells: &mut Vec<Cell<'s>>,
    tables: &Tables<'s>,
    members: Members<'_>,
    origin: Origin,
    scale: u8,
) -> Result<(), AllocError>
    requires rows { All (λ row. IsMemberOf tables.now.left.now tables.now.right.now (counted_from tables.now.first row)) (members_rows members) }
    requires column { IsColumnOf tables.now.left.now tables.now.right.now origin }
    requires scale { scale ≡ shown_scale tables.now.left.now tables.now.right.now origin }
    ensures { OnOk result (map content_of cells.new.items ≡ map content_of cells.old.items
        ++ map (λ row. joined_cell tables.now.left.now tables.now.right.now (counted_from tables.now.first row) origin) (members_rows members.entry)) }
{
    match origin {
        Origin::Coalesced(a, b) => add_coalesced(cells, tables, a, b, members, scale),
        Origin::Left(a) => add_left(cells, tables, a, members),
        Origin::Right(b) => add_right(cells, tables.right, b, members),
    }
}

/// A member whose left row is counted from this one on. Its left row isn't before it.
pub(crate) fn counted_from(first: u32, row: JoinedRow) -> JoinedRow
    ensures { result ≡ counted_from first row }
{
    match row {
        JoinedRow::Both(i, j) => JoinedRow::Both(i.saturating_sub(first), j),
        JoinedRow::LeftOnly(i) => JoinedRow::LeftOnly(i.saturating_sub(first)),
        JoinedRow::RightOnly(j) => JoinedRow::RightOnly(j),
    }
}

/// The cell of a member in a column that is given in this scale.
#[tactic(auto, using(crate::proofs::Scaled::coalesced_scaled, crate::proofs::Scaled::small_coalesced))]
pub(crate) fn cell_at<'a>(
    left: &'a Table,
    right: &'a Table,
    row: JoinedRow,
    origin: Origin,
    scale: u8,
) -> Cell<'a>
    requires row { IsMemberOf left.now right.now row }
    requires column { IsColumnOf left.now right.now origin }
    requires scale { scale ≡ shown_scale left.now right.now origin }
    ensures { content_of result ≡ joined_cell left.now right.now row origin }
{
    match origin {
        Origin::Coalesced(a, b) => {
            let first = cell_of_left(left, row, a);
            let second = cell_of_right(right, row, b);
            in_scale(coalesce(first, second), scale)
        }
        Origin::Left(a) => cell_of_left(left, row, a),
        Origin::Right(b) => cell_of_right(right, row, b),
    }
}

// Adds the cells of these members in a column that is given in this scale.
fn add_chosen<'s>(
    cells: &mut Vec<Cell<'s>>,
    tables: &Tables<'s>,
    rows: &[JoinedRow],
    origin: Origin,
    scale: u8,
) -> Result<(), AllocError>
    requires rows { All (λ row. IsMemberOf tables.now.left.now tables.now.right.now (counted_from tables.now.first row)) rows.now }
    requires column { IsColumnOf tables.now.left.now tables.now.right.now origin }
    requires scale { scale ≡ shown_scale tables.now.left.now tables.now.right.now origin }
    ensures { OnOk result (map content_of cells.new.items ≡ map content_of cells.old.items
        ++ map (λ row. joined_cell tables.now.left.now tables.now.right.now (counted_from tables.now.first row) origin) rows.now) }
{
    let (left, first, right) = (tables.left, tables.first, tables.right);
    for row in rows {
        let counted = counted_from(first, *row);
        cells.push(cell_at(left, right, counted, origin, scale))?;
    }
    Ok(())
}

// The cell of the left row, or NULL if that is missing.
#[tactic(auto, using(crate::proofs::Scaled::fits_scaled))]
fn cell_of_left<'a>(left: &'a Table, row: JoinedRow, col: usize) -> Cell<'a>
    requires row { IsLeftRow left.now row }
    requires col { col < length left.now.types }
    ensures content { content_of result ≡ left_cell left.now row col }
    ensures scaled { IsScaledWithin (scale_of (slice_get left.now.types col)) (content_of result) }
{
    match row {
        JoinedRow::Both(i, _) => left.cell(u64::from(i), col),
        JoinedRow::LeftOnly(i) => left.cell(u64::from(i), col),
        JoinedRow::RightOnly(_) => Cell::Null,
    }
}

// The cell of the right row, or NULL if that is missing.
#[tactic(auto, using(crate::proofs::Scaled::fits_scaled))]
fn cell_of_right<'a>(right: &'a Table, row: JoinedRow, col: usize) -> Cell<'a>
    requires row { IsRightRow right.now row }
    requires col { col < length right.now.types }
    ensures content { content_of result ≡ right_cell right.now row col }
    ensures scaled { IsScaledWithin (scale_of (slice_get right.now.types col)) (content_of result) }
{
    match row {
        JoinedRow::Both(_, j) => right.cell(u64::from(j), col),
        JoinedRow::LeftOnly(_) => Cell::Null,
        JoinedRow::RightOnly(j) => right.cell(u64::from(j), col),
    }
}

// The scales of the columns with these origins.
fn scales_of(
    alloc: Global,
    left: &Table,
    right: &Table,
    columns: &[Origin],
) -> Result<Vec<u8>, AllocError>
    requires { All (IsColumnOf left.now right.now) columns.now }
    ensures { IfOk result (λ v. v.items ≡ map (shown_scale left.now right.now) columns.now) }
{
    let mut scales = Vec::new(alloc);
    for origin in columns {
        scales.push(scale_at(left, right, *origin))?;
    }
    Ok(scales)
}

// The greater scale of two coalesced columns.
#[tactic(auto, using(crate::proofs::Scaled::greater_right, crate::proofs::Scaled::greater_left))]
fn scale_at(left: &Table, right: &Table, origin: Origin) -> u8
    requires { IsColumnOf left.now right.now origin }
    ensures { result ≡ shown_scale left.now right.now origin }
{
    match origin {
        Origin::Coalesced(a, b) => {
            let first = scale_of_type(left.column_type(a));
            let second = scale_of_type(right.column_type(b));
            if first < second { second } else { first }
        }
        Origin::Left(_) | Origin::Right(_) => 0,
    }
}

// The scale of the values of a type: how many decimal places they have.
fn scale_of_type(column_type: ColumnType) -> u8
    ensures { result ≡ scale_of (Some column_type) }
{
    match column_type {
        ColumnType::Int | ColumnType::Text => 0,
        ColumnType::Num(numeric) => numeric.scale,
    }
}
