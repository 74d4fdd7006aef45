//! How a segment is built, row by row.

ghost use Rattle.std.specs.Prelude.{◌≡◌, ◌<◌, ◌≤◌, ◌+◌, ◌-◌, ◌^◌, ◌++◌, ◌∷◌, [], true, map, length, All, OnOk, OnErr, IfOk};
ghost use Rattle.rj_columns.specs.Contents.{content_of};
ghost use Rattle.rj_columns.specs.Internal.Columns.{AreFull, cut, changed, without_last, without, grown_by};
ghost use Rattle.rj_columns.specs.Tables.{FitsAt, FitsTypes, with_row};

use crate::cell::{Cell, ColumnType};
use crate::column::Column;
use crate::segment::{SEGMENT_ROWS, Segment};
use std::alloc::{AllocError, Global};
use std::marker::Model;

/// A segment that is being built, row by row, as a [`crate::TableBuilder`] builds a table. The
/// cells of the row at hand come after the others in the first columns.
#[derive(Drop)]
pub(crate) struct SegmentBuilder {
    columns: Vec<Column>,
    rows: u64,
    filled: usize,
}

impl Model for SegmentBuilder {
    ghost use Rattle.std.specs.Prelude.{take};
    ghost use Rattle.rj_columns.specs.Tables.{BuilderValue};

    ghost Value = { BuilderValue };

    ghost use Rattle.rj_columns.specs.Internal.Columns.{segment_of, row_at, AreColumns};

    ghost view = { λ a. record { table = segment_of a.columns.items a.rows; row = row_at (take a.filled a.columns.items) a.rows } };

    ghost invariant = { λ a. AreColumns a.columns.items a.filled a.rows };
}

// Empty columns of these types.
fn empty_columns(alloc: Global, types: &[ColumnType]) -> Result<Vec<Column>, AllocError>
    ensures { IfOk result (λ v. (map (λ c. c.kind) v.items ≡ types.now) × AreFull v.items 0) }
{
    let mut columns = Vec::new(alloc);
    for kind in types {
        columns.push(Column::new(alloc, *kind))?;
    }
    Ok(columns)
}

// Makes room for rows, as far as memory allows.
fn reserve_all(columns: &mut Vec<Column>, rows: usize)
    ensures { columns.new.items ≡ columns.old.items }
{
    for i in 0..columns.len() {
        if columns[i].reserve(rows, 0).is_err() {
            return;
        }
    }
}

// Cuts the first columns back to these rows.
fn cut_back(columns: &mut Vec<Column>, filled: usize, rows: usize)
    requires { filled ≤ length columns.old.items }
    ensures { columns.new.items ≡ cut rows filled columns.old.items }
{
    for i in 0..filled {
        columns[i].truncate(rows);
    }
}

// Drops the last cells of the first columns.
fn pop_each(columns: &mut Vec<Column>, pushed: usize)
    requires { pushed ≤ length columns.old.items }
    ensures { columns.new.items ≡ changed without_last pushed columns.old.items }
{
    for i in 0..pushed {
        columns[i].pop();
    }
}

// Drops the cells of the first columns at a row.
fn remove_each(columns: &mut Vec<Column>, filled: usize, row: usize)
    requires { filled ≤ length columns.old.items }
    ensures { columns.new.items ≡ changed (without row) filled columns.old.items }
{
    for i in 0..filled {
        columns[i].remove(row);
    }
}

// Adds a cell to each column. If memory runs out, the columns stay as they were.
fn push_each(columns: &mut Vec<Column>, cells: &[Cell<'_>]) -> Result<(), AllocError>
    requires { FitsTypes (map (λ c. c.kind) columns.old.items) (map content_of cells.now) }
    ensures ok { OnOk result (columns.new.items ≡ grown_by (map content_of cells.now) columns.old.items) }
    ensures err { OnErr result (columns.new.items ≡ columns.old.items) }
{
    for i in 0..cells.len() {
        if columns[i].push(cells[i]).is_err() {
            pop_each(columns, i);
            return Err(AllocError);
        }
    }
    Ok(())
}

// Empty columns of the types of others, each with the room that `Column::next` asks for.
fn next_columns(columns: &Vec<Column>) -> Result<Vec<Column>, AllocError>
    ensures { IfOk result (λ v. (map (λ c. c.kind) v.items ≡ map (λ c. c.kind) columns.now.items) × AreFull v.items 0) }
{
    let alloc = *columns.allocator();
    let mut next = Vec::with_capacity(alloc, columns.len())?;
    for column in columns.as_slice() {
        next.push(column.next(alloc))?;
    }
    Ok(next)
}

impl SegmentBuilder {
    // A segment with columns of these types, and no rows yet.
    pub(crate) fn new(alloc: Global, types: &[ColumnType]) -> Result<SegmentBuilder, AllocError>
        ensures { IfOk result (λ b. b ≡ record { table = record { names = []; types = types.now; rows = [] }; row = [] }) }
    {
        Ok(SegmentBuilder {
            columns: empty_columns(alloc, types)?,
            rows: 0,
            filled: 0,
        })
    }

    // A segment to follow this one, with columns of the same types and no rows yet. As far as
    // memory allows, it has room for as many rows as a segment has, and for texts as long as this
    // one's and an eighth more.
    pub(crate) fn next(&self) -> Result<SegmentBuilder, AllocError>
        ensures { IfOk result (λ b. b ≡ record { table = record self.now.table { rows = [] }; row = [] }) }
    {
        Ok(SegmentBuilder {
            columns: next_columns(&self.columns)?,
            rows: 0,
            filled: 0,
        })
    }

    // A segment to which rows are added.
    pub(crate) fn of(segment: Segment) -> SegmentBuilder
        ensures { result ≡ record { table = segment; row = [] } }
    {
        let (columns, rows) = segment.into_parts();
        SegmentBuilder {
            columns,
            rows,
            filled: 0,
        }
    }

    // Whether it has all rows that it is meant to have, and no cell of another one.
    #[inline]
    pub(crate) fn is_full(&self) -> bool
        ensures { result ≡ true → self.now.row ≡ [] }
    {
        self.filled == 0 && self.rows >= SEGMENT_ROWS as u64
    }

    // Makes room for more rows, as far as memory allows. The segment stays the same.
    pub(crate) fn reserve(&mut self, rows: usize)
        ensures { self.new ≡ self.old }
    {
        reserve_all(&mut self.columns, rows);
    }

    // Adds a cell to the row at hand. If memory runs out, nothing is changed.
    #[inline(always)]
    pub(crate) fn push_cell(&mut self, cell: Cell<'_>) -> Result<(), AllocError>
        requires { FitsAt self.old.table.types (length self.old.row) (content_of cell) }
        ensures ok { OnOk result (self.new ≡ record self.old { row = self.old.row ++ content_of cell.entry ∷ [] }) }
        ensures err { OnErr result (self.new ≡ self.old) }
    {
        let at = self.filled;
        self.columns[at].push(cell)?;
        self.filled = at + 1;
        Ok(())
    }

    // Drops the cells of the row at hand.
    fn drop_row(&mut self)
        ensures { self.new ≡ record self.old { row = [] } }
    {
        cut_back(&mut self.columns, self.filled, self.rows as usize);
        self.filled = 0;
    }

    // Ends the row at hand, which has a cell for each column.
    #[inline]
    pub(crate) fn end_row(&mut self)
        requires full { length self.old.row ≡ length self.old.table.types }
        requires room { length self.old.table.rows < 2 ^ 31 - 1 }
        ensures ended { self.new ≡ record { table = with_row self.old.table self.old.row; row = [] } }
        ensures typed { FitsTypes self.old.table.types self.old.row }
    {
        self.rows += 1;
        self.filled = 0;
    }

    // How many rows it has so far.
    #[inline]
    pub(crate) fn rows(&self) -> u64
        ensures { result ≡ length self.now.table.rows }
    {
        self.rows
    }

    // Adds a row, and drops a row at hand. If memory runs out, nothing is changed.
    pub(crate) fn push_row(&mut self, cells: &[Cell<'_>]) -> Result<(), AllocError>
        requires fits { FitsTypes self.old.table.types (map content_of cells.now) }
        requires room { length self.old.table.rows < 2 ^ 31 - 1 }
        ensures ok { OnOk result (self.new ≡ record { table = with_row self.old.table (map content_of cells.now); row = [] }) }
        ensures err { OnErr result (self.new ≡ self.old) }
    {
        push_each(&mut self.columns, cells)?;
        let rows = self.rows;
        remove_each(&mut self.columns, self.filled, rows as usize);
        self.rows = rows + 1;
        self.filled = 0;
        Ok(())
    }

    // The segment of the rows so far. Cells of a row that was not ended are dropped.
    pub(crate) fn finish(self) -> Segment
        ensures { result ≡ self.table }
    {
        let mut builder = self;
        builder.drop_row();
        let SegmentBuilder {
            columns,
            rows,
            filled: _,
        } = builder;
        Segment { columns, rows }
    }
}
