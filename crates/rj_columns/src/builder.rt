//! How a table is built, row by row.

ghost use Rattle.std.specs.Prelude.{◌≡◌, ◌<◌, ◌-◌, ◌^◌, ◌++◌, ◌∷◌, [], map, length, OnOk, OnErr, IfOk, IfErr, Ok, Err, ◌≢◌};
ghost use Rattle.rj_columns.specs.Names.{empty_table};
ghost use Rattle.rj_columns.specs.Contents.{content_of};
ghost use Rattle.rj_columns.specs.Tables.{FitsAt, FitsTypes, with_row};

use crate::cell::{Cell, ColumnType};
use crate::names::{Names, lawful_names};
use crate::refused::BuildRefused;
use crate::segment::SEGMENT_ROWS;
use crate::segment_builder::SegmentBuilder;
use crate::segments::Segments;
use crate::table::Table;
use std::alloc::{AllocError, Global};
use std::marker::Model;
use std::mem;

const MAX_COLUMNS: usize = 256;

/// A table that is being built, row by row.
///
/// A row is added whole by `push_row`, or cell by cell by `push_cell` and then `end_row`. Cells
/// that were pushed and not ended are the row at hand, which isn't yet part of the table.
#[derive(Drop)]
pub struct TableBuilder {
    names: Names,
    // The segments that are full, and the one that gets the rows.
    closed: Segments,
    current: SegmentBuilder,
}

impl Model for TableBuilder {
    ghost use Rattle.rj_columns.specs.Tables.{BuilderValue};

    ghost Value = { BuilderValue };

    ghost use Rattle.rj_columns.specs.Internal.Segments.{table_in, AreSegments};

    ghost view = { λ a. record { table = table_in a.names a.closed a.current.table; row = a.current.row } };

    ghost invariant = { λ a. AreSegments a.names a.closed a.current.table };
}

impl TableBuilder {
    /// A table with these columns and no rows yet.
    ///
    /// # Errors
    ///
    /// Errors are reported in this order: `TooManyColumns` over 256 names; name by name from the
    /// left `BadName` for one that isn't 1 to 128 bytes of UTF-8, and `RepeatedName` for one that
    /// repeats an earlier name when ASCII case is ignored; `TypeCount` if types and names differ in
    /// number. `Memory` means out of memory.
    pub fn new(
        alloc: Global,
        names: &[&[u8]],
        types: &[ColumnType],
    ) -> Result<TableBuilder, BuildRefused>
        ensures table { IfOk result (λ b. (empty_table (map (λ n. n.now) names.now) types.now ≡ Ok b.table) × (b.row ≡ [])) }
        ensures names { IfOk result (λ b. b.table.names ≡ map (λ n. n.now) names.now) }
        ensures columns { IfOk result (λ b. (b.table.types ≡ types.now) × (b.table.rows ≡ [])) }
        ensures fault { IfErr result (λ e. e ≢ BuildRefused.Memory → empty_table (map (λ n. n.now) names.now) types.now ≡ Err e) }
    {
        if names.len() > MAX_COLUMNS {
            return Err(BuildRefused::TooManyColumns);
        }
        let names = match lawful_names(alloc, names) {
            Ok(names) => names,
            Err(e) => return Err(e),
        };
        if names.len() != types.len() {
            return Err(BuildRefused::TypeCount);
        }
        match SegmentBuilder::new(alloc, types) {
            Ok(current) => Ok(TableBuilder {
                names,
                closed: Segments::new(alloc),
                current,
            }),
            Err(_) => Err(BuildRefused::Memory),
        }
    }

    /// Makes room for more rows, 65,536 at most, as far as memory allows. The table stays the same.
    pub fn reserve(&mut self, rows: usize)
        ensures { self.new ≡ self.old }
    {
        self.current.reserve(rows.min(SEGMENT_ROWS));
    }

    /// Adds a cell to the row at hand. There must be a column for it, and it is NULL or of that
    /// column's type.
    ///
    /// # Errors
    ///
    /// It fails only when memory runs out. The builder then stays as it was.
    #[inline(always)]
    pub fn push_cell(&mut self, cell: Cell<'_>) -> Result<(), AllocError>
        requires { FitsAt self.old.table.types (length self.old.row) (content_of cell) }
        ensures ok { OnOk result (self.new ≡ record self.old { row = self.old.row ++ content_of cell.entry ∷ [] }) }
        ensures err { OnErr result (self.new ≡ self.old) }
    {
        self.make_room()?;
        self.current.push_cell(cell)
    }

    // Begins another segment. The row at hand has no cell. If memory runs out, nothing is changed.
    #[cold]
    #[inline(never)]
    fn close(&mut self) -> Result<(), AllocError>
        requires { self.old.row ≡ [] }
        ensures { self.new ≡ self.old }
    {
        let next = self.current.next()?;
        let full = mem::replace(&mut self.current, next).finish();
        match self.closed.push(full) {
            Ok(()) => Ok(()),
            Err(full) => {
                self.current = SegmentBuilder::of(full);
                Err(AllocError)
            }
        }
    }

    // Begins another segment if the current one is full. If memory runs out, nothing is changed.
    #[inline(always)]
    fn make_room(&mut self) -> Result<(), AllocError>
        ensures { self.new ≡ self.old }
    {
        if self.current.is_full() {
            self.close()?;
        }
        Ok(())
    }

    /// Ends the row at hand, which has a cell for each column. The table has fewer than 2^31 - 1
    /// rows before.
    #[inline]
    pub fn end_row(&mut self)
        requires full { length self.old.row ≡ length self.old.table.types }
        requires room { length self.old.table.rows < 2 ^ 31 - 1 }
        ensures { self.new ≡ record { table = with_row self.old.table self.old.row; row = [] } }
    {
        self.current.end_row();
    }

    /// How many rows it has so far.
    pub fn rows(&self) -> u64
        ensures { result ≡ length self.now.table.rows }
    {
        self.closed.rows() + self.current.rows()
    }

    /// Adds a row: one cell a column, each NULL or of the column's type. The table has fewer than
    /// 2^31 - 1 rows before. A row at hand is dropped.
    ///
    /// # Errors
    ///
    /// It fails only when memory runs out. The builder then stays as it was, and so does its row at
    /// hand.
    pub fn push_row(&mut self, cells: &[Cell<'_>]) -> Result<(), AllocError>
        requires fits { FitsTypes self.old.table.types (map content_of cells.now) }
        requires room { length self.old.table.rows < 2 ^ 31 - 1 }
        ensures ok { OnOk result (self.new ≡ record { table = with_row self.old.table (map content_of cells.now); row = [] }) }
        ensures err { OnErr result (self.new ≡ self.old) }
    {
        self.make_room()?;
        self.current.push_row(cells)
    }

    /// The table of the rows so far. Cells of a row that was not ended are dropped.
    pub fn finish(self) -> Table
        ensures { result ≡ self.table }
    {
        let TableBuilder {
            names,
            closed,
            current,
        } = self;
        Table {
            names,
            closed,
            last: current.finish(),
        }
    }
}
