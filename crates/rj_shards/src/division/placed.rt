//! Some rows of a table, each with its place as a last cell.

ghost use Rattle.std.specs.Prelude.{◌≡◌, ◌<◌, ◌+◌, ◌^◌, ◌++◌, map, length, All, OnOk};
ghost use Rattle.rj_columns.specs.Contents.{content_of};
ghost use Rattle.rj_shards.specs.Placed.{rows_at, placed_cell_of};

use rj_columns::{Cell, RowSource, Table};
use std::alloc::AllocError;
use std::marker::Model;

/// Some rows of a table, each with its place as a last cell, a whole number. The place is the
/// number of the row, counted on from the place of the table's first row. No cell is copied.
pub(crate) struct PlacedRows<'a> {
    table: &'a Table,
    rows: &'a [u32],
    first: u64,
}

impl<'a> Model for PlacedRows<'a> {
    ghost use Rattle.std.specs.Prelude.{◌<◌, ◌+◌, ◌^◌, length, All};
    ghost use Rattle.rj_shards.specs.Placed.{rows_at, placed_cell_of, PlacedValue};

    ghost Value = { PlacedValue };

    ghost view = { λ a. record { cells = rows_at a.table.now.rows a.first a.rows.now; width = length a.table.now.types + 1 } };

    ghost invariant = { λ a. All (λ i. i < length a.table.now.rows) a.rows.now × (a.first + length a.table.now.rows < 2 ^ 63) };
}

impl<'a> Drop for PlacedRows<'a> {
    fn drop(self) {
        let PlacedRows {
            table: _,
            rows: _,
            first: _,
        } = self;
    }
}

impl<'a> PlacedRows<'a> {
    /// These rows of a table, whose first row has this place.
    pub(crate) fn new(table: &'a Table, rows: &'a [u32], first: u64) -> PlacedRows<'a>
        requires rows { All (λ i. i < length table.now.rows) rows.now }
        requires places { first + length table.now.rows < 2 ^ 63 }
        ensures { result ≡ record { cells = rows_at table.now.rows first rows.now; width = length table.now.types + 1 } }
    {
        PlacedRows { table, rows, first }
    }
}

// The cell of a row in a column, or its place if the column is after those of the table.
fn placed_cell<'a>(table: &'a Table, first: u64, row: u32, col: usize) -> Cell<'a>
    requires row { row < length table.now.rows }
    requires col { col < length table.now.types + 1 }
    requires place { first + length table.now.rows < 2 ^ 63 }
    ensures { content_of result ≡ placed_cell_of table.now.rows first row col }
{
    if col < table.columns() {
        table.cell(u64::from(row), col)
    } else {
        Cell::Int((first + u64::from(row)) as i64)
    }
}

// Adds the cells of a column at some rows.
fn add_cells<'a>(
    cells: &mut Vec<Cell<'a>>,
    table: &'a Table,
    first: u64,
    rows: &[u32],
    col: usize,
) -> Result<(), AllocError>
    requires rows { All (λ i. i < length table.now.rows) rows.now }
    requires col { col < length table.now.types + 1 }
    requires place { first + length table.now.rows < 2 ^ 63 }
    ensures { OnOk result (map content_of cells.new.items ≡ map content_of cells.old.items ++ map (λ i. placed_cell_of table.now.rows first i col) rows.now) }
{
    for row in rows {
        cells.push(placed_cell(table, first, *row, col))?;
    }
    Ok(())
}

impl<'a> RowSource for PlacedRows<'a> {
    ghost contents = { λ v. v.cells };

    ghost width = { λ v. v.width };

    fn rows(&self) -> u64 {
        self.rows.len() as u64
    }

    fn columns(&self) -> usize {
        self.table.columns() + 1
    }

    fn cell(&self, row: u64, col: usize) -> Cell<'_> {
        placed_cell(self.table, self.first, self.rows[row as usize], col)
    }

    fn cells<'s>(
        &'s self,
        cells: &mut Vec<Cell<'s>>,
        col: usize,
        from: u64,
        to: u64,
    ) -> Result<(), AllocError> {
        add_cells(
            cells,
            self.table,
            self.first,
            &self.rows[from as usize..to as usize],
            col,
        )
    }
}
