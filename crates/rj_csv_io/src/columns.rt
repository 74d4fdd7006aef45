//! Some columns of rows, as rows of their own.

ghost use Rattle.std.specs.Prelude.{◌≡◌, ◌<◌, ◌≤◌, ◌+◌, ◌-◌, ◌++◌, ℕ, List, length, map, OnOk};
ghost use Rattle.rj_columns.specs.Contents.{Content, content_of};
ghost use Rattle.rj_columns.specs.Tables.{cell_in, part_of};

use rj_columns::{Cell, RowSource, Table};
use std::alloc::AllocError;

/// The first cells of a source's rows: this many of each, or all if there are fewer.
#[derive(Drop)]
pub struct FirstColumns<'a, S: RowSource> {
    pub source: &'a S,
    pub columns: usize,
}

/// An empty text and then the cells of each row of a table at these columns, in their order. A
/// column that the table doesn't have is NULL.
#[derive(Drop)]
pub struct EndColumns<'a> {
    pub table: &'a Table,
    pub columns: &'a [usize],
}

impl<'a, S: RowSource> RowSource for FirstColumns<'a, S> {
    ghost use Rattle.std.specs.Prelude.{map, min, take};

    ghost contents = { λ v. map (take v.columns) (S.contents v.source.now) };

    ghost width = { λ v. min v.columns (S.width v.source.now) };

    fn rows(&self) -> u64 {
        self.source.rows()
    }

    fn columns(&self) -> usize {
        self.columns.min(self.source.columns())
    }

    fn cell(&self, row: u64, col: usize) -> Cell<'_> {
        self.source.cell(row, col)
    }

    fn cells<'s>(
        &'s self,
        cells: &mut Vec<Cell<'s>>,
        col: usize,
        from: u64,
        to: u64,
    ) -> Result<(), AllocError> {
        self.source.cells(cells, col, from, to)
    }
}

// Adds a cell for each row from one to another.
fn add_same<'s>(
    cells: &mut Vec<Cell<'s>>,
    cell: Cell<'s>,
    from: u64,
    to: u64,
) -> Result<(), AllocError>
    requires { from ≤ to }
    ensures { (rows : List (List Content)) (col : ℕ) → ((row : ℕ) → row < to → cell_in rows row col ≡ content_of cell.entry)
        → OnOk result (map content_of cells.new.items ≡ map content_of cells.old.items ++ part_of rows col from (to - from)) }
{
    for _row in from..to {
        cells.push(cell)?;
    }
    Ok(())
}

impl<'a> RowSource for EndColumns<'a> {
    ghost use Rattle.std.specs.Prelude.{◌+◌, length};
    ghost use Rattle.rj_csv_io.specs.Columns.{ends_of};

    ghost contents = { λ v. ends_of v.columns.now v.table.now.rows };

    ghost width = { λ v. length v.columns.now + 1 };

    fn rows(&self) -> u64 {
        self.table.rows()
    }

    fn columns(&self) -> usize {
        self.columns.len() + 1
    }

    fn cell(&self, row: u64, col: usize) -> Cell<'_> {
        if col == 0 {
            return Cell::Text("");
        }
        let column = self.columns[col - 1];
        if column < self.table.columns() {
            return self.table.cell(row, column);
        }
        Cell::Null
    }

    fn cells<'s>(
        &'s self,
        cells: &mut Vec<Cell<'s>>,
        col: usize,
        from: u64,
        to: u64,
    ) -> Result<(), AllocError> {
        if col == 0 {
            return add_same(cells, Cell::Text(""), from, to);
        }
        let column = self.columns[col - 1];
        if column < self.table.columns() {
            return self.table.cells(cells, column, from, to);
        }
        add_same(cells, Cell::Null, from, to)
    }
}
