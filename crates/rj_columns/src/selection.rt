//! Cells of some rows of a table at some of its columns, packed.

ghost use Rattle.std.specs.Prelude.{◌≡◌, ◌<◌, All, IfOk, [], length, map, slice_index_or};
ghost use Rattle.rj_columns.specs.Contents.{content_of, nothing, IsInLimits};
ghost use Rattle.rj_columns.specs.Internal.Columns.{IsTyped};
ghost use Rattle.rj_columns.specs.Compare.{are_equal};
ghost use Rattle.rj_columns.specs.Tables.{cell_of};

use crate::cell::Cell;
use crate::column::Column;
use crate::table::Table;
use std::alloc::{AllocError, Global};
use std::marker::Model;

/// The cells of some rows of a table at some of its columns, copied into columns of their own, so
/// that cells that are read often are close together. Places and columns count from 0, in the order
/// in which they were selected.
#[derive(Drop)]
pub struct Selection {
    columns: Vec<Column>,
}

impl Model for Selection {
    ghost use Rattle.std.specs.Prelude.{List, map};
    ghost use Rattle.rj_columns.specs.Contents.{Content};

    ghost Value = { List (List Content) };

    ghost view = { λ a. map (λ c. c.cells) a.columns.items };

    ghost use Rattle.std.specs.Prelude.{All};
    ghost use Rattle.rj_columns.specs.Internal.Columns.{IsTyped};

    ghost invariant = { λ a. All IsTyped a.columns.items };
}

impl Selection {
    /// The cell at a place of a column. A text is borrowed from the selection. It allocates no
    /// memory.
    pub fn cell(&self, place: usize, col: usize) -> Cell<'_>
        requires col { col < length self.now }
        requires place { place < length (slice_index_or self.now col []) }
        ensures content { content_of result ≡ slice_index_or (slice_index_or self.now col []) place nothing }
        ensures limits { IsInLimits (content_of result) }
    {
        self.columns[col].get(place)
    }

    /// Whether the cell at a place of a column equals the cell at a row and a column of a table, as
    /// `are_equal_cells` says. The two cells aren't made. It allocates no memory.
    #[inline]
    pub fn equals_cell(
        &self,
        place: usize,
        col: usize,
        table: &Table,
        row: u64,
        table_col: usize,
    ) -> bool
        requires col { col < length self.now }
        requires place { place < length (slice_index_or self.now col []) }
        requires row { row < length table.now.rows }
        requires table_col { table_col < length table.now.types }
        ensures { result ≡ are_equal (slice_index_or (slice_index_or self.now col []) place nothing) (cell_of table.now row table_col) }
    {
        let (start, segment) = table.find(row);
        self.columns[col].is_equal(place, segment.column(table_col), (row - start) as usize)
    }
}

impl Table {
    // The cells of a column at these rows.
    fn select_column(&self, alloc: Global, rows: &[u32], col: usize) -> Result<Column, AllocError>
        requires rows { All (λ r. r < length self.now.rows) rows.now }
        requires col { col < length self.now.types }
        ensures cells { IfOk result (λ c. c.cells ≡ map (λ r. cell_of self.now r col) rows.now) }
        ensures typed { IfOk result IsTyped }
    {
        let mut column = Column::new(alloc, self.column_type(col));
        column.reserve(rows.len(), 0)?;
        for row in rows {
            column.push(self.cell(u64::from(*row), col))?;
        }
        Ok(column)
    }

    /// Copies the cells of these rows at these columns, column by column, each in the order of the rows.
    ///
    /// # Errors
    ///
    /// It fails only when memory runs out.
    pub fn select(
        &self,
        alloc: Global,
        rows: &[u32],
        columns: &[usize],
    ) -> Result<Selection, AllocError>
        requires rows { All (λ r. r < length self.now.rows) rows.now }
        requires columns { All (λ c. c < length self.now.types) columns.now }
        ensures { IfOk result (λ s. s ≡ map (λ c. map (λ r. cell_of self.now r c) rows.now) columns.now) }
    {
        let mut selected = Vec::with_capacity(alloc, columns.len())?;
        for col in columns {
            selected.push(self.select_column(alloc, rows, *col)?)?;
        }
        Ok(Selection { columns: selected })
    }
}
