//! Segments of tables.

ghost use Rattle.std.specs.Prelude.{◌≡◌, ◌<◌, ◌^◌, Some, length, slice_get, All};
ghost use Rattle.rj_columns.specs.Internal.Columns.{AreColumns, IsColumnOf, segment_of};
ghost use Rattle.rj_columns.specs.Contents.{content_of, IsInLimits};
ghost use Rattle.rj_columns.specs.Tables.{FitsAt, FitsTypes, cell_of};

use crate::cell::{Cell, ColumnType};
use crate::column::Column;
use std::marker::Model;

/// The rows that a segment is meant to have at most.
pub(crate) const SEGMENT_ROWS: usize = 65536;

/// Consecutive rows of a table, with columns of their own: a table without names.
pub(crate) struct Segment {
    pub(crate) columns: Vec<Column>,
    pub(crate) rows: u64,
}

impl Drop for Segment {
    fn drop(self) {
        let Segment {
            columns: _columns,
            rows: _rows,
        } = self;
    }
}

impl Model for Segment {
    ghost use Rattle.rj_columns.specs.Tables.{TableValue};

    ghost Value = { TableValue };

    ghost use Rattle.rj_columns.specs.Internal.Columns.{segment_of, AreColumns};

    ghost view = { λ a. segment_of a.columns.items a.rows };

    ghost invariant = { λ a. AreColumns a.columns.items 0 a.rows };
}

impl Segment {
    // Its columns, and how many rows they have.
    pub(crate) fn into_parts(self) -> (Vec<Column>, u64)
        ensures of { segment_of result.0.items result.1 ≡ self }
        ensures are { AreColumns result.0.items 0 result.1 }
    {
        let Segment { columns, rows } = self;
        (columns, rows)
    }

    // How many rows it has.
    #[inline]
    pub(crate) fn rows(&self) -> u64
        ensures count { result ≡ length self.now.rows }
        ensures within { result < 2 ^ 31 }
    {
        self.rows
    }

    // How many columns it has.
    pub(crate) fn columns(&self) -> usize
        ensures count { result ≡ length self.now.types }
        ensures typed { All (FitsTypes self.now.types) self.now.rows }
    {
        self.columns.len()
    }

    // The type of a column.
    pub(crate) fn column_type(&self, col: usize) -> ColumnType
        requires { col < length self.now.types }
        ensures { slice_get self.now.types col ≡ Some result }
    {
        self.columns[col].kind()
    }

    // A column, whole.
    #[inline]
    pub(crate) fn column(&self, col: usize) -> &Column
        requires { col < length self.now.types }
        ensures { IsColumnOf self.now col result.now }
    {
        &self.columns[col]
    }

    // The cell at a row and a column.
    #[inline(always)]
    pub(crate) fn cell(&self, row: u64, col: usize) -> Cell<'_>
        requires row { row < length self.now.rows }
        requires col { col < length self.now.types }
        ensures content { content_of result ≡ cell_of self.now row col }
        ensures typed { FitsAt self.now.types col (content_of result) }
        ensures limits { IsInLimits (content_of result) }
    {
        self.columns[col].get(row as usize)
    }
}
