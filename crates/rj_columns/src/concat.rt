//! One table from the rows of several, and several from the rows of one.

ghost use Rattle.std.specs.Prelude.{◌≡◌, ◌≢◌, ◌<◌, ◌+◌, ◌^◌, ◌++◌, [], length, map, All, IfOk};
ghost use Rattle.rj_columns.specs.Internal.Segments.{AreSegments, table_in};
ghost use Rattle.rj_columns.specs.Tables.{AreAlike, concatenated, rows_of_all};

use crate::names::Names;
use crate::segment::Segment;
use crate::segments::Segments;
use crate::table::Table;
use std::alloc::{AllocError, Global};

// A table of one segment.
fn table_of_segment(alloc: Global, names: &Names, segment: Segment) -> Result<Table, AllocError>
    requires { AreSegments names.now [] segment }
    ensures { IfOk result (λ t. t ≡ table_in names.now [] segment) }
{
    Ok(Table {
        names: names.copy()?,
        closed: Segments::new(alloc),
        last: segment,
    })
}

// A table of each segment.
fn tables_of_segments(
    alloc: Global,
    names: &Names,
    segments: Segments,
) -> Result<Vec<Table>, AllocError>
    requires { All (AreSegments names.now []) segments }
    ensures { IfOk result (λ v. v.items ≡ map (table_in names.now []) segments) }
{
    let mut tables = Vec::new(alloc);
    let mut left = segments.into_placed().into_iter();
    while let Some(next) = left.next() {
        tables.push(table_of_segment(alloc, names, next.segment)?)?;
    }
    Ok(tables)
}

impl Table {
    // The rows of another table with the same names and types after those of this one.
    fn followed_by(self, other: Table) -> Result<Table, AllocError>
        requires names { other.names ≡ self.names }
        requires types { other.types ≡ self.types }
        requires room { length self.rows + length other.rows < 2 ^ 31 }
        ensures { IfOk result (λ t. t ≡ record self { rows = self.rows ++ other.rows }) }
    {
        let Table {
            names,
            mut closed,
            last,
        } = self;
        let Table {
            names: _,
            closed: more,
            last: end,
        } = other;
        if closed.push(last).is_err() {
            return Err(AllocError);
        }
        closed.append(more)?;
        Ok(Table {
            names,
            closed,
            last: end,
        })
    }

    /// The rows of several tables, one after another, in one table. All have the same names and
    /// types. There is at least one table, and there are fewer than 2^31 rows in all. No cell is
    /// copied.
    ///
    /// # Errors
    ///
    /// It fails only when memory runs out.
    pub fn concat(parts: Vec<Table>) -> Result<Table, AllocError>
        requires alike { AreAlike parts.items }
        requires room { length (rows_of_all parts.items) < 2 ^ 31 }
        ensures { IfOk result (λ t. t ≡ concatenated parts.items) }
    {
        let mut left = parts.into_iter();
        let Some(first) = left.next() else {
            unreachable!()
        };
        let mut whole = first;
        while let Some(part) = left.next() {
            whole = whole.followed_by(part)?;
        }
        Ok(whole)
    }

    /// The segments of the table, one after another, each as a table with its names and types. Each
    /// has at most 65,536 rows if there are columns. A table without rows gives one table. No cell
    /// is copied.
    ///
    /// # Errors
    ///
    /// It fails only when memory runs out.
    pub fn into_segments(self, alloc: Global) -> Result<Vec<Table>, AllocError>
        ensures same { IfOk result (λ v. All (λ t. (t.names ≡ self.names) × (t.types ≡ self.types)) v.items) }
        ensures rows { IfOk result (λ v. rows_of_all v.items ≡ self.rows) }
        ensures some { IfOk result (λ v. v.items ≢ []) }
    {
        let Table {
            names,
            closed,
            last,
        } = self;
        let mut tables = tables_of_segments(alloc, &names, closed)?;
        tables.push(Table {
            names,
            closed: Segments::new(alloc),
            last,
        })?;
        Ok(tables)
    }
}
