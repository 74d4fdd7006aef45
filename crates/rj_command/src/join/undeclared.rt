//! Columns whose types nobody declared, and the error of a clause that needs them.

ghost use Rattle.std.specs.Prelude.{◌≡◌, [], IfOk, map, slice_get, unwrap_or};
ghost use Rattle.rj_command.specs.Sides.{types_of};
ghost use Rattle.rj_command.specs.Undeclared as specs;
ghost use Rattle.rj_command.specs.Undeclared.{column_fault, is_open, is_undeclared, undeclared_fault};

use crate::join::types::types_of;
use rj_columns::Table;
use rj_condition::{Clause, Columns, TableColumn, Word, first_undeclared};
use rj_line::Request;
use rj_line::fault::{Fault, Side};
use rj_settings::types::{TypeEntry, is_named_in};
use std::alloc::{AllocError, Global};

/// Whether the types of those columns of a side that no entry names aren't declared.
pub(crate) fn is_open(request: &Request<'_>, side: Side) -> bool
    ensures { result ≡ is_open request.now side }
{
    match side {
        Side::Left => request.left_undeclared,
        Side::Right => request.right_undeclared,
    }
}

/// Whether the type of a column with this name isn't declared.
pub(crate) fn is_undeclared(open_list: bool, entries: &[TypeEntry], called: &str) -> bool
    ensures { result ≡ is_undeclared open_list entries.now called.now }
{
    open_list && !is_named_in(entries, called.as_bytes())
}

// For each column of a table, whether its type isn't declared.
fn marks_of(
    alloc: Global,
    open_list: bool,
    entries: &[TypeEntry],
    table: &Table,
) -> Result<Vec<bool>, AllocError>
    ensures { IfOk result (λ v. v.items ≡ map (is_undeclared open_list entries.now) table.now.names) }
{
    let mut marks = Vec::new(alloc);
    for i in 0..table.columns() {
        marks.push(is_undeclared(open_list, entries, table.name(i)))?;
    }
    Ok(marks)
}

// The same of a side's table.
fn marks_of_side(
    alloc: Global,
    request: &Request<'_>,
    side: Side,
    table: &Table,
) -> Result<Vec<bool>, AllocError>
    ensures { IfOk result (λ v. v.items ≡ map (is_undeclared (is_open request.now side) (types_of request.now side)) table.now.names) }
{
    marks_of(
        alloc,
        is_open(request, side),
        types_of(request, side),
        table,
    )
}

// The first column of a clause that needs a declared type and has none.
fn undeclared_column(
    alloc: Global,
    clause: &Clause,
    request: &Request<'_>,
    left: &Table,
    right: &Table,
) -> Result<Option<TableColumn>, AllocError>
    ensures { IfOk result (λ o. o ≡ specs.undeclared_column request.now left.now right.now clause.now) }
{
    if !request.left_undeclared && !request.right_undeclared {
        return Ok(None);
    }
    let left_marks = marks_of_side(alloc, request, Side::Left, left)?;
    let right_marks = marks_of_side(alloc, request, Side::Right, right)?;
    let lefts = Columns {
        table: left,
        undeclared: left_marks.as_slice(),
    };
    let rights = Columns {
        table: right,
        undeclared: right_marks.as_slice(),
    };
    first_undeclared(alloc, clause, &lefts, &rights)
}

// The name of a column; it is empty if there is no such column.
fn name_at(table: &Table, column: usize) -> &str
    ensures { result.now ≡ unwrap_or (slice_get table.now.names column) [] }
{
    if column < table.columns() {
        table.name(column)
    } else {
        ""
    }
}

// The error of a column with this name.
fn fault_of_name(alloc: Global, side: Side, name: &str) -> Result<Fault, AllocError>
    ensures { IfOk result (λ f. f ≡ Fault.UndeclaredType side name.now) }
{
    let name = Word::new(alloc, name)?;
    Ok(Fault::UndeclaredType(side, name))
}

fn fault_of_column(
    alloc: Global,
    column: TableColumn,
    left: &Table,
    right: &Table,
) -> Result<Fault, AllocError>
    ensures { IfOk result (λ f. f ≡ column_fault left.now right.now column) }
{
    match column {
        TableColumn::Left(i) => fault_of_name(alloc, Side::Left, name_at(left, i)),
        TableColumn::Right(j) => fault_of_name(alloc, Side::Right, name_at(right, j)),
    }
}

/// The error of the first column of a clause, over two tables, that needs a declared type and has
/// none.
///
/// # Errors
///
/// It fails only when memory runs out.
pub(crate) fn undeclared_fault(
    alloc: Global,
    clause: &Clause,
    request: &Request<'_>,
    left: &Table,
    right: &Table,
) -> Result<Option<Fault>, AllocError>
    ensures { IfOk result (λ o. o ≡ undeclared_fault request.now left.now right.now clause.now) }
{
    match undeclared_column(alloc, clause, request, left, right)? {
        Some(column) => {
            let fault = fault_of_column(alloc, column, left, right)?;
            Ok(Some(fault))
        }
        None => Ok(None),
    }
}
