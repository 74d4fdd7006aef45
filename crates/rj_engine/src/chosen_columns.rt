//! Which columns of a joined table are written, and in which order.

ghost use Rattle.std.specs.Prelude.{◌≡◌, All, IfOk, filter, map, true};
ghost use Rattle.std.specs.List.{range_with_len};
ghost use Rattle.rj_condition.specs.Fits.{fits};
ghost use Rattle.rj_condition.specs.Names.{matches};
ghost use Rattle.rj_engine.specs.Cells.{IsColumnOf, name_of};
ghost use Rattle.rj_engine.specs.Chosen.{columns_by, is_of_left, is_of_right};
ghost use Rattle.rj_engine.specs.Origins.{origins_of};
ghost use Rattle.rj_engine.specs.Selected.{column_of_entry, columns_from, columns_named, selected_columns, the_only};
ghost use Rattle.rj_engine.specs.declared.origin.Origin.TheVariants as origin;

use crate::origin::{Origin, name_at, origins};
use rj_columns::Table;
use rj_condition::{BoundJoin, Name};
use rj_settings::{ColumnChoice, SelectedColumn, Source};
use std::alloc::{AllocError, Global};

// Whether a column comes from the left table. A coalesced one comes from both.
fn is_of_left(origin: Origin) -> bool
    ensures { result ≡ is_of_left origin }
{
    match origin {
        Origin::Coalesced(_, _) | Origin::Left(_) => true,
        Origin::Right(_) => false,
    }
}

// Whether a column comes from the right table.
fn is_of_right(origin: Origin) -> bool
    ensures { result ≡ is_of_right origin }
{
    match origin {
        Origin::Coalesced(_, _) | Origin::Right(_) => true,
        Origin::Left(_) => false,
    }
}

// The columns of a joined table that come from the left table.
fn left_origins(
    alloc: Global,
    partners: &[Option<usize>],
    right_columns: usize,
) -> Result<Vec<Origin>, AllocError>
    ensures { IfOk result (λ v. v.items ≡ filter is_of_left (origins_of partners.now right_columns)) }
{
    let mut found = origins(alloc, partners, right_columns)?;
    found.retain(|origin| is_of_left(*origin));
    Ok(found)
}

// The columns of a joined table that come from the right table.
fn right_origins(
    alloc: Global,
    partners: &[Option<usize>],
    right_columns: usize,
) -> Result<Vec<Origin>, AllocError>
    ensures { IfOk result (λ v. v.items ≡ filter is_of_right (origins_of partners.now right_columns)) }
{
    let mut found = origins(alloc, partners, right_columns)?;
    found.retain(|origin| is_of_right(*origin));
    Ok(found)
}

// Each of so many columns of the left table.
fn all_left(alloc: Global, columns: usize) -> Result<Vec<Origin>, AllocError>
    ensures { IfOk result (λ v. v.items ≡ map (λ i. origin.Left i) (range_with_len 0 columns)) }
{
    (0..columns).map(|left| Origin::Left(left)).collect(alloc)
}

// Each of so many columns of the right table.
fn all_right(alloc: Global, columns: usize) -> Result<Vec<Origin>, AllocError>
    ensures { IfOk result (λ v. v.items ≡ map (λ j. origin.Right j) (range_with_len 0 columns)) }
{
    (0..columns)
        .map(|right| Origin::Right(right))
        .collect(alloc)
}

// The columns among which an entry's name is looked for.
fn columns_from(
    alloc: Global,
    left: &Table,
    right: &Table,
    join: &BoundJoin,
    source: Source,
) -> Result<Vec<Origin>, AllocError>
    ensures { IfOk result (λ v. v.items ≡ columns_from source join.now left.now right.now) }
{
    match source {
        Source::Joined => origins(alloc, join.partners(), right.columns()),
        Source::Left => all_left(alloc, left.columns()),
        Source::Right => all_right(alloc, right.columns()),
    }
}

// Whether a name means a column.
fn is_named(left: &Table, right: &Table, origin: Origin, name: &Name) -> bool
    requires { IsColumnOf left.now right.now origin }
    ensures { result ≡ matches name.now (name_of left.now right.now origin) }
{
    name.means(name_at(left, right, origin).as_bytes())
}

// The one of these columns that a name means. None if it means none of them, or more than one.
fn only_named(left: &Table, right: &Table, columns: &[Origin], name: &Name) -> Option<Origin>
    requires { All (IsColumnOf left.now right.now) columns.now }
    ensures { result ≡ the_only (columns_named left.now right.now name.now columns.now) }
{
    let mut found = None;
    for origin in columns {
        if is_named(left, right, *origin, name) {
            if found.is_some() {
                return None;
            }
            found = Some(*origin);
        }
    }
    found
}

/// The column that an entry of a list means. None if its name means none, or more than one.
pub(crate) fn column_of_entry(
    alloc: Global,
    left: &Table,
    right: &Table,
    join: &BoundJoin,
    entry: &SelectedColumn,
) -> Result<Option<Origin>, AllocError>
    requires { fits join.now left.now.types right.now.types ≡ true }
    ensures { IfOk result (λ o. o ≡ column_of_entry join.now left.now right.now entry.now) }
{
    let columns = columns_from(alloc, left, right, join, entry.source)?;
    Ok(only_named(left, right, &columns, &entry.name))
}

// The columns that the entries of a list mean, in their order.
fn selected_origins(
    alloc: Global,
    left: &Table,
    right: &Table,
    join: &BoundJoin,
    entries: &[SelectedColumn],
) -> Result<Vec<Origin>, AllocError>
    requires { fits join.now left.now.types right.now.types ≡ true }
    ensures { IfOk result (λ v. v.items ≡ selected_columns join.now left.now right.now entries.now) }
{
    let mut found = Vec::with_capacity(alloc, entries.len())?;
    for entry in entries {
        match column_of_entry(alloc, left, right, join, entry)? {
            None => {}
            Some(origin) => found.push(origin)?,
        }
    }
    Ok(found)
}

/// The columns of a joined table that are written, in their order.
pub(crate) fn chosen_origins(
    alloc: Global,
    left: &Table,
    right: &Table,
    join: &BoundJoin,
    columns: &ColumnChoice,
) -> Result<Vec<Origin>, AllocError>
    requires { fits join.now left.now.types right.now.types ≡ true }
    ensures { IfOk result (λ v. v.items ≡ columns_by columns.now join.now left.now right.now) }
{
    let (partners, right_columns) = (join.partners(), right.columns());
    match columns {
        ColumnChoice::All => origins(alloc, partners, right_columns),
        ColumnChoice::Left => left_origins(alloc, partners, right_columns),
        ColumnChoice::Right => right_origins(alloc, partners, right_columns),
        ColumnChoice::Selected(entries) => {
            selected_origins(alloc, left, right, join, entries.as_slice())
        }
    }
}
