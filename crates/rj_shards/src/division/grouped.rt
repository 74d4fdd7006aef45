//! The rows of a table, grouped by their parts.

ghost use Rattle.std.specs.Prelude.{◌≡◌, ◌<◌, ℕ, Some, All, IfOk, IfSome, map, length};
ghost use Rattle.std.specs.List.{range_with_len};
ghost use Rattle.rj_radix.specs.Groups.{IsPart};
ghost use Rattle.rj_shards.specs.Placed.{numbers_of};

use crate::division::route::Route;
use rj_columns::Table;
use rj_radix::{Scattered, scatter};
use std::alloc::{AllocError, Global};

// The numbers of the rows of a table.
fn numbers(alloc: Global, count: u32) -> Result<Vec<u32>, AllocError>
    ensures { IfOk result (λ v. v.items ≡ range_with_len 0 count) }
{
    let mut rows = Vec::new(alloc);
    for row in 0..count {
        rows.push(row)?;
    }
    Ok(rows)
}

// The part of each row of a table.
fn routes_of<R: Route>(
    alloc: Global,
    table: &Table,
    route: &R,
) -> Result<Vec<Option<u32>>, AllocError>
    requires { R.fits route.now table.now.types }
    ensures routes { IfOk result (λ v. v.items ≡ map (λ r. Some (R.part route.now r)) table.now.rows) }
    ensures below { IfOk result (λ v. All (λ r. IfSome r (λ p. p < R.count route.now)) v.items) }
{
    let mut routes = Vec::new(alloc);
    for row in 0..table.rows() as u32 {
        routes.push(Some(route.part_of(table, row)))?;
    }
    Ok(routes)
}

/// The numbers of a table's rows, part by part.
///
/// # Errors
///
/// It fails only when memory runs out.
pub(crate) fn group_rows<R: Route>(
    alloc: Global,
    table: &Table,
    route: &R,
) -> Result<Scattered, AllocError>
    requires { R.fits route.now table.now.types }
    ensures parts { IfOk result (λ s. (p : ℕ) → p < R.count route.now
        → IsPart s.rows.items s.starts.items p (numbers_of (R.part route.now) p table.now.rows)) }
    ensures count { IfOk result (λ s. length s.starts.items ≡ R.count route.now) }
{
    let routes = routes_of(alloc, table, route)?;
    let rows = numbers(alloc, table.rows() as u32)?;
    scatter(alloc, &rows, &routes, route.parts() as usize)
}
