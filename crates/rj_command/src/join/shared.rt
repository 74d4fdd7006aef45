//! The type list for both tables, whose names are those of either.

ghost use Rattle.std.specs.Prelude.{◌≡◌, ◌≢◌, ◌++◌, IfErr, IfOk, None, OnOk, Some, map};
ghost use Rattle.rj_command.specs.Operands.{shared_fault};

use rj_columns::Table;
use rj_condition::Word;
use rj_line::Request;
use rj_line::fault::Fault;
use rj_settings::types::name_fault;
use std::alloc::{AllocError, Global};

// These names, and behind them those of a table.
fn with_names<'t>(names: Vec<&'t [u8]>, table: &'t Table) -> Result<Vec<&'t [u8]>, AllocError>
    ensures { IfOk result (λ v. map (λ n. n.now) v.items ≡ map (λ n. n.now) names.entry.items ++ table.entry.now.names) }
{
    let mut names = names;
    for i in 0..table.columns() {
        names.push(table.name(i).as_bytes())?;
    }
    Ok(names)
}

// The names of both tables.
fn names_of_both<'t>(
    alloc: Global,
    left: &'t Table,
    right: &'t Table,
) -> Result<Vec<&'t [u8]>, AllocError>
    ensures { IfOk result (λ v. map (λ n. n.now) v.items ≡ left.entry.now.names ++ right.entry.now.names) }
{
    let lefts = with_names(Vec::new(alloc), left)?;
    with_names(lefts, right)
}

/// Refuses a request whose type list for both tables has a name that means a column of neither, or
/// one that an earlier entry names.
///
/// # Errors
///
/// `SharedTypeName` with the first such name. `Memory` comes only when memory ran out.
pub(crate) fn refuse_shared_names(
    alloc: Global,
    request: &Request<'_>,
    left: &Table,
    right: &Table,
) -> Result<(), Fault>
    ensures named { OnOk result (shared_fault request.now left.now right.now ≡ None) }
    ensures fault { IfErr result (λ f. f ≢ Fault.Memory → shared_fault request.now left.now right.now ≡ Some f) }
{
    let Ok(names) = names_of_both(alloc, left, right) else {
        return Err(Fault::Memory);
    };
    let Some(name) = name_fault(request.shared_types.as_slice(), names.as_slice()) else {
        return Ok(());
    };
    match Word::new(alloc, name.as_str()) {
        Ok(copy) => Err(Fault::SharedTypeName(copy)),
        Err(_) => Err(Fault::Memory),
    }
}
