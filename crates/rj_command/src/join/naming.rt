//! The names under which the columns of a joined table are written.

ghost use Rattle.std.specs.Prelude.{◌≡◌, ◌⊎◌, IfErr, IfOk, OnOk, map, string_bytes, true};
ghost use Rattle.rj_condition.specs.Fits.{fits};
ghost use Rattle.rj_command.specs.Refused.{naming_fault};
ghost use Rattle.rj_command.specs.Operands.{HasNames, IsNameFault};
ghost use Rattle.rj_command.specs.Runs.{AreNames};

use crate::join::operands::Operands;
use rj_engine::{NamingRefused, chosen_names};
use rj_line::Request;
use rj_line::fault::Fault;
use std::alloc::Global;

fn fault_of_naming(refused: NamingRefused) -> Fault
    ensures { result ≡ naming_fault refused }
{
    match refused {
        NamingRefused::NoFreeName(column) => Fault::NoFreeName(column),
        NamingRefused::SelectedName(entry) => Fault::SelectedName(entry),
        NamingRefused::Memory => Fault::Memory,
    }
}

/// The names of those columns of the operands' joined table that the request chooses: those of its
/// list of columns, or else their own ones, with repeated ones written as it asks.
pub(crate) fn names_of(
    alloc: Global,
    operands: &Operands,
    request: &Request<'_>,
) -> Result<Vec<String>, Fault>
    requires { fits operands.now.join operands.now.left.types operands.now.right.types ≡ true }
    ensures names { IfOk result (λ v. AreNames request.now operands.now.join operands.now.left operands.now.right (map string_bytes v.items)) }
    ensures fault { IfErr result (λ f. (f ≡ Fault.Memory) ⊎ IsNameFault request.now operands.now.join operands.now.left operands.now.right f) }
{
    let (left, right) = (&operands.left, &operands.right);
    let _columns = (left.columns(), right.columns());
    match chosen_names(alloc, left, right, &operands.join, &request.choice) {
        Ok(names) => Ok(names),
        Err(refused) => Err(fault_of_naming(refused)),
    }
}

/// Refuses chosen columns that can't be named, if they are to be named.
pub(crate) fn refuse_names(
    alloc: Global,
    operands: &Operands,
    request: &Request<'_>,
    named: bool,
) -> Result<(), Fault>
    requires { fits operands.now.join operands.now.left.types operands.now.right.types ≡ true }
    ensures names { OnOk result (named ≡ true → HasNames request.now operands.now.join operands.now.left operands.now.right) }
    ensures fault { IfErr result (λ f. (f ≡ Fault.Memory)
        ⊎ ((named ≡ true) × IsNameFault request.now operands.now.join operands.now.left operands.now.right f)) }
{
    if !named {
        return Ok(());
    }
    match names_of(alloc, operands, request) {
        Ok(_names) => Ok(()),
        Err(fault) => Err(fault),
    }
}
