//! The operands' joined table, where it is as expected.

ghost use Rattle.std.specs.Prelude.{◌≡◌, ◌≢◌, ◌⊎◌, [], IfErr, IfOk, OnOk, true};
ghost use Rattle.rj_condition.specs.Fits.{fits};
ghost use Rattle.rj_condition.specs.Splits.{rest_of};
ghost use Rattle.rj_engine.specs.Expected.{HasAtMost};
ghost use Rattle.rj_engine.specs.Results.{joined_of};
ghost use Rattle.rj_command.specs.Expected.{IsExpected, IsUnexpected, refusal_of};
ghost use Rattle.rj_command.specs.Internal.Prepared.{IsOutcome};

use crate::join::early::early_excess;
use crate::join::operands::Operands;
use rj_engine::{Gate, Joined, is_as_expected, run_join};
use rj_line::fault::Fault;
use rj_line::{Hash, Request};
use rj_radix::{Mixed, Plain};
use std::alloc::{AllocError, Global};
use std::sync::Wait;
use std::thread::Threads;
use std::time::Clock;

// The error of a joined table, given whether it is as expected, or that this couldn't be found out.
fn refusal(is_expected: Result<bool, AllocError>) -> Result<(), Fault>
    ensures { result ≡ refusal_of is_expected }
{
    match is_expected {
        Ok(true) => Ok(()),
        Ok(false) => Err(Fault::NotAsExpected),
        Err(_) => Err(Fault::Memory),
    }
}

// Refuses a joined table that isn't as expected: `NotAsExpected` comes exactly if it isn't, and
// `Memory` only when memory ran out.
fn refuse_unexpected(
    alloc: Global,
    operands: &Operands,
    joined: &Joined,
    request: &Request<'_>,
) -> Result<(), Fault>
    requires { joined.now.members ≡ joined_of operands.now.join operands.now.left operands.now.right }
    ensures expected { OnOk result (IsExpected request.now operands.now.join operands.now.left operands.now.right) }
    ensures fault { IfErr result (λ f. (f ≡ Fault.Memory) ⊎ IsUnexpected request.now operands.now.join operands.now.left operands.now.right f) }
{
    let expectation = &request.expectation;
    refusal(is_as_expected(
        alloc,
        &operands.left,
        &operands.right,
        &operands.join,
        joined,
        expectation,
    ))
}

// Refuses a joined table before it is made, if it is known then that it has too many rows.
fn refuse_excess(alloc: Global, operands: &Operands, request: &Request<'_>) -> Result<(), Fault>
    requires { fits operands.now.join operands.now.left.types operands.now.right.types ≡ true }
    ensures few { OnOk result ((rest_of operands.now.join ≢ [])
        ⊎ HasAtMost request.now.expectation.most_rows (joined_of operands.now.join operands.now.left operands.now.right)) }
    ensures fault { IfErr result (λ f. (f ≡ Fault.Memory) ⊎ IsUnexpected request.now operands.now.join operands.now.left operands.now.right f) }
{
    match early_excess(alloc, operands, request)? {
        Some(_) => Err(Fault::NotAsExpected),
        None => Ok(()),
    }
}

// The joined table of the operands, by the hash of their keys that is asked for.
fn join_by_hash<R: Threads + Wait + Clock + Sync, G: Gate + Sync>(
    rt: &R,
    alloc: Global,
    operands: &Operands,
    request: &Request<'_>,
    gate: &G,
) -> Result<Joined, AllocError>
    requires { fits operands.now.join operands.now.left.types operands.now.right.types ≡ true }
    ensures { IfOk result (IsOutcome request.now operands.now) }
{
    let (left, right, join) = (&operands.left, &operands.right, &operands.join);
    let settings = &request.settings;
    match request.hash {
        Hash::Plain => run_join(rt, alloc, left, right, join, settings, &Plain, gate),
        Hash::Mixed => run_join(rt, alloc, left, right, join, settings, &Mixed, gate),
    }
}

/// The joined table of the operands, where it is as the request expects. It isn't made if it is
/// known before then that it has too many rows.
///
/// # Errors
///
/// `NotAsExpected` exactly where it isn't. `Memory` comes only where a growth was refused.
pub(crate) fn join_as_expected<R: Threads + Wait + Clock + Sync, G: Gate + Sync>(
    rt: &R,
    alloc: Global,
    operands: &Operands,
    request: &Request<'_>,
    gate: &G,
) -> Result<Joined, Fault>
    requires { fits operands.now.join operands.now.left.types operands.now.right.types ≡ true }
    ensures joined { IfOk result (IsOutcome request.now operands.now) }
    ensures expected { OnOk result (IsExpected request.now operands.now.join operands.now.left operands.now.right) }
    ensures fault { IfErr result (λ f. (f ≡ Fault.Memory) ⊎ IsUnexpected request.now operands.now.join operands.now.left operands.now.right f) }
{
    refuse_excess(alloc, operands, request)?;
    let mut joined = join_by_hash(rt, alloc, operands, request, gate)?;
    joined.forget_delivered();
    refuse_unexpected(alloc, operands, &joined, request)?;
    Ok(joined)
}
