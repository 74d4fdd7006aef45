//! How the joined table of two files differs from what is expected.

ghost use Rattle.std.specs.Prelude.{◌≡◌, ◌≢◌, IfErr, IfOk, MatchOption, false, length, true};
ghost use Rattle.rj_condition.specs.Fits.{fits};
ghost use Rattle.rj_engine.specs.Results.{joined_of};
ghost use Rattle.rj_engine.specs.Violations.{IsViolation};
ghost use Rattle.rj_command.specs.Expected.{IsExpected};
ghost use Rattle.rj_command.specs.Operands.{IsFirstFault};
ghost use Rattle.rj_command.specs.Violations.{HasViolation};

use crate::join::early::early_excess;
use crate::join::operands::{Operands, read_operands};
use rj_engine::{Gate, OpenGate, Violation, run_join};
use rj_line::Request;
use rj_line::fault::Fault;
use rj_radix::Plain;
use std::alloc::Global;
use std::sync::Wait;
use std::thread::Threads;
use std::time::Clock;

// How the joined table of two tables differs from what the request expects.
fn violation_of<R: Threads + Wait + Clock + Sync, G: Gate + Sync>(
    rt: &R,
    alloc: Global,
    operands: &Operands,
    request: &Request<'_>,
    gate: &G,
) -> Result<Option<Violation>, Fault>
    requires bound { fits operands.now.join operands.now.left.types operands.now.right.types ≡ true }
    ensures told { IfOk result (λ found. MatchOption found
        (IsExpected request.now operands.now.join operands.now.left operands.now.right)
        (IsViolation request.now.expectation (length operands.now.left.rows) (joined_of operands.now.join operands.now.left operands.now.right))) }
    ensures memory { IfErr result (λ f. f ≡ Fault.Memory) }
{
    if let Some(rows) = early_excess(alloc, operands, request)? {
        return Ok(Some(Violation::Rows(rows)));
    }
    let (left, right, join) = (&operands.left, &operands.right, &operands.join);
    let settings = &request.settings;
    let joined = run_join(rt, alloc, left, right, join, settings, &Plain, gate)?;
    let expectation = &request.expectation;
    match rj_engine::first_violation(alloc, left, right, join, &joined, expectation) {
        Ok(found) => Ok(found),
        Err(_) => Err(Fault::Memory),
    }
}

/// How the joined table of the tables that the two files' bytes denote differs from what the
/// request expects: in how many rows it has, or in the first row that is in more than one match, or
/// in the first left row that is in none. `None` if it is as expected. Nothing is written, and the
/// join isn't made if it is known before then that it has too many rows.
///
/// # Errors
///
/// The first error in the order left table, right table, clause; in the short form the clause's
/// comes first, if both headers have none. `Memory` comes only when memory ran out, in place of any
/// error that would be reported later.
pub fn first_violation<R: Threads + Wait + Clock + Sync, G: Gate + Sync>(
    rt: &R,
    alloc: Global,
    left: &[u8],
    right: &[u8],
    request: &Request<'_>,
    gate: &G,
) -> Result<Option<Violation>, Fault>
    ensures violation { IfOk result (HasViolation left.now right.now request.now) }
    ensures fault { IfErr result (λ f. f ≢ Fault.Memory → IsFirstFault false left.now right.now request.now f) }
{
    let operands = read_operands(rt, alloc, left, right, request, &OpenGate, false)?;
    violation_of(rt, alloc, &operands, request, gate)
}
