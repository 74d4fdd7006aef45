//! The workers of a run, as they start and as they end.
ghost use Rattle.std.specs.Prelude.{◌≡◌, ◌++◌, All, IfOk};
ghost use Rattle.std.specs.Vec.Iter.{into_iter_items};
ghost use Rattle.rj_workers.specs.Internal.Workers.{AreWorkersWith, IsPrefix};
ghost use Rattle.rj_workers.specs.Internal.Scans.{scanner_draws, scanner_outboxes, scanner_seats};
ghost use Rattle.rj_workers.specs.Internal.Takes.{OwnsNothing, taker_done_seats, taker_draws, taker_seats};

use crate::coordination::Seats;
use crate::scan::Scanner;
use crate::take::Taker;
use rj_exchange::{HaltSeat, Outbox, Seat, StripeSeat};
use std::alloc::{AllocError, Global};
use std::vec::IntoIter;

/// The workers of a run as they start.
#[derive(Drop)]
pub(crate) struct NewWorkers<T> {
    pub(crate) scanners: Vec<Scanner>,
    pub(crate) takers: Vec<Taker<T>>,
    // The starting thread's seat at the done word.
    pub(crate) over: HaltSeat,
}

/// The workers of a run as they end.
#[derive(Drop)]
pub(crate) struct EndedWorkers<T> {
    pub(crate) scanners: Vec<Scanner>,
    pub(crate) takers: Vec<Taker<T>>,
}

// A scanner for each outbox, if there are enough seats.
fn make_scanners(
    alloc: Global,
    outboxes: Vec<Outbox>,
    seats: &mut IntoIter<HaltSeat, Global>,
    draws: Vec<StripeSeat>,
) -> Result<Vec<Scanner>, AllocError>
    ensures outboxes { IfOk result (λ v. scanner_outboxes v.items ≡ outboxes.items) }
    ensures seats { IfOk result (λ v. scanner_seats v.items ++ into_iter_items seats.new ≡ into_iter_items seats.old) }
    ensures draws { IfOk result (λ v. IsPrefix (scanner_draws v.items) draws.items) }
{
    let mut left = draws.into_iter();
    let mut scanners = Vec::with_capacity(alloc, outboxes.len())?;
    for outbox in outboxes {
        let Some(seat) = seats.next() else {
            return Err(AllocError);
        };
        let Some(draws) = left.next() else {
            return Err(AllocError);
        };
        scanners.push(Scanner {
            outbox,
            seat,
            draws,
        })?;
    }
    Ok(scanners)
}

// A taker for each seat at the tickets, if there are enough seats at the words.
fn make_takers<T: Drop>(
    alloc: Global,
    seats: &mut IntoIter<HaltSeat, Global>,
    done_seats: &mut IntoIter<HaltSeat, Global>,
    draws: Vec<Seat>,
) -> Result<Vec<Taker<T>>, AllocError>
    ensures seats { IfOk result (λ v. taker_seats v.items ++ into_iter_items seats.new ≡ into_iter_items seats.old) }
    ensures done_seats { IfOk result (λ v. taker_done_seats v.items ++ into_iter_items done_seats.new ≡ into_iter_items done_seats.old) }
    ensures draws { IfOk result (λ v. taker_draws v.items ≡ draws.items) }
    ensures empty { IfOk result (λ v. All OwnsNothing v.items) }
{
    let mut takers = Vec::with_capacity(alloc, draws.len())?;
    for draws in draws {
        let Some(seat) = seats.next() else {
            return Err(AllocError);
        };
        let Some(done_seat) = done_seats.next() else {
            return Err(AllocError);
        };
        takers.push(Taker {
            all: Vec::new(alloc),
            seat,
            done_seat,
            draws,
        })?;
    }
    Ok(takers)
}

/// All workers as they start, and the starting thread's seat at the halt word, if there are enough
/// seats.
pub(crate) fn make_workers<T: Drop>(
    alloc: Global,
    outboxes: Vec<Outbox>,
    seats: Seats,
) -> Result<(NewWorkers<T>, HaltSeat), AllocError>
    ensures { IfOk result (λ r. AreWorkersWith outboxes.items seats r.0 r.1) }
{
    let mut at_halt = seats.halt.into_iter();
    let mut at_done = seats.done.into_iter();
    let own = at_halt.next().ok_or(AllocError)?;
    let over = at_done.next().ok_or(AllocError)?;
    let draws = seats.stripes;
    let scanners = make_scanners(alloc, outboxes, &mut at_halt, draws)?;
    let draws = seats.tickets;
    let takers = make_takers(alloc, &mut at_halt, &mut at_done, draws)?;
    let workers = NewWorkers {
        scanners,
        takers,
        over,
    };
    Ok((workers, own))
}
