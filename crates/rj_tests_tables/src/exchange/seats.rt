//! Tickets, stripes and the halt word, each seat in a thread of its own.
ghost use Rattle.std.specs.Prelude.{◌≤◌, ◌^◌};
ghost use Rattle.rj_exchange.specs.Tickets.{IsSeatOf};
ghost use Rattle.rj_exchange.specs.Stripes.{IsStripeSeatOf};
ghost use Rattle.rj_exchange.specs.Halt.{IsHaltSeatOf};

use crate::waiting::TURNS;
use rj_exchange::{Halt, HaltSeat, Seat, StripeSeat, Stripes, Tickets};
use std::alloc::{AllocError, Global};
use std::sync::Wait;
use std::sync::atomic::{AtomicU32, Ordering};
use std::test::Fail;
use std::thread;
use std::thread::Threads;

// Draws until the seat is spent.
fn draw_tickets(tickets: &Tickets, mut seat: Seat) -> Seat
    requires { IsSeatOf tickets.now seat }
    ensures { IsSeatOf tickets.now result }
{
    for _ in 0..u64::MAX {
        if tickets.claim(&mut seat).is_none() {
            break;
        }
    }
    seat
}

// How many of this many tickets four seats draw.
fn drawn<R: Threads + Sync>(rt: &R, alloc: Global, count: u64) -> Result<u64, AllocError>
    requires { count ≤ 2 ^ 32 }
{
    let (tickets, seats) = Tickets::open(alloc, count, 4)?;
    let shared = &tickets;
    let seats = thread::map_vec(rt, seats, &|seat: Seat| draw_tickets(shared, seat))?;
    Ok(tickets.finish(seats))
}

#[test]
fn thousand_tickets(rt: HostRuntime) -> Result<(), Fail> {
    assert_eq!(rt; drawn(&rt, rt.alloc(), 1000)?, 1000);
    Ok(())
}

#[test]
fn no_tickets(rt: HostRuntime) -> Result<(), Fail> {
    assert_eq!(rt; drawn(&rt, rt.alloc(), 0)?, 0);
    Ok(())
}

// Draws until there is nothing left. An odd number goes back once.
fn draw_stripes<R: Wait>(rt: &R, stripes: &Stripes, mut seat: StripeSeat) -> StripeSeat
    requires { IsStripeSeatOf stripes.now seat }
    ensures { IsStripeSeatOf stripes.now result }
{
    for _ in rt.forever() {
        let Some((number, count)) = stripes.draw(rt, &mut seat) else {
            break;
        };
        if number % 2 == 1 && count == 0 {
            stripes.put_back(rt, &mut seat, number, 1);
        }
    }
    seat
}

// Whether four seats hold all of 64 stripes in the end, including those that went back.
fn are_held<R: Threads + Wait + Sync>(rt: &R, alloc: Global) -> Result<bool, AllocError> {
    let (stripes, seats) = Stripes::open(rt, alloc, 64, 4)?;
    let shared = &stripes;
    let seats = thread::map_vec(
        rt,
        seats,
        &|seat: StripeSeat| draw_stripes(rt, shared, seat),
    )?;
    Ok(stripes.finish(rt, seats))
}

#[test]
fn stripes_in_threads(rt: HostRuntime) -> Result<(), Fail> {
    assert!(rt; are_held(&rt, rt.alloc())?);
    Ok(())
}

// The first who comes raises the word. Others look until they have seen that: whether they have.
fn raise_or_look(halt: &Halt, mut seat: HaltSeat, came: &AtomicU32) -> bool
    requires { IsHaltSeatOf halt.now seat }
{
    if came.fetch_add(1, Ordering::SeqCst) == 0 {
        halt.raise(&mut seat);
        return true;
    }
    for _ in 0..TURNS {
        if halt.raised(&mut seat) {
            return true;
        }
        thread::yield_now();
    }
    false
}

// Whether one seat sees what another raises.
fn is_seen<R: Threads + Sync>(rt: &R, alloc: Global) -> Result<bool, AllocError> {
    let (halt, seats) = Halt::open(alloc, 2)?;
    let (halt, came) = (&halt, &AtomicU32::new(0));
    let seen = thread::map_vec(rt, seats, &|seat: HaltSeat| raise_or_look(halt, seat, came))?;
    Ok(seen.iter().all(|seen| *seen))
}

#[test]
fn halt_seen_by_another(rt: HostRuntime) -> Result<(), Fail> {
    assert!(rt; is_seen(&rt, rt.alloc())?);
    Ok(())
}
