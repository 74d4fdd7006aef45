//! One outbox and one inbox.
ghost use Rattle.std.specs.Prelude.{◌≡◌, ◌≤◌, IfOk};
ghost use Rattle.rj_exchange.specs.Boxes.{IsOutboxOf, IsInboxOf, TakesFrom};

use crate::waiting::TURNS;
use rj_exchange::ledger::{Answer, Body, Parcel, cut, replay};
use rj_exchange::{Exchange, Inbox, Outbox, heard_of_none};
use std::alloc::{AllocError, Global};
use std::sync::Wait;
use std::test::Fail;
use std::thread;

/// Posts the parcels in order, each once more if the queue is full.
pub fn post_all<R: Wait>(rt: &R, exchange: &Exchange, outbox: &mut Outbox, parcels: Vec<Parcel>)
    requires { IsOutboxOf exchange.now outbox.old }
    ensures { IsOutboxOf exchange.now outbox.new × (outbox.new.number ≡ outbox.old.number) }
{
    let mut left = parcels.into_iter();
    let mut next = left.next();
    for _ in 0..TURNS {
        let Some(parcel) = next else {
            return;
        };
        if parcel.partition >= exchange.partitions() {
            return;
        }
        next = match outbox.post(rt, exchange, parcel) {
            Ok(()) => left.next(),
            Err(full) => {
                thread::yield_now();
                Some(full.0)
            }
        };
    }
}

/// Takes at each lane until it is empty, at the last lane first.
pub fn take_lanes<R: Wait>(
    rt: &R,
    exchange: &Exchange,
    inbox: &mut Inbox,
    parcels: &mut Vec<Parcel>,
) -> Result<(), AllocError>
    requires { TakesFrom exchange.now inbox.old }
    ensures { TakesFrom exchange.now inbox.new }
{
    let mut lane = exchange.lanes() - 1;
    for _ in rt.forever() {
        match inbox.take(rt, exchange, lane) {
            Some(parcel) => parcels.push(parcel)?,
            None if lane > 0 => lane -= 1,
            None => break,
        }
    }
    Ok(())
}

// An exchange with one outbox and one partition.
fn open_one(
    alloc: Global,
    lanes: u32,
    capacity: usize,
) -> Result<(Exchange, Outbox, Inbox), AllocError>
    requires { (1 ≤ lanes) × (lanes ≤ 4) × (1 ≤ capacity) × (capacity ≤ 4096) }
    ensures sizes { IfOk result (λ r. (r.0.partitions ≡ 1) × (r.0.lanes ≡ lanes)) }
    ensures outbox { IfOk result (λ r. IsOutboxOf r.0 r.1 × (r.1.number ≡ 0)) }
    ensures inbox { IfOk result (λ r. IsInboxOf r.0 r.2 × (r.2.partition ≡ 0)) }
{
    let (exchange, mut boxes, mut inboxes) = Exchange::open(alloc, 1, 1, lanes, capacity)?;
    let Some(outbox) = boxes.pop() else {
        unreachable!()
    };
    let Some(inbox) = inboxes.pop() else {
        unreachable!()
    };
    Ok((exchange, outbox, inbox))
}

// A parcel for partition 0.
fn parcel(number: u64) -> Parcel
    ensures { result.partition ≡ 0 }
{
    let body = Body::Close;
    Parcel {
        sender: 0,
        partition: 0,
        number,
        body,
    }
}

#[test]
fn post_then_take(rt: HostRuntime) -> Result<(), Fail> {
    let (exchange, mut outbox, mut inbox) = open_one(rt.alloc(), 1, 4)?;
    assert!(rt; outbox.post(&rt, &exchange, parcel(7)).is_ok());
    let Some(taken) = inbox.take(&rt, &exchange, 0) else {
        panic!(rt; "the parcel was posted")
    };
    assert_eq!(rt; taken.number, 7);
    Ok(())
}

#[test]
fn full_queue(rt: HostRuntime) -> Result<(), Fail> {
    let (exchange, mut outbox, mut inbox) = open_one(rt.alloc(), 1, 2)?;
    let first = outbox.post(&rt, &exchange, parcel(0)).is_ok();
    let second = outbox.post(&rt, &exchange, parcel(1)).is_ok();
    let Err(full) = outbox.post(&rt, &exchange, parcel(2)) else {
        panic!(rt; "the queue is full")
    };
    let Some(taken) = inbox.take(&rt, &exchange, 0) else {
        panic!(rt; "the queue is full")
    };
    let are_told = full.0.number == 2 && taken.number == 0;
    let last = outbox.post(&rt, &exchange, full.0).is_ok();
    assert!(rt; first && second && are_told && last);
    Ok(())
}

// Posts four blocks and their close over two lanes, ends the outbox, and takes lane 1 to its end, then lane 0.
fn by_lanes<R: Wait>(rt: &R, alloc: Global) -> Result<Vec<Parcel>, AllocError> {
    let (exchange, mut outbox, mut inbox) = open_one(alloc, 2, 8)?;
    let parcels = cut(alloc, &[20, 21, 22, 23], 0, 0, 1)?;
    post_all(rt, &exchange, &mut outbox, parcels);
    heard_of_none();
    inbox.hear(&exchange, 0, outbox.end());
    let mut parcels = Vec::new(alloc);
    take_lanes(rt, &exchange, &mut inbox, &mut parcels)?;
    Ok(parcels)
}

#[test]
fn two_lanes(rt: HostRuntime) -> Result<(), Fail> {
    let parcels = by_lanes(&rt, rt.alloc())?;
    let mut numbers = parcels.iter().map(|parcel| parcel.number);
    assert!(rt; numbers.eq([1, 3, 0, 2, 4]));
    let (answers, ledger) = replay(rt.alloc(), 0, 1, 1, parcels)?;
    let wanted = [
        Answer::Held,
        Answer::Held,
        Answer::Accepted(2),
        Answer::Accepted(2),
        Answer::Accepted(1),
    ];
    assert!(rt; answers.as_slice() == wanted.as_slice() && ledger.complete());
    Ok(())
}
