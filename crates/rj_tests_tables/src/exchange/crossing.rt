//! Three outboxes and two inboxes in callers' own threads, over queues of one parcel.
ghost use Rattle.std.specs.Prelude.{◌≡◌, ◌≤◌, length};
ghost use Rattle.rj_exchange.specs.Boxes.{AreOpenedInboxes, AreOpenedOutboxes, IsOutboxOf, TakesFrom};

use crate::exchange::passing::{post_all, take_lanes};
use crate::waiting::TURNS;
use rj_exchange::ledger::{Answer, Ledger, Parcel, cut, replay};
use rj_exchange::{Exchange, Inbox, Outbox};
use std::alloc::{AllocError, Global};
use std::sync::Wait;
use std::sync::atomic::{AtomicU32, Ordering};
use std::test::Fail;
use std::thread;
use std::thread::Threads;

const SQUARES: &[u32] = &[1, 4, 9, 16, 25, 36, 49];

const PRIMES: &[u32] = &[2, 3, 5, 7, 11];

// How many parcels all senders have for a partition: twelve blocks of one row, and three closes.
const PLANNED: usize = 15;

// What a sender posts: its plans for two partitions backwards, and then once more forwards.
fn twice(alloc: Global, sender: u32) -> Result<Vec<Parcel>, AllocError> {
    let rows = match sender {
        0 => SQUARES,
        1 => PRIMES,
        _ => &[],
    };
    let mut parcels = Vec::new(alloc);
    for turn in 0..4 {
        let mut plan = cut(alloc, rows, sender, turn % 2, 1)?;
        if turn < 2 {
            plan.reverse();
        }
        parcels.append(&mut plan)?;
    }
    Ok(parcels)
}

// How many of the three threads that post have begun, and how many have ended.
#[derive(Drop)]
struct Posting {
    begun: AtomicU32,
    ended: AtomicU32,
}

// Posts by this outbox what the next sender has.
fn post_next<R: Wait>(
    rt: &R,
    alloc: Global,
    exchange: &Exchange,
    mut outbox: Outbox,
    posting: &Posting,
)
    requires { IsOutboxOf exchange.now outbox }
{
    let sender = posting.begun.fetch_add(1, Ordering::SeqCst);
    if let Ok(parcels) = twice(alloc, sender) {
        post_all(rt, exchange, &mut outbox, parcels);
    }
    posting.ended.fetch_add(1, Ordering::SeqCst);
}

// Takes beside those that post, and then the rest.
fn take_all<R: Wait>(
    rt: &R,
    alloc: Global,
    exchange: &Exchange,
    mut inbox: Inbox,
    posting: &Posting,
) -> Vec<Parcel>
    requires { TakesFrom exchange.now inbox }
{
    let mut parcels = Vec::new(alloc);
    for _ in 0..TURNS {
        let is_rest = posting.ended.load(Ordering::SeqCst) == 3;
        let taken = take_lanes(rt, exchange, &mut inbox, &mut parcels);
        if taken.is_err() || is_rest {
            break;
        }
        thread::yield_now();
    }
    parcels
}

// What the inbox of each partition took of three outboxes.
fn cross<R: Threads + Wait + Sync>(
    rt: &R,
    alloc: Global,
    lanes: u32,
) -> Result<Vec<Vec<Parcel>>, AllocError>
    requires { (1 ≤ lanes) × (lanes ≤ 4) }
{
    let (exchange, boxes, inboxes) = Exchange::open(alloc, 3, 2, lanes, 1)?;
    let (begun, ended) = (AtomicU32::new(0), AtomicU32::new(0));
    let (at, posting) = (&exchange, &Posting { begun, ended });
    let (_posted, taken) = thread::join(
        rt,
        move || -> Result<Vec<()>, AllocError>
            requires { (length boxes.items ≡ 3) × AreOpenedOutboxes at.now 3 2 boxes.items }
        {
            let post = |own: Outbox| post_next(rt, alloc, at, own, posting);
            thread::map_vec(rt, boxes, &post)
        },
        move || -> Result<Vec<Vec<Parcel>>, AllocError>
            requires { (length inboxes.items ≡ 2) × AreOpenedInboxes at.now 2 inboxes.items }
        {
            let take = |own: Inbox| take_all(rt, alloc, at, own, posting);
            thread::map_vec(rt, inboxes, &take)
        },
    );
    taken
}

// Whether this many parcels of a sender were taken backwards and then once more forwards, as over
// one lane.
fn are_sent(parcels: &[Parcel], sender: u32, count: u32) -> bool {
    let count = u64::from(count);
    let mut found = 0u64;
    for parcel in parcels {
        if parcel.sender != sender {
            continue;
        }
        let wanted = if found < count {
            count - 1 - found
        } else {
            found - count
        };
        if parcel.number != wanted {
            return false;
        }
        found = found.saturating_add(1);
    }
    found == 2 * count
}

// Each sender, and how many parcels it has for a partition.
const SENT: [(u32, u32); 3] = [(0, 8), (1, 6), (2, 1)];

// Whether the parcels are what three senders posted to a partition, those of each in its order.
fn are_interleaved(parcels: &[Parcel]) -> bool {
    let mut senders = SENT.iter();
    parcels.len() == 2 * PLANNED
        && senders.all(|(sender, count)| are_sent(parcels, *sender, *count))
}

#[test]
fn boxes_in_threads(rt: HostRuntime) -> Result<(), Fail> {
    let taken = cross(&rt, rt.alloc(), 1)?;
    assert!(rt; taken.iter().all(|parcels| are_interleaved(parcels)));
    Ok(())
}

// Whether it is complete, and has delivered each sender's rows.
fn has_delivered(ledger: &Ledger) -> bool
    requires { length ledger.now.senders ≡ 3 }
{
    ledger.complete()
        && ledger.delivered(0) == SQUARES
        && ledger.delivered(1) == PRIMES
        && ledger.delivered(2).is_empty()
}

// Whether a ledger delivers all by these parcels, and refuses the later copies.
fn are_delivered(alloc: Global, parcels: Vec<Parcel>, partition: u32) -> Result<bool, AllocError> {
    let (answers, ledger) = replay(alloc, partition, 3, 1, parcels)?;
    let mut refused = answers
        .iter()
        .filter(|answer| matches!(**answer, Answer::Refused(_)));
    Ok(refused.count() == PLANNED && has_delivered(&ledger))
}

#[test]
fn backwards_then_forwards(rt: HostRuntime) -> Result<(), Fail> {
    let mut taken = cross(&rt, rt.alloc(), 3)?;
    for partition in [1, 0] {
        let Some(parcels) = taken.pop() else {
            panic!(rt; "there are two inboxes")
        };
        assert!(rt; are_delivered(rt.alloc(), parcels, partition)?);
    }
    Ok(())
}
