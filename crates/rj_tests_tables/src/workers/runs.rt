//! Queues that a scanner fills while the only taker is held before its first take, and runs whose
//! scans run out of memory.
//!
//! Sender 0 has two blocks and a close for partition 0, two and a close for partition 1, one and a
//! close for partition 2. Sender 1 has one, two and two blocks for them, and a close for each. The
//! two lists of a partition are posted one after the other.

use crate::waiting::{TURNS, wait_for};
use crate::workers::dealt::builds;
use rj_workers::{Gate, OpenGate, Place};
use std::alloc::{AllocError, Global};
use std::sync::Wait;
use std::sync::atomic::{AtomicU64, Ordering};
use std::test::Fail;
use std::thread::Threads;
use std::time::Clock;

// How often the taker looks again for what must not come. After the last turn the test goes on.
const FEW_TURNS: u32 = 100_000;

// Holds the taker of partition 0 until this many parcels were posted, and then for some turns in
// which no more should be.
#[derive(Drop)]
struct Hold {
    room: u64,
    posted: AtomicU64,
    // How many were posted when it let the taker go.
    before: AtomicU64,
}

impl Gate for Hold {
    fn pass(&self, place: Place) {
        match place {
            Place::Posted(_) => {
                self.posted.fetch_add(1, Ordering::SeqCst);
            }
            Place::Take(0) => {
                if wait_for(&self.posted, self.room, TURNS) {
                    wait_for(&self.posted, self.room.saturating_add(1), FEW_TURNS);
                }
                let posted = self.posted.load(Ordering::SeqCst);
                self.before.store(posted, Ordering::SeqCst);
            }
            _ => {}
        }
    }
}

// Whether exactly this many parcels are posted before the first take, and in the end all sixteen.
fn is_room<R: Threads + Wait + Clock + Sync>(
    rt: &R,
    alloc: Global,
    queues: (u32, u32),
    room: u64,
) -> Result<bool, AllocError> {
    let (posted, before) = (AtomicU64::new(0), AtomicU64::new(0));
    let gate = Hold {
        room,
        posted,
        before,
    };
    let builds = builds(rt, alloc, &gate, 1, queues, (0, 0))?;
    let before = gate.before.load(Ordering::SeqCst);
    let posted = gate.posted.load(Ordering::SeqCst);
    Ok(builds.is_some() && before == room && posted == 16)
}

// Lanes and a capacity, and how many parcels there is room for: a queue of one is full at the second, a queue of two at the third.
const ROOMS: [((u32, u32), u64); 4] = [((1, 1), 3), ((1, 2), 6), ((1, 3), 9), ((2, 1), 6)];

#[test]
fn capacity_is_heeded(rt: HostRuntime) -> Result<(), Fail> {
    for (queues, room) in ROOMS {
        assert!(rt; is_room(&rt, rt.alloc(), queues, room)?, "{room}");
    }
    Ok(())
}

// Of three lanes with room for one parcel each, the two parcels of sender 0 leave the last lane of partition 2 free. The first
// parcel of sender 1 finds lane 0 full, and those after it wait: the third one, its close, which has lane 2, doesn't overtake it.
#[test]
fn lists_are_posted_in_order(rt: HostRuntime) -> Result<(), Fail> {
    assert!(rt; is_room(&rt, rt.alloc(), (3, 1), 8)?);
    Ok(())
}

// How many workers there are, how many scans run out of memory and how often a stripe may be
// scanned again, and how often the partitions are then built, if the run ends with its result.
type Run = (u32, (u64, u32), Option<u64>);

fn are_built<R: Threads + Wait + Clock + Sync>(
    rt: &R,
    alloc: Global,
    runs: &[Run],
) -> Result<bool, AllocError> {
    for (workers, scans, wanted) in runs {
        if builds(rt, alloc, &OpenGate, *workers, (2, 1), *scans)? != *wanted {
            return Ok(false);
        }
    }
    Ok(true)
}

const CALM: [Run; 3] = [
    (1, (0, 0), Some(3)),
    (2, (0, 0), Some(3)),
    (8, (0, 0), Some(3)),
];

#[test]
fn partitions_are_built_once(rt: HostRuntime) -> Result<(), Fail> {
    assert!(rt; are_built(&rt, rt.alloc(), CALM.as_slice())?);
    Ok(())
}

const REFUSED: [Run; 4] = [
    (1, (1, 0), None),
    (1, (1, 1), Some(3)),
    (1, (3, 3), Some(3)),
    (1, (4, 3), None),
];

#[test]
fn refused_stripes_are_scanned_again(rt: HostRuntime) -> Result<(), Fail> {
    assert!(rt; are_built(&rt, rt.alloc(), REFUSED.as_slice())?);
    Ok(())
}
