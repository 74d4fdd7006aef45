//! Workers that are held up at a gate, which shows whether others go on beside them.
//!
//! A gate lets go after its limit of turns, each of which yields, and the test then fails. So a
//! join on one thread fails and doesn't hang.

use crate::engine::joins::{LEFTS, RIGHTS, in_pieces, keys_joined};
use rj_engine::{Gate, Place, Settings};
use rj_radix::Plain;
use std::sync::atomic::{AtomicU64, Ordering};
use std::test::Fail;
use std::thread;

/// How many turns a gate waits at most.
const TURNS: u32 = 10_000_000;

// Counts who has come to a place, and holds others until this many have.
#[derive(Drop)]
struct Meeting {
    least: u64,
    came: AtomicU64,
    alone: AtomicU64,
}

impl Meeting {
    fn of(least: u64) -> Meeting {
        Meeting {
            least,
            came: AtomicU64::new(0),
            alone: AtomicU64::new(0),
        }
    }

    // Counts one who comes. Returns how many came before.
    fn come(&self) -> u64 {
        self.came.fetch_add(1, Ordering::SeqCst)
    }

    // Waits for the others, and counts a wait in vain.
    fn wait(&self) {
        for _ in 0..TURNS {
            if self.count() >= self.least {
                return;
            }
            thread::yield_now();
        }
        self.alone.fetch_add(1, Ordering::SeqCst);
    }

    // How many have come.
    fn count(&self) -> u64 {
        self.came.load(Ordering::SeqCst)
    }

    // How many waited in vain, and how many have come.
    fn told(&self) -> (u64, u64) {
        (self.alone.load(Ordering::SeqCst), self.count())
    }
}

// Holds who comes first to a stripe, or to a partition, until workers have come to this many of
// them.
#[derive(Drop)]
struct FirstGate {
    is_of_stripes: bool,
    meeting: Meeting,
}

impl Gate for FirstGate {
    fn pass(&self, place: Place) {
        let is_drawn = match place {
            Place::Stripe(_) => self.is_of_stripes,
            Place::Partition(_) => !self.is_of_stripes,
            _ => false,
        };
        if is_drawn && self.meeting.come() == 0 {
            self.meeting.wait();
        }
    }
}

// While one of two scanners is held at a stripe, the other draws the second one.
#[test]
fn stripe_gate_test(rt: HostRuntime) -> Result<(), Fail> {
    let gate = FirstGate {
        is_of_stripes: true,
        meeting: Meeting::of(2),
    };
    let settings = Settings::new(2, 4, 0, 1024, 1, 64, 1);
    let (lefts, rights) = ([1, 2, 3], [3, 2, 2]);
    let rows = keys_joined(&rt, rt.alloc(), &lefts, &rights, settings, &Plain, &gate)?;
    assert_eq!(rt; (gate.meeting.told(), rows), ((0, 2), Some(3)));
    Ok(())
}

// Holds the taker of partition 0 until a parcel was posted to it, and then for 1,000 turns more.
#[derive(Drop)]
struct QueueGate {
    posted: Meeting,
    meanwhile: AtomicU64,
}

impl Gate for QueueGate {
    fn pass(&self, place: Place) {
        match place {
            Place::Posted(_) => {
                self.posted.come();
            }
            Place::Take(_) => {
                self.posted.wait();
                for _ in 0..1000 {
                    thread::yield_now();
                }
                self.meanwhile.store(self.posted.count(), Ordering::SeqCst);
            }
            _ => {}
        }
    }
}

// A queue of one parcel is full until the taker takes. Each table has three blocks of one row, and a close.
#[test]
fn queue_test(rt: HostRuntime) -> Result<(), Fail> {
    let gate = QueueGate {
        posted: Meeting::of(1),
        meanwhile: AtomicU64::new(0),
    };
    let settings = Settings::new(1, 0, 0, 1, 1, 1, 1);
    let (lefts, rights) = ([1, 2, 3], [3, 2, 2]);
    let rows = keys_joined(&rt, rt.alloc(), &lefts, &rights, settings, &Plain, &gate)?;
    let meanwhile = gate.meanwhile.load(Ordering::SeqCst);
    assert_eq!(rt; (meanwhile, gate.posted.told(), rows), (1, (0, 8), Some(3)));
    Ok(())
}

// While one of two takers is held at a partition, the other draws the remaining three.
#[test]
fn drawn_partitions_gate(rt: HostRuntime) -> Result<(), Fail> {
    let gate = FirstGate {
        is_of_stripes: false,
        meeting: Meeting::of(4),
    };
    let settings = Settings::new(2, 2, 0, 1024, 1, 64, 1);
    let rows = keys_joined(&rt, rt.alloc(), &[-1, 0, 5], &[5], settings, &Plain, &gate)?;
    assert_eq!(rt; (gate.meeting.told(), rows), ((0, 4), Some(1)));
    Ok(())
}

// Holds piece 0 of partition 7 until a worker has come to its piece 1.
#[derive(Drop)]
struct PieceGate {
    pieces: Meeting,
}

impl Gate for PieceGate {
    fn pass(&self, place: Place) {
        match place {
            Place::Piece(7, 1) => {
                self.pieces.come();
            }
            Place::Piece(7, 0) => self.pieces.wait(),
            _ => {}
        }
    }
}

// Ten left and three right rows of one key, which all go to partition 7 of 16, in pieces of 4, 4 and 2 probed rows.
#[test]
fn piece_gate_test(rt: HostRuntime) -> Result<(), Fail> {
    let gate = PieceGate {
        pieces: Meeting::of(1),
    };
    let rows = keys_joined(&rt, rt.alloc(), &LEFTS, &RIGHTS, in_pieces(), &Plain, &gate)?;
    assert_eq!(rt; (gate.pieces.told(), rows), ((0, 1), Some(30)));
    Ok(())
}
