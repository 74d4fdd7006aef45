//! Twelve shares that four workers draw, who are held up at a gate.

use crate::waiting::{TURNS, wait_for};
use rj_workers::{Gate, Place, Shares, run_shares};
use std::alloc::{AllocError, Global};
use std::sync::atomic::{AtomicU64, Ordering};
use std::test::Fail;
use std::thread::Threads;

// Shares that make nothing.
#[derive(Drop)]
struct Numbers {
    count: u64,
}

impl Shares for Numbers {
    ghost shares = { λ s. s.count };

    type Done = ();

    ghost makes = { λ s k done. Unit {0} };

    fn count(&self) -> u64 {
        self.count
    }

    fn place(&self, number: u64) -> Place {
        let _shares = self;
        Place::Piece(0, number)
    }

    fn share(&self, alloc: Global, number: u64) -> Result<(), AllocError> {
        let (_shares, _alloc, _number) = (self, alloc, number);
        Ok(())
    }
}

// Holds who comes to a share until as many have come to shares as it says for this one.
#[derive(Drop)]
struct Holds {
    until: [u64; 12],
    came: AtomicU64,
    in_vain: AtomicU64,
}

impl Gate for Holds {
    fn pass(&self, place: Place) {
        let least = match place {
            Place::Piece(0, number) => self.until.as_slice().get(number as usize),
            _ => None,
        };
        let Some(least) = least else {
            return;
        };
        self.came.fetch_add(1, Ordering::SeqCst);
        // (after the first who waited in vain nobody waits)
        if self.in_vain.load(Ordering::SeqCst) == 0 && !wait_for(&self.came, *least, TURNS) {
            self.in_vain.fetch_add(1, Ordering::SeqCst);
        }
    }
}

// Whether workers come to each share, and none of them waits in vain.
fn are_shared<R: Threads + Sync>(
    rt: &R,
    alloc: Global,
    until: [u64; 12],
) -> Result<bool, AllocError> {
    let (came, in_vain) = (AtomicU64::new(0), AtomicU64::new(0));
    let gate = Holds {
        until,
        came,
        in_vain,
    };
    run_shares(rt, alloc, &Numbers { count: 12 }, &gate, 4)?;
    let came = gate.came.load(Ordering::SeqCst);
    Ok(came == 12 && gate.in_vain.load(Ordering::SeqCst) == 0)
}

// A worker that waits draws nothing meanwhile, so that a round is four workers at work at the same time. There are three: each
// worker makes three shares, and none is left to the starting thread, which would wait in vain for others.
#[test]
fn each_worker_makes_three_shares(rt: HostRuntime) -> Result<(), Fail> {
    let rounds = [4, 4, 4, 4, 8, 8, 8, 8, 12, 12, 12, 12];
    assert!(rt; are_shared(&rt, rt.alloc(), rounds)?);
    Ok(())
}

// While one worker is held at the first share, the others make the remaining eleven.
#[test]
fn others_make_the_rest(rt: HostRuntime) -> Result<(), Fail> {
    let first = [12, 0, 0, 0, 0, 0, 0, 0, 0, 0, 0, 0];
    assert!(rt; are_shared(&rt, rt.alloc(), first)?);
    Ok(())
}
