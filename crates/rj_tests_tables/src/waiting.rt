//! Waits of one thread for others, which end by themselves.

use std::sync::atomic::{AtomicU64, Ordering};
use std::thread;

/// How often a thread that waits for others looks again. Each turn yields; past the last the test fails.
pub const TURNS: u32 = 10_000_000;

/// Waits at most this many turns until a count has come this far. Returns whether it did.
pub fn wait_for(count: &AtomicU64, least: u64, turns: u32) -> bool {
    for _ in 0..turns {
        if count.load(Ordering::SeqCst) >= least {
            return true;
        }
        thread::yield_now();
    }
    false
}
