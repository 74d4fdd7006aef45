//! How workers wait that find nothing to do.

use std::thread;
use std::time::{Clock, Duration};

// How often in a row a worker yields to other threads before it sleeps.
const YIELDS: u32 = 32;

// The shortest and the longest sleep, in microseconds.
const SHORTEST: u64 = 20;

const LONGEST: u64 = 500;

/// The waits of one worker in a row. First it yields to other threads, then it sleeps, longer each
/// time, so that it takes hardly any processor time.
#[derive(Clone, Copy, Debug)]
pub(crate) struct Pause {
    yields: u32,
    sleep: u64,
}

impl Pause {
    /// The pause of a worker that has not waited yet.
    pub(crate) fn new() -> Self {
        Pause {
            yields: 0,
            sleep: SHORTEST,
        }
    }

    /// Waits once, unless something was found. Then the next wait is the first of its row.
    pub(crate) fn after<R: Clock>(&mut self, rt: &R, found: bool) {
        if found {
            *self = Pause::new();
        } else {
            self.wait(rt);
        }
    }

    fn wait<R: Clock>(&mut self, rt: &R) {
        if self.yields < YIELDS {
            self.yields += 1;
            thread::yield_now();
            return;
        }
        thread::sleep(rt, Duration::from_micros(self.sleep));
        self.sleep = self.sleep.saturating_mul(2).min(LONGEST);
    }
}
