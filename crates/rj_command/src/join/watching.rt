//! How a run can be watched.

use rj_engine::{Gate, OpenGate};
use rj_line::fault::Side;
use std::sync::atomic::AtomicU64;

/// A step of a run. The steps come in this order, each after the ones before it have ended without
/// an error.
#[derive(Clone, Copy, Debug, PartialEq, Eq)]
pub enum Step {
    /// The table of a side is read from its bytes.
    Read(Side),
    /// Two tables of these numbers of rows are joined, or the rows of their joined table counted.
    Join {
        /// The rows of the left table.
        left_rows: u64,
        /// The rows of the right table.
        right_rows: u64,
    },
    /// This many rows are written. If rows are only counted, this step doesn't come.
    Write {
        /// The rows, without the header.
        rows: u64,
    },
}

/// What a run passes at each [`Step`], beside the gate that its workers pass at each place. No
/// answer of a run depends on it.
pub trait Watch: Gate {
    /// Called by the thread that runs, before a step begins.
    fn begin(&self, step: Step);

    /// Where it counts the left rows whose part of the result's text is made, if it does. A large
    /// left table's are counted some ten thousand at a time, before anything is written.
    fn made_rows(&self) -> Option<&AtomicU64> {
        None
    }
}

impl Watch for OpenGate {
    fn begin(&self, step: Step) {
        let _step = step;
    }
}
