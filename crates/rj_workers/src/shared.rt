//! What all workers of a run share.

use crate::settings::WorkerSettings;
use rj_exchange::{Exchange, Halt, Stripes, Tickets};
use std::alloc::AllocError;

/// What all workers of a run share.
pub(crate) struct Shared<'a, J, G> {
    /// The queues that lead from scanners to takers.
    pub(crate) exchange: &'a Exchange,
    /// Raised when memory runs out or a thread can't be started.
    pub(crate) halt: &'a Halt,
    /// Raised once all scanners have ended.
    pub(crate) done: &'a Halt,
    /// The stripes that scanners draw.
    pub(crate) stripes: &'a Stripes,
    /// The numbers of the partitions that takers draw.
    pub(crate) tickets: &'a Tickets,
    /// What is scanned and joined.
    pub(crate) job: &'a J,
    /// What workers pass at each place.
    pub(crate) gate: &'a G,
    /// The numbers of the run.
    pub(crate) settings: WorkerSettings,
}

impl<J, G> Clone for Shared<'_, J, G> {
    fn clone(&self) -> Result<Self, AllocError> {
        Ok(*self)
    }
}

impl<J, G> Copy for Shared<'_, J, G> {}
