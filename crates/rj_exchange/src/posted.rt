//! The content of a queue.
use crate::ledger::Parcel;

/// A parcel with the number of the outbox that posted it.
#[derive(Drop)]
pub struct Posted {
    /// The outbox, counted from 0.
    pub outbox: u32,
    /// What it posted.
    pub parcel: Parcel,
}
