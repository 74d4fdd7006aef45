//! The exchange: a queue for each partition and lane, outboxes that post and inboxes that take.
ghost use Rattle.std.specs.Prelude.{◌≡◌, ◌≤◌, ◌*◌, length, All};
ghost use Rattle.std.proofs.Props.{props};
ghost use Rattle.crossbeam_queue.specs.Passes.{ruled_capacity};

use crate::ledger::Parcel;
use crate::posted::Posted;
use crate::queue::{ParcelQueue, Trace};
use crossbeam_queue::Pass;

mod calls;
mod ends;
mod open;

/// The token of all that an outbox posted to one queue, or that an inbox took from it. It has no
/// bytes: its meaning is in the proofs alone.
#[derive(Drop)]
pub struct Stub {
    pass: Pass<Posted, Trace>,
}

/// The queues of parcels, one for each partition and lane. Threads share it by `&`.
#[derive(Drop)]
pub struct Exchange {
    queues: Vec<ParcelQueue>,
    outboxes: u32,
    partitions: u32,
    lanes: u32,
    capacity: usize,
    ghost sized: { length queues.items ≡ partitions * lanes },
    ghost limits: { (1 ≤ lanes) × (lanes ≤ 4) × (partitions ≤ 1024) × (outboxes ≤ 64) × (capacity ≤ 4096) },
    ghost room: { All (λ l. ruled_capacity l ≡ capacity) queues.items } by { Prim.hlevel props },
}

/// Posts to every queue, under a number of its own.
#[derive(Drop)]
pub struct Outbox {
    number: u32,
    stubs: Vec<Stub>,
}

/// Takes from the queues of one partition.
#[derive(Drop)]
pub struct Inbox {
    partition: u32,
    ends: Vec<Stub>,
}

/// The queue was full at a moment of the call. Nothing was posted, and the parcel is returned.
#[derive(Drop)]
pub struct Full(pub Parcel);

/// The parcels that were left in the queues of a partition, lane by lane, each lane's in order.
#[derive(Drop)]
pub struct Finished {
    /// A list for each lane, in the order of the lanes.
    pub rest: Vec<Vec<Posted>>,
}
