//! Opening an exchange.
ghost use Rattle.std.specs.Prelude.{◌≡◌, ◌<◌, ◌≤◌, ◌+◌, ◌∷◌, ◌++◌, [], length, IfOk};
ghost use Rattle.crossbeam_queue.specs.Passes.{view, IsPassOf};
ghost use Rattle.rj_exchange.specs.Passing.{taker};
ghost use Rattle.rj_exchange.specs.Boxes.{IsOpened};
ghost use Rattle.rj_exchange.specs.Internal.Opening.{place_of, IsFreshStub, IsFreshQueue, AddStubs};
ghost use Rattle.rj_exchange.specs.Internal.Ends.{IsTaker};

use crate::boxes::{Exchange, Inbox, Outbox, Stub};
use crate::queue::{ParcelQueue, QueuePlace, deal, fix};
use std::alloc::{AllocError, Global};
use std::marker::Brand;

fn queue_at<B: QueuePlace>(
    alloc: Global,
    capacity: usize,
    partition: u32,
    lane: u32,
    lanes: u32,
    outboxes: u32,
) -> Result<(ParcelQueue, Stub), AllocError>
    requires capacity { 0 < capacity }
    requires place { B.place ≡ place_of partition lane lanes outboxes }
    ensures { IfOk result (λ q. IsFreshQueue (place_of partition lane lanes outboxes) 0 capacity q.0 q.1) }
{
    let (queue, mut pass) = ParcelQueue::ruled(alloc, capacity)?;
    fix::<B>(&queue, &mut pass);
    Ok((queue, Stub { pass }))
}

fn deal_at(queue: &ParcelQueue, end: &mut Stub) -> Stub
    requires { IsTaker 0 queue.now end.old }
    ensures end { let v = view end.old.pass in IsPassOf queue.now end.new.pass × (view end.new.pass ≡ taker v.place (v.made + 1) v.taken v.known) }
    ensures stub { let v = view end.old.pass in IsFreshStub v.place v.made queue.now result }
{
    let pass = deal(queue, &mut end.pass);
    Stub { pass }
}

fn give(outbox: &mut Outbox, stub: Stub) -> Result<(), AllocError>
    ensures { IfOk result (λ _. (outbox.new.number ≡ outbox.old.number) × (outbox.new.stubs.items ≡ outbox.old.stubs.items ++ stub ∷ [])) }
{
    outbox.stubs.push(stub)?;
    Ok(())
}

// One queue, with a token for each outbox.
fn add_queue(
    alloc: Global,
    capacity: usize,
    partition: u32,
    lane: u32,
    lanes: u32,
    outboxes: u32,
    boxes: &mut Vec<Outbox>,
) -> Result<(ParcelQueue, Stub), AllocError>
    requires capacity { 0 < capacity }
    requires boxes { length boxes.old.items ≡ outboxes }
    ensures queue { IfOk result (λ q. IsFreshQueue (place_of partition lane lanes outboxes) outboxes capacity q.0 q.1) }
    ensures boxes { IfOk result (λ q. AddStubs (place_of partition lane lanes outboxes) outboxes q.0 boxes.old.items boxes.new.items) }
{
    let (queue, mut end) = queue_at::<Brand>(alloc, capacity, partition, lane, lanes, outboxes)?;
    for at in 0..boxes.len() {
        let stub = deal_at(&queue, &mut end);
        give(&mut boxes[at], stub)?;
    }
    Ok((queue, end))
}

impl Exchange {
    /// An exchange with empty queues of `capacity` parcels, 1 to 4,096, for each of the partitions,
    /// 1 to 1,024, and lanes, 1 to 4; its outboxes, 1 to 64, by number; and its inboxes, by
    /// partition. It reserves all the room that posting, taking and ending need.
    ///
    /// # Errors
    ///
    /// It fails only when memory runs out.
    pub fn open(
        alloc: Global,
        outboxes: u32,
        partitions: u32,
        lanes: u32,
        capacity: usize,
    ) -> Result<(Exchange, Vec<Outbox>, Vec<Inbox>), AllocError>
        requires { (outboxes ≤ 64) × (partitions ≤ 1024) × (1 ≤ lanes) × (lanes ≤ 4) × (1 ≤ capacity) × (capacity ≤ 4096) }
        ensures opened { IfOk result (λ r. IsOpened r.0 r.1.items r.2.items outboxes partitions) }
        ensures sizes { IfOk result (λ r. (r.0.lanes ≡ lanes) × (r.0.capacity ≡ capacity)) }
    {
        let mut boxes = Vec::new(alloc);
        for number in 0..outboxes {
            boxes.push(Outbox {
                number,
                stubs: Vec::new(alloc),
            })?;
        }
        let mut queues = Vec::new(alloc);
        let mut inboxes = Vec::new(alloc);
        for partition in 0..partitions {
            let mut ends = Vec::new(alloc);
            for lane in 0..lanes {
                let (queue, end) = add_queue(
                    alloc, capacity, partition, lane, lanes, outboxes, &mut boxes,
                )?;
                queues.push(queue)?;
                ends.push(end)?;
            }
            inboxes.push(Inbox { partition, ends })?;
        }
        let exchange = Exchange {
            queues,
            outboxes,
            partitions,
            lanes,
            capacity,
        };
        Ok((exchange, boxes, inboxes))
    }
}
