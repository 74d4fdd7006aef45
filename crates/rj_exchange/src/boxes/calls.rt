//! The calls of an exchange.
ghost use Rattle.std.specs.Prelude.{◌≡◌, ◌<◌, ◌*◌, ◌+◌, ◌∷◌, ◌++◌, [], ℕ, length, MatchOption, MatchResult};
ghost use Rattle.crossbeam_queue.specs.Passes.{view, ruled_capacity};
ghost use Rattle.crossbeam_queue.specs.Fifo.{Held};
ghost use Rattle.rj_exchange.specs.Passing.{Belongs, HeldAt, Left, Next};
ghost use Rattle.rj_exchange.specs.Boxes.{sent_of, taken_of, heard_of, sent_by_queue, taken_by_lane, heard_by_lane, IsStubOf, IsEndOf, IsOutboxOf};
ghost use Rattle.rj_exchange.specs.Boxes.{SendsOneMore, WasFull, WasEmpty, TakesOneMore};
ghost use Rattle.rj_exchange.specs.Boxes.{TakesFrom, IsInboxOf, HasHeard};

use crate::boxes::{Exchange, Full, Inbox, Outbox, Stub};
use crate::ledger::Parcel;
use crate::posted::Posted;
use crate::queue::{ParcelQueue, put, take};
use std::sync::Wait;

impl Exchange {
    /// How many partitions there are, 1 to 1,024.
    pub fn partitions(&self) -> u32
        ensures { result ≡ self.now.partitions }
    {
        self.partitions
    }

    /// How many lanes each partition has, 1 to 4.
    pub fn lanes(&self) -> u32
        ensures { result ≡ self.now.lanes }
    {
        self.lanes
    }

    pub(super) fn index(&self, partition: u32, lane: u32) -> usize
        requires { (partition < self.now.partitions) × (lane < self.now.lanes) }
        ensures { (result ≡ partition * self.now.lanes + lane) × (result < length self.now.queues.items) }
    {
        partition as usize * self.lanes as usize + lane as usize
    }
}

fn post_at<R: Wait>(
    rt: &R,
    queue: &ParcelQueue,
    stub: &mut Stub,
    posted: Posted,
) -> Result<(), Posted>
    requires { let v = view stub.old.pass in IsStubOf v.place posted.outbox queue.now stub.old × Belongs v.place posted }
    ensures stub { IsStubOf (view stub.old.pass).place posted.outbox queue.now stub.new }
    ensures told { MatchResult result (λ _. sent_of stub.new ≡ sent_of stub.old ++ posted.parcel ∷ [])
        (λ x. (x ≡ posted) × (sent_of stub.new ≡ sent_of stub.old)
        × Held (ruled_capacity queue.now) (HeldAt (view stub.old.pass).place posted.outbox (sent_of stub.old))) }
{
    put(rt, queue, &mut stub.pass, posted)
}

fn take_at<R: Wait>(rt: &R, queue: &ParcelQueue, end: &mut Stub) -> Option<Posted>
    requires { let v = view end.old.pass in IsEndOf v.place v.made queue.now end.old }
    ensures end { let v = view end.old.pass in IsEndOf v.place v.made queue.now end.new × (heard_of end.new ≡ heard_of end.old) }
    ensures told { let v = view end.old.pass in
        MatchOption result ((taken_of end.new ≡ taken_of end.old) × Held 0 (Left v))
        (λ x. (taken_of end.new ≡ taken_of end.old ++ x ∷ []) × Belongs v.place x × Next v x) }
{
    take(rt, queue, &mut end.pass)
}

impl Outbox {
    /// Posts a parcel at the back of the queue of its partition and of lane `number mod lanes`, in
    /// one step. Allocates no memory.
    ///
    /// # Errors
    ///
    /// `Full` returns the parcel; nothing was posted. It comes only if the queue was full at a
    /// moment of the call. The queue then held as many parcels as its capacity, and those of this
    /// outbox among them were the last ones that it had posted there.
    pub fn post<R: Wait>(&mut self, rt: &R, exchange: &Exchange, parcel: Parcel) -> Result<(), Full>
        requires { IsOutboxOf exchange.now self.old × (parcel.partition < exchange.now.partitions) }
        ensures same { IsOutboxOf exchange.now self.new × (self.new.number ≡ self.old.number) }
        ensures sent { MatchResult result (λ _. SendsOneMore exchange.now parcel self.old self.new)
            (λ f. (f.0 ≡ parcel) × (sent_by_queue self.new ≡ sent_by_queue self.old) × WasFull exchange.now parcel self.old) }
    {
        let lane = (parcel.number % u64::from(exchange.lanes)) as u32;
        let at = exchange.index(parcel.partition, lane);
        let posted = Posted {
            outbox: self.number,
            parcel,
        };
        match post_at(rt, &exchange.queues[at], &mut self.stubs[at], posted) {
            Ok(()) => Ok(()),
            Err(posted) => {
                let Posted { outbox: _, parcel } = posted;
                Err(Full(parcel))
            }
        }
    }

    /// One stub for each queue, by partition and then lane: the token of all that this outbox posted there. Allocates no memory.
    pub fn end(self) -> Vec<Stub>
        ensures { result ≡ self.stubs }
    {
        let Outbox { number: _, stubs } = self;
        stubs
    }
}

impl Inbox {
    /// The partition for which it takes.
    pub fn partition(&self) -> u32
        ensures { result ≡ self.now.partition }
    {
        self.partition
    }

    /// Takes the oldest parcel of one lane, in one step. `None` comes only if the queue was empty
    /// at a moment of the call. The inbox has then taken all that was posted there by each outbox
    /// of whose end it has heard. Allocates no memory.
    pub fn take<R: Wait>(&mut self, rt: &R, exchange: &Exchange, lane: u32) -> Option<Parcel>
        requires { TakesFrom exchange.now self.old × (lane < exchange.now.lanes) }
        ensures same { TakesFrom exchange.now self.new × (self.new.partition ≡ self.old.partition) × (heard_by_lane self.new ≡ heard_by_lane self.old) }
        ensures inbox { IsInboxOf exchange.now self.old → IsInboxOf exchange.now self.new }
        ensures heard { (n : ℕ) → HasHeard exchange.now n self.old → HasHeard exchange.now n self.new }
        ensures taken { MatchOption result ((taken_by_lane self.new ≡ taken_by_lane self.old) × WasEmpty exchange.now self.old lane)
            (λ x. TakesOneMore exchange.now lane x self.old self.new) }
    {
        let at = exchange.index(self.partition, lane);
        let posted = take_at(rt, &exchange.queues[at], &mut self.ends[lane as usize])?;
        let Posted { outbox: _, parcel } = posted;
        Some(parcel)
    }
}
