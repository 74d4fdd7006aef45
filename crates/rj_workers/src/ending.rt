//! The end of an exchange. What is left in the queues goes to the ledgers, and what is not built
//! yet is built.
ghost use Rattle.std.specs.Prelude.{◌≡◌, ◌<◌, ◌≤◌, ◌+◌, ◌++◌, ℕ, All, IfOk, map, length, take, drop, slice_index_or};
ghost use Rattle.std.specs.Vec.Iter.{into_iter_items};
ghost use Rattle.rj_exchange.specs.Ledgers.{after_all};
ghost use Rattle.rj_exchange.specs.Boxes.{sent_of, AreStubsOf};
ghost use Rattle.rj_workers.specs.Arrivals.{AreFirstOf, AreOutboxes, HasArrived, parcel_of, parcels_of, stub_lists};
ghost use Rattle.rj_workers.specs.Internal.Takes.{IsOwnedOf, IsBuilding};
ghost use Rattle.rj_workers.specs.Internal.Ends.{AreSlots, IsEnded};

use crate::job::Job;
use crate::settings::WorkerSettings;
use crate::take::{Building, OwnedPartition, offer};
use rj_exchange::ledger::Ledger;
use rj_exchange::{Exchange, Outbox, Posted, Stub};
use std::alloc::{AllocError, Global};
use std::sync::Wait;
use std::vec::IntoIter;

/// What the starting thread needs to end an exchange.
pub(crate) struct EndShared<'a, J> {
    pub(crate) exchange: &'a Exchange,
    pub(crate) job: &'a J,
    pub(crate) settings: WorkerSettings,
}

impl<J> Clone for EndShared<'_, J> {
    fn clone(&self) -> Result<Self, AllocError> {
        Ok(*self)
    }
}

impl<J> Copy for EndShared<'_, J> {}

/// A partition with all that was posted for it.
#[derive(Drop)]
pub(crate) struct EndedPartition<T> {
    pub(crate) partition: u32,
    pub(crate) ledger: Ledger,
    pub(crate) building: Building<T>,
}

// Offers what is left of one lane.
fn offer_rest(ledger: &mut Ledger, rest: Vec<Posted>) -> Result<(), AllocError>
    ensures { IfOk result (λ _. ledger.new ≡ after_all ledger.old (map parcel_of rest.items)) }
{
    for posted in rest {
        let Posted { outbox: _, parcel } = posted;
        offer(ledger, parcel)?;
    }
    Ok(())
}

// Offers what is left of all lanes.
fn offer_rests(ledger: &mut Ledger, rests: Vec<Vec<Posted>>) -> Result<(), AllocError>
    ensures { IfOk result (λ _. ledger.new ≡ after_all ledger.old (parcels_of rests.items)) }
{
    for rest in rests {
        offer_rest(ledger, rest)?;
    }
    Ok(())
}

// Ends one partition, given the stubs of its queues from all outboxes.
fn finish_one<R: Wait, J: Job>(
    rt: &R,
    alloc: Global,
    shared: &EndShared<'_, J>,
    held: OwnedPartition<J::Built>,
    stubs: Vec<Stub>,
) -> Result<EndedPartition<J::Built>, AllocError>
    requires held { IsOwnedOf (J.builds shared.now.job.now) shared.now.exchange.now shared.now.settings.workers shared.now.settings.block held }
    requires stubs { AreStubsOf shared.now.exchange.now held.inbox.partition stubs.items }
    ensures arrived { let senders = shared.now.settings.workers + shared.now.settings.workers in IfOk result (λ d. HasArrived senders shared.now.settings.block
        shared.now.exchange.now.outboxes shared.now.exchange.now.lanes (map sent_of stubs.items) held.inbox.partition d.ledger) }
    ensures number { IfOk result (λ d. d.partition ≡ held.inbox.partition) }
    ensures built { IfOk result (λ d. IsBuilding (J.builds shared.now.job.now) held.inbox.partition d.ledger d.building) }
{
    let OwnedPartition {
        inbox,
        ledger,
        building,
    } = held;
    let partition = inbox.partition();
    let Ok(finished) = inbox.finish(rt, alloc, shared.exchange, stubs) else {
        return Err(AllocError);
    };
    let mut ledger = ledger;
    offer_rests(&mut ledger, finished.rest)?;
    Ok(EndedPartition {
        partition,
        ledger,
        building,
    })
}

// Moves this many stubs from the front of one outbox's.
fn move_stubs(
    count: u32,
    from: &mut IntoIter<Stub, Global>,
    into: &mut Vec<Stub>,
) -> Result<(), AllocError>
    requires { count ≤ length (into_iter_items from.old) }
    ensures from { IfOk result (λ _. into_iter_items from.new ≡ drop count (into_iter_items from.old)) }
    ensures into { IfOk result (λ _. into.new.items ≡ into.old.items ++ take count (into_iter_items from.old)) }
{
    for _moved in 0..count {
        let Some(stub) = from.next() else {
            unreachable!()
        };
        into.push(stub)?;
    }
    Ok(())
}

// The next partition's stubs of all outboxes, by outbox and then lane.
fn next_stubs(
    alloc: Global,
    count: u32,
    lists: &mut Vec<IntoIter<Stub, Global>>,
) -> Result<Vec<Stub>, AllocError>
    requires { All (λ l. count ≤ length (into_iter_items l)) lists.old.items }
    ensures len { IfOk result (λ _. length lists.new.items ≡ length lists.old.items) }
    ensures lists { IfOk result (λ _. (o : ℕ) (d : _) → o < length lists.old.items →
        into_iter_items (slice_index_or lists.new.items o d) ≡ drop count (into_iter_items (slice_index_or lists.old.items o d))) }
    ensures stubs { IfOk result (λ v. AreFirstOf count (map into_iter_items lists.old.items) v.items) }
{
    let mut stubs = Vec::new(alloc);
    for at in 0..lists.len() {
        move_stubs(count, &mut lists[at], &mut stubs)?;
    }
    Ok(stubs)
}

// The stubs of each outbox.
fn lists_of(alloc: Global, outboxes: Vec<Outbox>) -> Result<Vec<IntoIter<Stub, Global>>, AllocError>
    ensures { IfOk result (λ v. map into_iter_items v.items ≡ stub_lists outboxes.items) }
{
    let mut lists = Vec::new(alloc);
    for outbox in outboxes {
        lists.push(outbox.end().into_iter())?;
    }
    Ok(lists)
}

/// Ends all partitions.
pub(crate) fn finish_all<R: Wait, J: Job>(
    rt: &R,
    alloc: Global,
    shared: &EndShared<'_, J>,
    slots: Vec<Option<OwnedPartition<J::Built>>>,
    outboxes: Vec<Outbox>,
) -> Result<Vec<EndedPartition<J::Built>>, AllocError>
    requires slots { AreSlots (J.builds shared.now.job.now) shared.now slots.items }
    requires outboxes { AreOutboxes shared.now.exchange.now outboxes.items }
    ensures len { IfOk result (λ v. length v.items ≡ shared.now.exchange.now.partitions) }
    ensures each { let senders = shared.now.settings.workers + shared.now.settings.workers in
        IfOk result (λ v. (p : ℕ) (d : _) → p < shared.now.exchange.now.partitions →
        IsEnded (J.builds shared.now.job.now) senders shared.now.settings.block shared.now.exchange.now (stub_lists outboxes.items) p
        (slice_index_or v.items p d)) }
{
    let mut lists = lists_of(alloc, outboxes)?;
    let mut all = Vec::new(alloc);
    for slot in slots {
        let Some(held) = slot else {
            return Err(AllocError);
        };
        let stubs = next_stubs(alloc, shared.exchange.lanes(), &mut lists)?;
        let ended = finish_one(rt, alloc, shared, held, stubs)?;
        all.push(ended)?;
    }
    Ok(all)
}
