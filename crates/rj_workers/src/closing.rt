//! What becomes of all that the workers return.
ghost use Rattle.std.specs.Prelude.{◌≡◌, ◌<◌, ◌+◌, ◌++◌, ◌∷◌, ℕ, [], All, IfOk, IsTrue, map, length, slice_index_or};
ghost use Rattle.rj_exchange.specs.Halt.{AnyRaised, AnySeen, AreAllHaltSeats, IsHaltSeatOf};
ghost use Rattle.rj_exchange.specs.Stripes.{AreAllStripeSeats, held_by, stripes_of};
ghost use Rattle.rj_exchange.specs.Tickets.{EachOnce};
ghost use Rattle.rj_workers.specs.Arrivals.{IsDelivered, due_lists, rows_by_sender};
ghost use Rattle.rj_workers.specs.Internal.Workers.{IsCoordination, AreEndedWorkersOf};
ghost use Rattle.rj_workers.specs.Internal.Takes.{IsOwnedOf, IsBuilding};
ghost use Rattle.rj_workers.specs.Internal.Ends.{ArePlaced, AreSettled, AreSlots};

use crate::coordination::Coordination;
use crate::ending::{EndShared, EndedPartition, finish_all};
use crate::job::Job;
use crate::scan::Scanner;
use crate::take::{Building, OwnedPartition, Taker};
use crate::workers::EndedWorkers;
use rj_exchange::ledger::Ledger;
use rj_exchange::{Halt, HaltSeat, Outbox, StripeSeat, Stripes};
use std::alloc::{AllocError, Global};
use std::sync::Wait;

/// What all partitions were delivered, and what they were built into, in their order.
#[derive(Drop)]
pub struct Delivered<T> {
    /// The ledgers, each with all that was due to its partition.
    pub ledgers: Vec<Ledger>,
    /// What each partition was built into.
    pub built: Vec<T>,
}

// Puts an item after others.
fn add<T: Drop>(list: &mut Vec<T>, item: T) -> Result<(), AllocError>
    ensures { IfOk result (λ _. list.new.items ≡ list.old.items ++ item ∷ []) }
{
    list.push(item)?;
    Ok(())
}

// The outboxes of all scanners; their seats go after the others.
fn hand_scanned(
    alloc: Global,
    scanned: Vec<Scanner>,
    seats: &mut Vec<HaltSeat>,
    draws: &mut Vec<StripeSeat>,
) -> Result<Vec<Outbox>, AllocError>
    ensures outboxes { IfOk result (λ v. v.items ≡ map (λ r. r.outbox) scanned.items) }
    ensures seats { IfOk result (λ _. seats.new.items ≡ seats.old.items ++ map (λ r. r.seat) scanned.items) }
    ensures draws { IfOk result (λ _. draws.new.items ≡ draws.old.items ++ map (λ r. r.draws) scanned.items) }
{
    let mut outboxes = Vec::new(alloc);
    for one in scanned {
        let Scanner {
            outbox,
            seat,
            draws: stripes,
        } = one;
        outboxes.push(outbox)?;
        seats.push(seat)?;
        draws.push(stripes)?;
    }
    Ok(outboxes)
}

// The partitions of all takers; their seats go after the others.
fn hand_taken<T: Drop>(
    alloc: Global,
    taken: Vec<Taker<T>>,
    seats: &mut Vec<HaltSeat>,
) -> Result<Vec<Vec<OwnedPartition<T>>>, AllocError>
    ensures groups { IfOk result (λ v. v.items ≡ map (λ t. t.all) taken.items) }
    ensures seats { IfOk result (λ _. seats.new.items ≡ seats.old.items ++ map (λ t. t.seat) taken.items) }
{
    let mut groups = Vec::new(alloc);
    for one in taken {
        let Taker {
            all,
            seat,
            done_seat: _,
            draws: _,
        } = one;
        groups.push(all)?;
        seats.push(seat)?;
    }
    Ok(groups)
}

// This many empty places.
fn no_slots<T: Drop>(
    alloc: Global,
    partitions: u32,
) -> Result<Vec<Option<OwnedPartition<T>>>, AllocError>
    ensures { IfOk result (λ v. (length v.items ≡ partitions) × All (λ s. s ≡ None) v.items) }
{
    let mut slots = Vec::new(alloc);
    for _ in 0..partitions {
        slots.push(None)?;
    }
    Ok(slots)
}

fn place<T: Drop>(slot: &mut Option<OwnedPartition<T>>, held: OwnedPartition<T>)
    ensures { slot.new ≡ Some held }
{
    *slot = Some(held);
}

// Puts the partitions of one taker into their places.
fn place_group<T: Drop>(slots: &mut Vec<Option<OwnedPartition<T>>>, group: Vec<OwnedPartition<T>>)
    requires { All (λ h. h.inbox.partition < length slots.old.items) group.items }
    ensures { ArePlaced group.items slots.old.items slots.new.items }
{
    for held in group {
        let at = held.inbox.partition() as usize;
        place(&mut slots[at], held);
    }
}

// Puts the partitions of all takers into their places.
fn place_all<J: Job>(
    alloc: Global,
    shared: &EndShared<'_, J>,
    groups: Vec<Vec<OwnedPartition<J::Built>>>,
) -> Result<Vec<Option<OwnedPartition<J::Built>>>, AllocError>
    requires { All
        (λ g. All (IsOwnedOf (J.builds shared.now.job.now) shared.now.exchange.now shared.now.settings.workers shared.now.settings.block) g.items) groups.items }
    ensures { IfOk result (λ v. AreSlots (J.builds shared.now.job.now) shared.now v.items) }
{
    let mut slots = no_slots(alloc, shared.exchange.partitions())?;
    for group in groups {
        place_group(&mut slots, group);
    }
    Ok(slots)
}

// Whether no worker has raised the word halt, and none has seen it raised.
fn is_unraised(halt: Halt, seats: Vec<HaltSeat>) -> bool
    requires { AreAllHaltSeats halt seats.items }
    ensures raised { IsTrue result → AnyRaised seats.items → ⊥ }
    ensures seen { IsTrue result → AnySeen seats.items → ⊥ }
{
    !halt.finish(seats)
}

// Whether the scanners together hold each stripe once.
fn are_scanned<R: Wait>(rt: &R, stripes: Stripes, draws: Vec<StripeSeat>) -> bool
    requires { AreAllStripeSeats stripes draws.items }
    ensures { IsTrue result → EachOnce (stripes_of stripes) (map held_by draws.items) }
{
    stripes.finish(rt, draws)
}

/// Ends all partitions once all workers have ended. There is no result if the halt word was raised,
/// or a stripe is held by no scanner.
pub(crate) fn conclude<R: Wait, J: Job>(
    rt: &R,
    alloc: Global,
    shared: &EndShared<'_, J>,
    words: Coordination,
    back: EndedWorkers<J::Built>,
    own: HaltSeat,
) -> Result<Vec<EndedPartition<J::Built>>, AllocError>
    requires block { 0 < shared.now.settings.block }
    requires words { IsCoordination shared.now.settings words × (shared.now.exchange.now.outboxes ≡ shared.now.settings.workers) }
    requires back { AreEndedWorkersOf (J.due shared.now.job.now) (J.builds shared.now.job.now) shared.now.exchange.now words.halt words.stripes shared.now.settings back }
    requires own { IsHaltSeatOf words.halt own }
    ensures len { IfOk result (λ v. length v.items ≡ shared.now.exchange.now.partitions) }
    ensures each { let senders = shared.now.settings.workers + shared.now.settings.workers in
        IfOk result (λ v. AreSettled (J.builds shared.now.job.now) (J.due shared.now.job.now) senders shared.now.exchange.now.partitions v.items) }
{
    let mut seats = Vec::new(alloc);
    let mut draws = Vec::new(alloc);
    let outboxes = hand_scanned(alloc, back.scanners, &mut seats, &mut draws)?;
    let groups = hand_taken(alloc, back.takers, &mut seats)?;
    add(&mut seats, own)?;
    if !is_unraised(words.halt, seats) {
        return Err(AllocError);
    }
    if !are_scanned(rt, words.stripes, draws) {
        return Err(AllocError);
    }
    let slots = place_all(alloc, shared, groups)?;
    let all = finish_all(rt, alloc, shared, slots, outboxes)?;
    Ok(all)
}

// What a partition is built into, built here if no taker has built it.
fn build_one<J: Job>(
    alloc: Global,
    job: &J,
    ended: EndedPartition<J::Built>,
) -> Result<(Ledger, J::Built), AllocError>
    requires senders { length ended.ledger.senders ≡ J.stripes job.now + J.stripes job.now }
    requires rows { J.joinable job.now (rows_by_sender ended.ledger) }
    requires built { IsBuilding (J.builds job.now) ended.partition ended.ledger ended.building }
    ensures ledger { IfOk result (λ r. r.0 ≡ ended.ledger) }
    ensures built { IfOk result (λ r. J.builds job.now ended.partition (rows_by_sender ended.ledger) r.1) }
{
    let EndedPartition {
        partition,
        ledger,
        building,
    } = ended;
    let built = match building {
        Building::Done(built) => built,
        Building::Waiting => job.build(alloc, partition, &ledger)?,
        Building::Left => job.build(alloc, partition, &ledger)?,
    };
    Ok((ledger, built))
}

/// Builds what no taker has built.
pub(crate) fn build_rest<J: Job>(
    alloc: Global,
    job: &J,
    all: Vec<EndedPartition<J::Built>>,
) -> Result<Delivered<J::Built>, AllocError>
    requires due { (p : ℕ) → p < J.partitions job.now → J.joinable job.now (due_lists (J.due job.now) (J.stripes job.now + J.stripes job.now) p) }
    requires len { length all.items ≡ J.partitions job.now }
    requires each { AreSettled (J.builds job.now) (J.due job.now) (J.stripes job.now + J.stripes job.now) (J.partitions job.now) all.items }
    ensures len { IfOk result (λ r. (length r.ledgers.items ≡ J.partitions job.now) × (length r.built.items ≡ J.partitions job.now)) }
    ensures delivered { IfOk result (λ r. (p : ℕ) (d : _) → p < J.partitions job.now →
        IsDelivered (J.due job.now) (J.stripes job.now + J.stripes job.now) p (slice_index_or r.ledgers.items p d)) }
    ensures built { IfOk result (λ r. (p : ℕ) (d : _) → p < J.partitions job.now →
        J.builds job.now p (due_lists (J.due job.now) (J.stripes job.now + J.stripes job.now) p) (slice_index_or r.built.items p d)) }
{
    let mut ledgers = Vec::with_capacity(alloc, all.len())?;
    let mut built = Vec::with_capacity(alloc, all.len())?;
    for ended in all {
        let (ledger, one) = build_one(alloc, job, ended)?;
        ledgers.push(ledger)?;
        built.push(one)?;
    }
    Ok(Delivered { ledgers, built })
}
