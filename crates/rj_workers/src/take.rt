//! A taker: it draws partitions, offers what arrives to their ledgers, and builds each one that is complete.
ghost use Rattle.std.specs.Prelude.{◌≡◌, ◌<◌, All, IfOk, false, length};
ghost use Rattle.rj_exchange.specs.Ledgers.{after_offer};
ghost use Rattle.rj_exchange.specs.Tickets.{limit_of};
ghost use Rattle.rj_workers.specs.Internal.Takes.{IsTaker, IsOwned, IsTake, IsTried, AreOpened, is_settled};

use crate::gate::{Gate, Place};
use crate::job::Job;
use crate::pause::Pause;
use crate::places::{Fresh, PartitionPlace, take_place};
use crate::shared::Shared;
use rj_exchange::ledger::{Ledger, Parcel};
use rj_exchange::{HaltSeat, Inbox, Seat};
use std::alloc::{AllocError, Global};
use std::sync::Wait;
use std::time::Clock;

/// How far a partition is built.
#[derive(Drop)]
pub(crate) enum Building<T> {
    /// Its ledger is not complete yet.
    Waiting,
    /// It is left to the starting thread.
    Left,
    /// It is built.
    Done(T),
}

/// A partition that a taker owns.
#[derive(Drop)]
pub(crate) struct OwnedPartition<T> {
    pub(crate) inbox: Inbox,
    pub(crate) ledger: Ledger,
    pub(crate) building: Building<T>,
}

/// What one taker has of its own, and returns.
#[derive(Drop)]
pub(crate) struct Taker<T> {
    pub(crate) all: Vec<OwnedPartition<T>>,
    pub(crate) seat: HaltSeat,
    pub(crate) done_seat: HaltSeat,
    pub(crate) draws: Seat,
}

/// Offers a parcel to a ledger, whatever it answers.
pub(crate) fn offer(ledger: &mut Ledger, parcel: Parcel) -> Result<(), AllocError>
    ensures { IfOk result (λ _. ledger.new ≡ after_offer ledger.old parcel) }
{
    match ledger.offer(parcel) {
        Ok(_) => Ok(()),
        Err(_) => Err(AllocError),
    }
}

// Takes once at one lane. Returns whether a parcel came.
fn take_once<R: Wait, J: Job, G>(
    rt: &R,
    shared: &Shared<'_, J, G>,
    held: &mut OwnedPartition<J::Built>,
    lane: u32,
) -> Result<bool, AllocError>
    requires lane { lane < shared.now.exchange.now.lanes }
    requires held { IsOwned (J.builds shared.now.job.now) shared.now held.old }
    ensures { IfOk result (λ _. IsOwned (J.builds shared.now.job.now) shared.now held.new) }
{
    let Some(parcel) = held.inbox.take(rt, shared.exchange, lane) else {
        return Ok(false);
    };
    offer(&mut held.ledger, parcel)?;
    Ok(true)
}

// Takes once at each lane of a partition.
fn take_lanes<R: Wait, J: Job, G>(
    rt: &R,
    shared: &Shared<'_, J, G>,
    held: &mut OwnedPartition<J::Built>,
) -> Result<bool, AllocError>
    requires { IsOwned (J.builds shared.now.job.now) shared.now held.old }
    ensures { IfOk result (λ _. IsOwned (J.builds shared.now.job.now) shared.now held.new) }
{
    let mut found = false;
    for lane in 0..shared.exchange.lanes() {
        if take_once(rt, shared, held, lane)? {
            found = true;
        }
    }
    Ok(found)
}

// Builds a partition that is complete, if its rows pass the test of the job.
fn build_complete<J: Job, G: Gate>(
    alloc: Global,
    shared: &Shared<'_, J, G>,
    held: &mut OwnedPartition<J::Built>,
) -> Result<(), AllocError>
    requires job { J.stripes shared.now.job.now ≡ shared.now.settings.workers }
    requires held { IsOwned (J.builds shared.now.job.now) shared.now held.old }
    ensures held { IfOk result (λ _. IsOwned (J.builds shared.now.job.now) shared.now held.new) }
    ensures tried { IfOk result (λ _. is_settled held.old.building ≡ false → IsTried (J.joinable shared.now.job.now) held.new.ledger held.new.building) }
{
    if is_settled(held) || !held.ledger.complete() {
        return Ok(());
    }
    let partition = held.inbox.partition();
    shared.gate.pass(Place::Partition(partition));
    held.building = match shared.job.try_build(alloc, partition, &held.ledger)? {
        Some(built) => Building::Done(built),
        None => Building::Left,
    };
    Ok(())
}

// Whether a partition is built or left to the starting thread.
fn is_settled<T>(held: &OwnedPartition<T>) -> bool
    ensures { result ≡ is_settled held.now.building }
{
    match held.building {
        Building::Waiting => false,
        Building::Left => true,
        Building::Done(_) => true,
    }
}

// Takes once at each lane of each partition.
fn take_round<R: Wait, J: Job, G: Gate>(
    rt: &R,
    alloc: Global,
    shared: &Shared<'_, J, G>,
    all: &mut Vec<OwnedPartition<J::Built>>,
) -> Result<bool, AllocError>
    requires job { J.stripes shared.now.job.now ≡ shared.now.settings.workers }
    requires all { All (IsOwned (J.builds shared.now.job.now) shared.now) all.old.items }
    ensures { IfOk result (λ _. All (IsOwned (J.builds shared.now.job.now) shared.now) all.new.items) }
{
    let mut found = false;
    for at in 0..all.len() {
        if take_at(rt, alloc, shared, &mut all[at])? {
            found = true;
        }
    }
    Ok(found)
}

// Takes once at each lane of a partition, and builds it if it is complete then.
fn take_at<R: Wait, J: Job, G: Gate>(
    rt: &R,
    alloc: Global,
    shared: &Shared<'_, J, G>,
    held: &mut OwnedPartition<J::Built>,
) -> Result<bool, AllocError>
    requires job { J.stripes shared.now.job.now ≡ shared.now.settings.workers }
    requires held { IsOwned (J.builds shared.now.job.now) shared.now held.old }
    ensures { IfOk result (λ _. IsOwned (J.builds shared.now.job.now) shared.now held.new) }
{
    if !take_lanes(rt, shared, held)? {
        return Ok(false);
    }
    build_complete(alloc, shared, held)?;
    Ok(true)
}

// Draws a partition. Returns whether one was left.
fn draw<B: Fresh, R: Wait, J: Job, G: Gate>(
    rt: &R,
    shared: &Shared<'_, J, G>,
    places: &[PartitionPlace<B>],
    me: &mut Taker<J::Built>,
) -> Result<bool, AllocError>
    requires places { limit_of shared.now.tickets.now ≡ length places.now }
    requires opened { AreOpened shared.now B.inboxes B.senders B.block }
    requires me { IsTaker shared.now me.old }
    requires all { All (IsOwned (J.builds shared.now.job.now) shared.now) me.old.all.items }
    ensures me { IsTaker shared.now me.new }
    ensures all { IfOk result (λ _. All (IsOwned (J.builds shared.now.job.now) shared.now) me.new.all.items) }
{
    let Some(partition) = shared.tickets.claim(&mut me.draws) else {
        return Ok(false);
    };
    let Some((inbox, ledger)) = take_place(rt, places, partition as usize) else {
        return Err(AllocError);
    };
    shared.gate.pass(Place::Take(inbox.partition()));
    me.all.push(OwnedPartition {
        inbox,
        ledger,
        building: Building::Waiting,
    })?;
    Ok(true)
}

// Whether the newest partition is not settled yet. All others are.
fn is_waiting<T>(all: &[OwnedPartition<T>]) -> bool {
    match all.last() {
        Some(held) => !is_settled(held),
        None => false,
    }
}

// Draws a further partition if the newest one is settled, unless none was left.
fn draw_next<B: Fresh, R: Wait, J: Job, G: Gate>(
    rt: &R,
    shared: &Shared<'_, J, G>,
    places: &[PartitionPlace<B>],
    me: &mut Taker<J::Built>,
    spent: &mut bool,
) -> Result<(), AllocError>
    requires places { limit_of shared.now.tickets.now ≡ length places.now }
    requires opened { AreOpened shared.now B.inboxes B.senders B.block }
    requires me { IsTaker shared.now me.old }
    requires all { All (IsOwned (J.builds shared.now.job.now) shared.now) me.old.all.items }
    ensures me { IsTaker shared.now me.new }
    ensures all { IfOk result (λ _. All (IsOwned (J.builds shared.now.job.now) shared.now) me.new.all.items) }
{
    if *spent || is_waiting(&me.all) {
        return Ok(());
    }
    let drawn = draw(rt, shared, places, me)?;
    *spent = !drawn;
    Ok(())
}

// Takes once at each lane of the newest partition.
fn take_newest<R: Wait, J: Job, G: Gate>(
    rt: &R,
    alloc: Global,
    shared: &Shared<'_, J, G>,
    all: &mut Vec<OwnedPartition<J::Built>>,
) -> Result<bool, AllocError>
    requires job { J.stripes shared.now.job.now ≡ shared.now.settings.workers }
    requires all { All (IsOwned (J.builds shared.now.job.now) shared.now) all.old.items }
    ensures { IfOk result (λ _. All (IsOwned (J.builds shared.now.job.now) shared.now) all.new.items) }
{
    let count = all.len();
    if count == 0 {
        return Ok(false);
    }
    let found = take_at(rt, alloc, shared, &mut all[count - 1])?;
    Ok(found)
}

// Draws a partition if none is open, and takes at the newest one, and at all others if nothing came
// there.
fn step<B: Fresh, R: Wait, J: Job, G: Gate>(
    rt: &R,
    alloc: Global,
    shared: &Shared<'_, J, G>,
    places: &[PartitionPlace<B>],
    me: &mut Taker<J::Built>,
    spent: &mut bool,
) -> Result<bool, AllocError>
    requires job { J.stripes shared.now.job.now ≡ shared.now.settings.workers }
    requires places { limit_of shared.now.tickets.now ≡ length places.now }
    requires opened { AreOpened shared.now B.inboxes B.senders B.block }
    requires me { IsTaker shared.now me.old }
    requires all { All (IsOwned (J.builds shared.now.job.now) shared.now) me.old.all.items }
    ensures me { IsTaker shared.now me.new }
    ensures all { IfOk result (λ _. All (IsOwned (J.builds shared.now.job.now) shared.now) me.new.all.items) }
{
    draw_next(rt, shared, places, me, spent)?;
    if take_newest(rt, alloc, shared, &mut me.all)? {
        return Ok(true);
    }
    take_round(rt, alloc, shared, &mut me.all)
}

/// Takes until it sees the halt word raised, or until it has drawn all that it could, has seen the
/// done word raised, and then finds nothing. If memory runs out, or a place is empty, it raises the
/// halt word.
pub(crate) fn take_all<B: Fresh, R: Wait + Clock, J: Job, G: Gate>(
    rt: &R,
    alloc: Global,
    shared: &Shared<'_, J, G>,
    places: &[PartitionPlace<B>],
    mut me: Taker<J::Built>,
) -> Taker<J::Built>
    requires job { J.stripes shared.now.job.now ≡ shared.now.settings.workers }
    requires places { limit_of shared.now.tickets.now ≡ length places.now }
    requires opened { AreOpened shared.now B.inboxes B.senders B.block }
    requires me { IsTaker shared.now me }
    requires all { All (IsOwned (J.builds shared.now.job.now) shared.now) me.all.items }
    ensures { IsTake (J.builds shared.now.job.now) shared.now result }
{
    let mut spent = false;
    let mut over = false;
    let mut pause = Pause::new();
    for _ in rt.forever() {
        let Ok(found) = step(rt, alloc, shared, places, &mut me, &mut spent) else {
            shared.halt.raise(&mut me.seat);
            return me;
        };
        if over && spent && !found {
            return me;
        }
        if shared.halt.raised(&mut me.seat) {
            return me;
        }
        over = shared.done.raised(&mut me.done_seat);
        pause.after(rt, found || over);
    }
    unreachable!()
}
