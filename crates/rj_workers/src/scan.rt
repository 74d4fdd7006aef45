//! A scanner: it draws stripes, and posts what their senders have for each partition.
ghost use Rattle.std.specs.Prelude.{◌≡◌, ◌<◌, ◌≤◌, ◌+◌, ◌∷◌, ◌++◌, [], IfOk, IfSome, MatchOption, MatchResult};
ghost use Rattle.std.specs.List.Sorted.{IsPermutation};
ghost use Rattle.rj_exchange.specs.Cutting.{plan};
ghost use Rattle.rj_exchange.specs.Boxes.{sent_by_queue};
ghost use Rattle.rj_exchange.specs.Stripes.{held_by, Holds, stripes_put_by};
ghost use Rattle.rj_exchange.specs.Striping.{stripe as counted, without};
ghost use Rattle.rj_workers.specs.Settings.{IsReady};
ghost use Rattle.rj_workers.specs.declared.post.Sending.{Sending};
ghost use Rattle.rj_workers.specs.Posts.{KeepsPosts, OnlyPlanned, NothingPosted, AreDue, IsCutStripe, to_post};
ghost use Rattle.rj_workers.specs.Internal.Scans.{KnowsHalt, StopsAt, IsScanner, SameScanner, HasPostedStripe, IsScan};

use crate::gate::{Gate, Place};
use crate::job::Job;
use crate::post::{Sending, post_all};
use crate::shared::Shared;
use rj_exchange::ledger::cut;
use rj_exchange::{HaltSeat, Outbox, StripeSeat};
use rj_radix::Scattered;
use std::alloc::{AllocError, Global};
use std::sync::Wait;
use std::time::Clock;

/// What one scanner has of its own, and returns.
#[derive(Drop)]
pub(crate) struct Scanner {
    pub(crate) outbox: Outbox,
    pub(crate) seat: HaltSeat,
    pub(crate) draws: StripeSeat,
}

/// Why a scanner does not go on with a stripe.
#[derive(Clone, Copy, Debug, Drop, PartialEq, Eq)]
pub(crate) enum ScanStop {
    /// It has seen the halt word raised.
    Halted,
    /// Memory ran out for it.
    Refused,
}

// Cuts the rows that a sender has for a partition, and puts the parcels after other lists.
fn cut_part(
    alloc: Global,
    lists: &mut Vec<Sending>,
    rows: &[u32],
    sender: u32,
    partition: u32,
    block: u32,
) -> Result<(), AllocError>
    requires { 0 < block }
    ensures { IfOk result (λ _. (s : Sending) × (lists.new.items ≡ lists.old.items ++ s ∷ [])
        × IsPermutation (plan block rows.now sender partition) (to_post s)) }
{
    let list = Sending::new(cut(alloc, rows, sender, partition, block)?);
    lists.push(list)?;
    Ok(())
}

// The parcels that the two senders of a stripe have, partition by partition.
fn cut_stripe<J: Job, G>(
    alloc: Global,
    shared: &Shared<'_, J, G>,
    stripe: u32,
    lefts: &Scattered,
    rights: &Scattered,
) -> Result<Vec<Sending>, AllocError>
    requires block { 0 < shared.now.settings.block }
    requires stripe { (stripe < shared.now.settings.workers) × (shared.now.settings.workers ≤ 64) }
    requires lefts { AreDue (J.due shared.now.job.now) stripe shared.now.exchange.now.partitions lefts.now }
    requires rights { AreDue (J.due shared.now.job.now) (shared.now.settings.workers + stripe) shared.now.exchange.now.partitions rights.now }
    ensures { IfOk result (λ v. IsCutStripe (J.due shared.now.job.now) shared.now.settings.block shared.now.settings.workers shared.now.exchange.now stripe v.items) }
{
    let block = shared.settings.block;
    let mut lists = Vec::new(alloc);
    for partition in 0..shared.exchange.partitions() {
        let left_rows = lefts.part(partition as usize);
        cut_part(alloc, &mut lists, left_rows, stripe, partition, block)?;
        let right_rows = rights.part(partition as usize);
        let sender = shared.settings.workers + stripe;
        cut_part(alloc, &mut lists, right_rows, sender, partition, block)?;
    }
    Ok(lists)
}

// Scatters a stripe of both tables, and cuts it into parcels. The scattered rows are freed before
// any is posted.
fn prepare<J: Job, G>(
    alloc: Global,
    shared: &Shared<'_, J, G>,
    stripe: u32,
) -> Result<Vec<Sending>, AllocError>
    requires ready { IsReady (J.stripes shared.now.job.now) (J.partitions shared.now.job.now) shared.now }
    requires stripe { stripe < shared.now.settings.workers }
    ensures { IfOk result (λ v. IsCutStripe (J.due shared.now.job.now) shared.now.settings.block shared.now.settings.workers shared.now.exchange.now stripe v.items) }
{
    let (lefts, rights) = shared.job.scatter(alloc, stripe)?;
    let lists = cut_stripe(alloc, shared, stripe, &lefts, &rights)?;
    Ok(lists)
}

// Scans a stripe from its beginning.
fn scan_stripe<R: Wait + Clock, J: Job, G: Gate>(
    rt: &R,
    alloc: Global,
    shared: &Shared<'_, J, G>,
    me: &mut Scanner,
    stripe: u32,
) -> Result<(), ScanStop>
    requires ready { IsReady (J.stripes shared.now.job.now) (J.partitions shared.now.job.now) shared.now }
    requires stripe { stripe < shared.now.settings.workers }
    requires me { IsScanner shared.now me.old }
    ensures me { IsScanner shared.now me.new × SameScanner me.old me.new }
    ensures kept { KeepsPosts (sent_by_queue me.old.outbox) (sent_by_queue me.new.outbox) }
    ensures added { let due = J.due shared.now.job.now in
        OnlyPlanned due shared.now.settings.block (sent_by_queue me.old.outbox) → OnlyPlanned due shared.now.settings.block (sent_by_queue me.new.outbox) }
    ensures all { MatchResult result
        (λ _. HasPostedStripe (J.due shared.now.job.now) shared.now.settings.block shared.now.settings.workers shared.now.exchange.now stripe (sent_by_queue me.new.outbox))
        (StopsAt me.new.seat) }
{
    shared.gate.pass(Place::Stripe(stripe));
    let Ok(lists) = prepare(alloc, shared, stripe) else {
        return Err(ScanStop::Refused);
    };
    match post_all(rt, shared, me, lists) {
        Some(()) => Ok(()),
        None => Err(ScanStop::Halted),
    }
}

// Puts back a stripe that it could not scan because memory ran out. If a stripe was put back too
// often, it raises the halt word and answers `None`.
fn give_up<R: Wait, J, G>(
    rt: &R,
    shared: &Shared<'_, J, G>,
    me: &mut Scanner,
    stripe: u32,
    count: u32,
) -> Option<()>
    requires me { IsScanner shared.now me.old }
    requires stripe { Holds me.old.draws stripe }
    ensures me { IsScanner shared.now me.new × (me.new.outbox ≡ me.old.outbox) }
    ensures back { MatchOption result (KnowsHalt me.new.seat) (λ _. held_by me.new.draws ≡ without stripe (held_by me.old.draws)) }
    ensures count { IfSome result (λ _. (count < shared.now.settings.retries) × (stripes_put_by me.new.draws ≡ stripes_put_by me.old.draws ++ counted stripe (count + 1) ∷ [])) }
{
    if count < shared.settings.retries {
        shared
            .stripes
            .put_back(rt, &mut me.draws, stripe, count + 1);
        return Some(());
    }
    shared.halt.raise(&mut me.seat);
    None
}

/// Scans stripes until none is left to draw, or it stops.
pub(crate) fn scan<R: Wait + Clock, J: Job, G: Gate>(
    rt: &R,
    alloc: Global,
    shared: &Shared<'_, J, G>,
    mut me: Scanner,
) -> Scanner
    requires ready { IsReady (J.stripes shared.now.job.now) (J.partitions shared.now.job.now) shared.now }
    requires me { IsScanner shared.now me }
    requires new { NothingPosted (sent_by_queue me.outbox) × (held_by me.draws ≡ []) }
    ensures { IsScan (J.due shared.now.job.now) shared.now me.outbox.number result }
{
    for _ in rt.forever() {
        let Some((stripe, count)) = shared.stripes.draw(rt, &mut me.draws) else {
            return me;
        };
        match scan_stripe(rt, alloc, shared, &mut me, stripe) {
            Ok(()) => {}
            Err(ScanStop::Halted) => return me,
            Err(ScanStop::Refused) => {
                let Some(()) = give_up(rt, shared, &mut me, stripe, count) else {
                    return me;
                };
            }
        }
    }
    unreachable!()
}
