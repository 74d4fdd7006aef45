//! A whole run: the exchange is opened, the workers run, and what they return is ended and built.
ghost use Rattle.std.specs.Prelude.{◌≡◌, ◌<◌, ◌+◌, ℕ, IfOk, length, slice_index_or};
ghost use Rattle.rj_workers.specs.Arrivals.{IsDelivered, due_lists};
ghost use Rattle.rj_workers.specs.Settings.{InLimits};
ghost use Rattle.rj_workers.specs.Internal.Ends.{AreSettled};
ghost use Rattle.rj_workers.specs.Internal.Scans.{AreNewOutboxes};
ghost use Rattle.rj_workers.specs.Internal.Takes.{AreFreshInboxes, AreOpenedOf};

use crate::closing::{Delivered, build_rest, conclude};
use crate::coordination::open_coordination;
use crate::ending::{EndShared, EndedPartition};
use crate::gate::Gate;
use crate::job::Job;
use crate::places::{Fresh, open_places};
use crate::scope::work;
use crate::settings::WorkerSettings;
use crate::shared::Shared;
use crate::workers::make_workers;
use rj_exchange::{Exchange, Inbox, Outbox};
use std::alloc::{AllocError, Global};
use std::marker::Brand;
use std::sync::Wait;
use std::thread::Threads;
use std::time::Clock;

// What all partitions have in the end, by what was opened: the exchange, its outboxes and its
// inboxes. The inboxes are those that `B` names.
fn run_opened<B: Fresh, R: Threads + Wait + Clock + Sync, J: Job + Sync, G: Gate + Sync>(
    rt: &R,
    alloc: Global,
    job: &J,
    gate: &G,
    settings: WorkerSettings,
    opened: (Exchange, Vec<Outbox>, Vec<Inbox>),
) -> Result<Vec<EndedPartition<J::Built>>, AllocError>
where
    J::Built: Send,
    requires limits { InLimits settings.workers settings.partitions settings.block settings.lanes settings.capacity }
    requires job { (J.stripes job.now ≡ settings.workers) × (J.partitions job.now ≡ settings.partitions) }
    requires exchange { (opened.0.outboxes ≡ settings.workers) × (opened.0.partitions ≡ settings.partitions) }
    requires outboxes { AreNewOutboxes opened.0 settings.workers opened.1.items }
    requires inboxes { (length opened.2.items ≡ settings.partitions) × (opened.2.items ≡ B.inboxes) }
    requires fresh { AreFreshInboxes opened.0 opened.2.items }
    requires opened { AreOpenedOf opened.0 settings B.inboxes B.senders B.block }
    ensures len { IfOk result (λ v. length v.items ≡ settings.partitions) }
    ensures each { IfOk result (λ v. AreSettled (J.builds job.now) (J.due job.now) (settings.workers + settings.workers) settings.partitions v.items) }
{
    let (exchange, outboxes, inboxes) = opened;
    let places = open_places::<B>(
        alloc,
        inboxes,
        settings.workers + settings.workers,
        settings.block,
    )?;
    let (words, seats) = open_coordination(rt, alloc, settings)?;
    let (workers, own) = make_workers(alloc, outboxes, seats)?;
    let (back, own) = {
        let shared = words.shared(&exchange, job, gate, settings);
        work(rt, alloc, &shared, &places, workers, own)?
    };
    let shared = EndShared {
        exchange: &exchange,
        job,
        settings,
    };
    let all = conclude(rt, alloc, &shared, words, back, own)?;
    Ok(all)
}

/// Scans the stripes of both tables and builds their partitions, with as many scanners and as many
/// takers as the settings say. They work at the same time (tested: no clause speaks of time).
/// Whatever the schedule of the threads, each ledger is complete and has delivered what was due to
/// its partition, and each partition was built of its rows.
///
/// # Errors
///
/// It fails only when memory runs out, or when a thread can't be started.
pub fn run_workers<R: Threads + Wait + Clock + Sync, J: Job + Sync, G: Gate + Sync>(
    rt: &R,
    alloc: Global,
    job: &J,
    gate: &G,
    settings: WorkerSettings,
) -> Result<Delivered<J::Built>, AllocError>
where
    J::Built: Send,
    requires limits { InLimits settings.workers settings.partitions settings.block settings.lanes settings.capacity }
    requires job { (J.stripes job.now ≡ settings.workers) × (J.partitions job.now ≡ settings.partitions) }
    requires due { (p : ℕ) → p < J.partitions job.now → J.joinable job.now (due_lists (J.due job.now) (J.stripes job.now + J.stripes job.now) p) }
    ensures len { IfOk result (λ r. (length r.ledgers.items ≡ settings.partitions) × (length r.built.items ≡ settings.partitions)) }
    ensures delivered { IfOk result (λ r. (p : ℕ) (d : _) → p < settings.partitions →
        IsDelivered (J.due job.now) (settings.workers + settings.workers) p (slice_index_or r.ledgers.items p d)) }
    ensures built { IfOk result (λ r. (p : ℕ) (d : _) → p < settings.partitions →
        J.builds job.now p (due_lists (J.due job.now) (settings.workers + settings.workers) p) (slice_index_or r.built.items p d)) }
{
    let opened = Exchange::open(
        alloc,
        settings.workers,
        settings.partitions,
        settings.lanes,
        settings.capacity as usize,
    )?;
    let all = run_opened::<Brand, R, J, G>(rt, alloc, job, gate, settings, opened)?;
    let delivered = build_rest(alloc, job, all)?;
    Ok(delivered)
}
