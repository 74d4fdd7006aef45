//! How scanners and takers are started.
ghost use Rattle.std.specs.Prelude.{◌≡◌, ◌<◌, ◌≤◌, ◌++◌, ◌∷◌, [], ℕ, All, IfSome, length, slice_index_or};
ghost use Rattle.rj_exchange.specs.Tickets.{limit_of};
ghost use Rattle.rj_workers.specs.Settings.{IsReady, IsReadyOf};
ghost use Rattle.rj_workers.specs.Internal.Scans.{IsNewScanner, AreNewScanners, IsScan, IsScanOf};
ghost use Rattle.rj_workers.specs.Internal.Takes.{AreOpened, AreOpenedOf, IsNewTaker, IsTake, IsTakeOf};

use crate::gate::Gate;
use crate::job::Job;
use crate::places::{Fresh, PartitionPlace};
use crate::scan::{Scanner, scan};
use crate::shared::Shared;
use crate::take::{Taker, take_all};
use std::alloc::Global;
use std::sync::Wait;
use std::thread::{Promise, PromisedHandle, Scope};
use std::time::Clock;

/// The promise that a scanner returns what it posted.
#[derive(Drop)]
pub(crate) struct ScanOf<'a, J, G> {
    shared: Shared<'a, J, G>,
    number: u32,
}

impl<'a, J: Job, G> Promise<Scanner> for ScanOf<'a, J, G> {
    ghost kept_by = { λ p r. IsScan (J.due p.shared.job.now) p.shared p.number r };
}

/// A scanner that was started.
pub(crate) type ScanHandle<'a, J, G> = PromisedHandle<Scanner, ScanOf<'a, J, G>>;

/// The promise that a taker returns what it took.
#[derive(Drop)]
pub(crate) struct TakeOf<'a, J, G> {
    shared: Shared<'a, J, G>,
}

impl<'a, J: Job, G> Promise<Taker<J::Built>> for TakeOf<'a, J, G> {
    ghost kept_by = { λ p r. IsTake (J.builds p.shared.job.now) p.shared r };
}

/// A taker that was started.
pub(crate) type TakeHandle<'a, J, G> = PromisedHandle<Taker<<J as Job>::Built>, TakeOf<'a, J, G>>;

// Puts a handle after others. `None` if there is no room for it.
fn keep<T: Drop>(list: &mut Vec<T>, handle: T) -> Option<()>
    ensures { IfSome result (λ _. list.new.items ≡ list.old.items ++ handle ∷ []) }
{
    match list.push(handle) {
        Ok(_) => Some(()),
        Err(_) => None,
    }
}

// Starts one scanner. `None` if no thread can be started.
fn start_scanner<'s, E, R: Wait + Clock + Sync, J: Job + Sync, G: Gate + Sync>(
    scope: &Scope<'s, E>,
    rt: &'s R,
    alloc: Global,
    shared: &Shared<'s, J, G>,
    number: u32,
    me: Scanner,
) -> Option<ScanHandle<'s, J, G>>
where
    J::Built: Send,
    requires ready { IsReady (J.stripes shared.now.job.now) (J.partitions shared.now.job.now) shared.now }
    requires me { IsNewScanner shared.now.exchange.now shared.now.halt.now shared.now.stripes.now number me }
    ensures { IfSome result (λ h. (h.promise.shared ≡ shared.now) × (h.promise.number ≡ number)) }
{
    // (a thread's closure tells what it ensures only where it captures plain references)
    let f = *shared;
    let started = scope.spawn_with(
        ScanOf { shared: f, number },
        move || -> Scanner
            requires { IsReadyOf (J.stripes f.job.now) (J.partitions f.job.now) f.exchange.now f.stripes.now f.settings
                × IsNewScanner f.exchange.now f.halt.now f.stripes.now number me }
            ensures { IsScanOf (J.due f.entry.job.now) f.entry.settings.block f.entry.settings.workers f.entry.exchange.now
                f.entry.halt.now f.entry.stripes.now number result }
        {
            let _number = number;
            let shared = Shared {
                exchange: f.exchange,
                halt: f.halt,
                done: f.done,
                stripes: f.stripes,
                tickets: f.tickets,
                job: f.job,
                gate: f.gate,
                settings: f.settings,
            };
            scan(rt, alloc, &shared, me)
        },
    );
    started.ok()
}

/// Starts all scanners. `None` if a thread can't be started or memory runs out.
pub(crate) fn start_scanners<'s, E, R: Wait + Clock + Sync, J: Job + Sync, G: Gate + Sync>(
    scope: &Scope<'s, E>,
    rt: &'s R,
    alloc: Global,
    shared: &Shared<'s, J, G>,
    scanners: Vec<Scanner>,
) -> Option<Vec<ScanHandle<'s, J, G>>>
where
    J::Built: Send,
    requires ready { IsReady (J.stripes shared.now.job.now) (J.partitions shared.now.job.now) shared.now }
    requires scanners { (length scanners.items ≤ 64)
        × AreNewScanners shared.now.exchange.now shared.now.halt.now shared.now.stripes.now (length scanners.items) scanners.items }
    ensures len { IfSome result (λ v. length v.items ≡ length scanners.items) }
    ensures each { IfSome result (λ v. (s : ℕ) (d : _) → s < length scanners.items →
        ((slice_index_or v.items s d).promise.shared ≡ shared.now) × ((slice_index_or v.items s d).promise.number ≡ s)) }
{
    let mut handles = Vec::with_capacity(alloc, scanners.len()).ok()?;
    let mut number = 0;
    for me in scanners {
        let handle = start_scanner(scope, rt, alloc, shared, number, me)?;
        keep(&mut handles, handle)?;
        number += 1;
    }
    Some(handles)
}

// Starts one taker. `None` if no thread can be started.
fn start_taker<'s, E, B: Fresh, R: Wait + Clock + Sync, J: Job + Sync, G: Gate + Sync>(
    scope: &Scope<'s, E>,
    rt: &'s R,
    alloc: Global,
    shared: &Shared<'s, J, G>,
    places: &'s [PartitionPlace<B>],
    me: Taker<J::Built>,
) -> Option<TakeHandle<'s, J, G>>
where
    J::Built: Send,
    requires job { J.stripes shared.now.job.now ≡ shared.now.settings.workers }
    requires places { limit_of shared.now.tickets.now ≡ length places.now }
    requires opened { AreOpened shared.now B.inboxes B.senders B.block }
    requires me { IsNewTaker shared.now.halt.now shared.now.done.now shared.now.tickets.now me }
    ensures { IfSome result (λ h. h.promise.shared ≡ shared.now) }
{
    let f = *shared;
    let started = scope.spawn_with(
        TakeOf { shared: f },
        move || -> Taker<J::Built>
            requires { (J.stripes f.job.now ≡ f.settings.workers) × (limit_of f.tickets.now ≡ length places.now)
                × AreOpenedOf f.exchange.now f.settings B.inboxes B.senders B.block × IsNewTaker f.halt.now f.done.now f.tickets.now me }
            ensures { IsTakeOf (J.builds f.entry.job.now) f.entry.exchange.now f.entry.halt.now f.entry.settings.workers f.entry.settings.block result }
        {
            let shared = Shared {
                exchange: f.exchange,
                halt: f.halt,
                done: f.done,
                stripes: f.stripes,
                tickets: f.tickets,
                job: f.job,
                gate: f.gate,
                settings: f.settings,
            };
            take_all(rt, alloc, &shared, places, me)
        },
    );
    started.ok()
}

/// Starts all takers. `None` if a thread can't be started or memory runs out.
pub(crate) fn start_takers<'s, E, B: Fresh, R: Wait + Clock + Sync, J: Job + Sync, G: Gate + Sync>(
    scope: &Scope<'s, E>,
    rt: &'s R,
    alloc: Global,
    shared: &Shared<'s, J, G>,
    places: &'s [PartitionPlace<B>],
    takers: Vec<Taker<J::Built>>,
) -> Option<Vec<TakeHandle<'s, J, G>>>
where
    J::Built: Send,
    requires job { J.stripes shared.now.job.now ≡ shared.now.settings.workers }
    requires places { limit_of shared.now.tickets.now ≡ length places.now }
    requires opened { AreOpened shared.now B.inboxes B.senders B.block }
    requires takers { All (IsNewTaker shared.now.halt.now shared.now.done.now shared.now.tickets.now) takers.items }
    ensures len { IfSome result (λ v. length v.items ≡ length takers.items) }
    ensures each { IfSome result (λ v. All (λ h. h.promise.shared ≡ shared.now) v.items) }
{
    let mut handles = Vec::with_capacity(alloc, takers.len()).ok()?;
    for me in takers {
        let handle = start_taker(scope, rt, alloc, shared, places, me)?;
        keep(&mut handles, handle)?;
    }
    Some(handles)
}
