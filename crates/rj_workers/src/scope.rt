//! Scanners and takers at the same time.
ghost use Rattle.std.specs.Prelude.{◌≡◌, IfOk, IfSome, length};
ghost use Rattle.std.specs.PromisedHandle.{KeepsEach};
ghost use Rattle.rj_exchange.specs.Halt.{IsHaltSeatOf};
ghost use Rattle.rj_exchange.specs.Tickets.{limit_of};
ghost use Rattle.rj_workers.specs.Settings.{IsReady, IsReadyOf};
ghost use Rattle.rj_workers.specs.Internal.Workers.{AreNewWorkers, AreNewWorkersOf, AreEndedWorkers, AreEndedWorkersOf};
ghost use Rattle.rj_workers.specs.Internal.Takes.{AreOpened, AreOpenedOf};

use crate::gate::Gate;
use crate::job::Job;
use crate::places::{Fresh, PartitionPlace};
use crate::shared::Shared;
use crate::start::{start_scanners, start_takers};
use crate::workers::{EndedWorkers, NewWorkers};
use rj_exchange::HaltSeat;
use std::alloc::{AllocError, Global};
use std::sync::Wait;
use std::thread;
use std::thread::{Promise, PromisedHandle, Scope, Threads};
use std::time::Clock;

// What the threads of all handles return. `None` if there is no room for it.
fn joined<R: Threads, T: Drop, P: Promise<T>>(
    rt: &R,
    handles: Vec<PromisedHandle<T, P>>,
) -> Option<Vec<T>>
    ensures len { IfSome result (λ v. length v.items ≡ length handles.items) }
    ensures each { IfSome result (λ v. KeepsEach P.Promise (length handles.items) handles.items v.items) }
{
    match thread::join_promised(rt, handles) {
        Ok(all) => Some(all),
        Err(_) => None,
    }
}

// What the workers of one scope return. `None` if a thread can't be started or memory runs out.
fn run_in<'s, E, B: Fresh, R: Threads + Wait + Clock + Sync, J: Job + Sync, G: Gate + Sync>(
    scope: &Scope<'s, E>,
    rt: &'s R,
    alloc: Global,
    shared: &Shared<'s, J, G>,
    places: &'s [PartitionPlace<B>],
    workers: NewWorkers<J::Built>,
) -> Option<EndedWorkers<J::Built>>
where
    J::Built: Send,
    requires ready { IsReady (J.stripes shared.now.job.now) (J.partitions shared.now.job.now) shared.now }
    requires places { limit_of shared.now.tickets.now ≡ length places.now }
    requires opened { AreOpened shared.now B.inboxes B.senders B.block }
    requires workers { AreNewWorkers shared.now workers }
    ensures { IfSome result (AreEndedWorkers (J.due shared.now.job.now) (J.builds shared.now.job.now) shared.now) }
{
    let NewWorkers {
        scanners,
        takers,
        mut over,
    } = workers;
    let takers = start_takers(scope, rt, alloc, shared, places, takers)?;
    let scanners = start_scanners(scope, rt, alloc, shared, scanners)?;
    let scanned = joined(rt, scanners)?;
    shared.done.raise(&mut over);
    let taken = joined(rt, takers)?;
    Some(EndedWorkers {
        scanners: scanned,
        takers: taken,
    })
}

// What the workers of one scope return, with the starting thread's seat. If they return nothing, it
// raises the halt word, so that those that were started end.
fn run_or_halt<'s, E, B: Fresh, R: Threads + Wait + Clock + Sync, J: Job + Sync, G: Gate + Sync>(
    scope: &Scope<'s, E>,
    rt: &'s R,
    alloc: Global,
    shared: &Shared<'s, J, G>,
    places: &'s [PartitionPlace<B>],
    workers: NewWorkers<J::Built>,
    own: HaltSeat,
) -> Result<(EndedWorkers<J::Built>, HaltSeat), AllocError>
where
    J::Built: Send,
    requires ready { IsReady (J.stripes shared.now.job.now) (J.partitions shared.now.job.now) shared.now }
    requires places { limit_of shared.now.tickets.now ≡ length places.now }
    requires opened { AreOpened shared.now B.inboxes B.senders B.block }
    requires workers { AreNewWorkers shared.now workers }
    requires own { IsHaltSeatOf shared.now.halt.now own }
    ensures back { IfOk result (λ r. AreEndedWorkers (J.due shared.now.job.now) (J.builds shared.now.job.now) shared.now r.0) }
    ensures own { IfOk result (λ r. IsHaltSeatOf shared.now.halt.now r.1) }
{
    let mut own = own;
    match run_in(scope, rt, alloc, shared, places, workers) {
        Some(back) => Ok((back, own)),
        None => {
            shared.halt.raise(&mut own);
            Err(AllocError)
        }
    }
}

/// What all workers return, with the starting thread's seat. If a thread can't be started or memory
/// runs out, the halt word is raised, and nothing is returned.
pub(crate) fn work<B: Fresh, R: Threads + Wait + Clock + Sync, J: Job + Sync, G: Gate + Sync>(
    rt: &R,
    alloc: Global,
    shared: &Shared<'_, J, G>,
    places: &[PartitionPlace<B>],
    workers: NewWorkers<J::Built>,
    own: HaltSeat,
) -> Result<(EndedWorkers<J::Built>, HaltSeat), AllocError>
where
    J::Built: Send,
    requires ready { IsReady (J.stripes shared.now.job.now) (J.partitions shared.now.job.now) shared.now }
    requires places { limit_of shared.now.tickets.now ≡ length places.now }
    requires opened { AreOpened shared.now B.inboxes B.senders B.block }
    requires workers { AreNewWorkers shared.now workers }
    requires own { IsHaltSeatOf shared.now.halt.now own }
    ensures back { IfOk result (λ r. AreEndedWorkers (J.due shared.now.job.now) (J.builds shared.now.job.now) shared.now r.0) }
    ensures own { IfOk result (λ r. IsHaltSeatOf shared.now.halt.now r.1) }
{
    let f = *shared;
    thread::scope(
        thread::scope_env(),
        rt,
        move |scope| -> Result<(EndedWorkers<J::Built>, HaltSeat), AllocError>
            requires { IsReadyOf (J.stripes f.job.now) (J.partitions f.job.now) f.exchange.now f.stripes.now f.settings
                × (limit_of f.tickets.now ≡ length places.now) × AreOpenedOf f.exchange.now f.settings B.inboxes B.senders B.block
                × AreNewWorkersOf f.exchange.now f.halt.now f.done.now f.stripes.now f.tickets.now workers × IsHaltSeatOf f.halt.now own }
            ensures back { IfOk result (λ r. AreEndedWorkersOf (J.due f.entry.job.now) (J.builds f.entry.job.now) f.entry.exchange.now
                f.entry.halt.now f.entry.stripes.now f.entry.settings r.0) }
            ensures own { IfOk result (λ r. IsHaltSeatOf f.entry.halt.now r.1) }
        {
            let shared = Shared {
                exchange: f.exchange,
                halt: f.halt,
                done: f.done,
                stripes: f.stripes,
                tickets: f.tickets,
                job: f.job,
                gate: f.gate,
                settings: f.settings,
            };
            run_or_halt(scope, rt, alloc, &shared, places, workers, own)
        },
    )
}
