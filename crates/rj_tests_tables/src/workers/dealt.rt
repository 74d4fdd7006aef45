//! A job over rows made by hand, which counts how often it builds a partition, and can refuse scans.
ghost use Rattle.std.specs.Prelude.{◌≡◌, ◌<◌, ◌≤◌, ◌+◌, ℕ, All, IfOk, IfSome, length};
ghost use Rattle.std.proofs.Props.{props};
ghost use Rattle.rj_radix.specs.Groups.{IsPart, group};

use rj_exchange::ledger::Ledger;
use rj_radix::{Scattered, scatter};
use rj_workers::{Gate, Job, WorkerSettings, run_workers};
use std::alloc::{AllocError, Global};
use std::sync::Wait;
use std::sync::atomic::{AtomicU64, Ordering};
use std::thread::Threads;
use std::time::Clock;

// The rows of one sender, with the partition of each: its number modulo three.
#[derive(Drop)]
struct Rows {
    rows: Vec<u32>,
    routes: Vec<Option<u32>>,
    ghost len: { length routes.items ≡ length rows.items },
    ghost below: { All (λ r. IfSome r (λ p. p < 3)) routes.items } by { Prim.hlevel props },
}

// Five rows, from this one on.
fn rows_from(alloc: Global, first: u32) -> Result<Rows, AllocError>
    requires { first ≤ 1270 }
{
    let mut rows = Vec::new(alloc);
    let mut routes = Vec::new(alloc);
    for row in first..first + 5 {
        rows.push(row)?;
        routes.push(Some(row % 3))?;
    }
    Ok(Rows { rows, routes })
}

// The rows of this many senders: of sender 0 the rows 0 to 4, of sender 1 the rows 10 to 14, and so
// on.
fn deal(alloc: Global, count: u32) -> Result<Vec<Rows>, AllocError>
    requires { count ≤ 128 }
    ensures { IfOk result (λ v. length v.items ≡ count) }
{
    let mut senders = Vec::new(alloc);
    for sender in 0..count {
        senders.push(rows_from(alloc, sender * 10)?)?;
    }
    Ok(senders)
}

#[derive(Drop)]
struct Dealt {
    senders: Vec<Rows>,
    stripes: u32,
    refused: u64,
    scans: AtomicU64,
    builds: AtomicU64,
    ghost both: { length senders.items ≡ stripes + stripes },
    ghost limits: { (1 ≤ stripes) × (stripes ≤ 64) },
}

// The rows of a sender by partition.
fn scatter_rows(alloc: Global, sender: &Rows) -> Result<Scattered, AllocError>
    ensures parts { IfOk result (λ s. length s.starts.items ≡ 3) }
    ensures each { IfOk result (λ s. (p : ℕ) → p < 3 → IsPart s.rows.items s.starts.items p (group sender.now.rows.items sender.now.routes.items p)) }
{
    let scattered = scatter(alloc, &sender.rows, &sender.routes, 3)?;
    Ok(scattered)
}

impl Job for Dealt {
    ghost use Rattle.std.specs.Prelude.{[], map, slice_index_or};
    ghost use Rattle.rj_radix.specs.Groups.{group};

    ghost stripes = { λ s. s.stripes };

    ghost partitions = { λ s. 3 };

    ghost due = { λ s sender p.
        group (slice_index_or (map (λ r. r.rows.items) s.senders.items) sender []) (slice_index_or (map (λ r. r.routes.items) s.senders.items) sender []) p };

    ghost joinable = { λ s lists. Unit {0} };

    type Built = ();

    ghost builds = { λ s p lists built. Unit {0} };

    fn scatter(&self, alloc: Global, stripe: u32) -> Result<(Scattered, Scattered), AllocError> {
        if self.scans.fetch_add(1, Ordering::SeqCst) < self.refused {
            return Err(AllocError);
        }
        let lefts = scatter_rows(alloc, &self.senders[stripe as usize])?;
        let rights = scatter_rows(alloc, &self.senders[(self.stripes + stripe) as usize])?;
        Ok((lefts, rights))
    }

    fn try_build(
        &self,
        alloc: Global,
        partition: u32,
        ledger: &Ledger,
    ) -> Result<Option<()>, AllocError> {
        self.build(alloc, partition, ledger)?;
        Ok(Some(()))
    }

    fn build(&self, alloc: Global, partition: u32, ledger: &Ledger) -> Result<(), AllocError> {
        let (_alloc, _partition, _ledger) = (alloc, partition, ledger);
        self.builds.fetch_add(1, Ordering::SeqCst);
        Ok(())
    }
}

// Whether a run of it ends with its result.
fn is_ended<R: Threads + Wait + Clock + Sync, G: Gate + Sync>(
    rt: &R,
    alloc: Global,
    job: &Dealt,
    gate: &G,
    (lanes, capacity): (u32, u32),
    retries: u32,
) -> bool {
    let settings = WorkerSettings {
        workers: job.stripes,
        partitions: 3,
        block: 1,
        lanes: lanes.clamp(1, 4),
        capacity: capacity.clamp(1, 4096),
        retries,
    };
    run_workers(rt, alloc, job, gate, settings).is_ok()
}

/// How often the three partitions are built by a run of this many workers with blocks of one row,
/// if it ends with its result. The first `refused` scans run out of memory.
pub fn builds<R: Threads + Wait + Clock + Sync, G: Gate + Sync>(
    rt: &R,
    alloc: Global,
    gate: &G,
    workers: u32,
    queues: (u32, u32),
    (refused, retries): (u64, u32),
) -> Result<Option<u64>, AllocError> {
    let stripes = workers.clamp(1, 64);
    let job = Dealt {
        senders: deal(alloc, stripes + stripes)?,
        stripes,
        refused,
        scans: AtomicU64::new(0),
        builds: AtomicU64::new(0),
    };
    if !is_ended(rt, alloc, &job, gate, queues, retries) {
        return Ok(None);
    }
    Ok(Some(job.builds.load(Ordering::SeqCst)))
}
