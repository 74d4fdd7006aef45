//! How many rows the partitions had, by their ledgers.

ghost use Rattle.std.specs.Prelude.{◌≡◌, ◌<◌, ◌≤◌, ◌+◌, ◌-◌, ◌^◌, All, IfOk, length, map, min};
ghost use Rattle.rj_engine.specs.Partitioned.{rows_from};

use rj_exchange::ledger::Ledger;
use std::alloc::{AllocError, Global};

/// How many rows this many senders from the first delivered, or 2^64 - 1 if there are more.
pub(crate) fn delivered_rows(ledger: &Ledger, first: u32, count: u32) -> u64
    requires { (first + count ≤ length ledger.now.senders) × (first + count ≤ 128) }
    ensures { result ≡ min (rows_from first count ledger.now) (2 ^ 64 - 1) }
{
    let mut rows = 0u64;
    for at in 0..count {
        rows = rows.saturating_add(ledger.delivered(first + at).len() as u64);
    }
    rows
}

/// How many rows this many senders from the first delivered to each partition.
pub(crate) fn delivered_sizes(
    alloc: Global,
    ledgers: &[Ledger],
    first: u32,
    count: u32,
) -> Result<Vec<u64>, AllocError>
    requires few { first + count ≤ 128 }
    requires senders { All (λ v. first + count ≤ length v.senders) ledgers.now }
    requires rows { All (λ v. rows_from first count v < 2 ^ 64) ledgers.now }
    ensures { IfOk result (λ v. v.items ≡ map (rows_from first count) ledgers.now) }
{
    let mut sizes = Vec::with_capacity(alloc, ledgers.len())?;
    for ledger in ledgers {
        sizes.push(delivered_rows(ledger, first, count))?;
    }
    Ok(sizes)
}
