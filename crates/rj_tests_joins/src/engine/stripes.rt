//! The stripes of a table, as their senders delivered them.

ghost use Rattle.std.specs.Prelude.{◌≡◌, ◌≤◌, ◌+◌, true, IfSome, length, slice_index_or};
ghost use Rattle.rj_condition.specs.Fits.{fits};
ghost use Rattle.rj_exchange.specs.Ledgers.{LedgerValue};

use crate::tables::{first_keys, join_by_keys};
use rj_columns::Table;
use rj_condition::BoundJoin;
use rj_engine::{Joined, OpenGate, Settings, run_join};
use rj_radix::Plain;
use std::alloc::Global;
use std::sync::Wait;
use std::test::Fail;
use std::thread::Threads;
use std::time::Clock;

// The join of a table with itself by this many workers, in one partition; none if memory runs out
// or a thread can't be started.
fn in_one_partition<R: Threads + Wait + Clock + Sync>(
    rt: &R,
    alloc: Global,
    table: &Table,
    join: &BoundJoin,
    workers: u32,
) -> Option<Joined>
    requires { fits join.now table.now.types table.now.types ≡ true }
    ensures ledgers { IfSome result (λ j. length j.ledgers ≡ 1) }
    ensures senders { IfSome result (λ j. (d : LedgerValue) → length (slice_index_or j.ledgers 0 d).senders ≡ workers + workers) }
{
    let Some(settings) = Settings::new(workers, 0, 0, 1024, 1, 64, 1) else {
        return None;
    };
    match run_join(rt, alloc, table, table, join, &settings, &Plain, &OpenGate) {
        Ok(joined) => Some(joined),
        Err(_) => None,
    }
}

// Whether the senders of the left and of the right stripes have delivered these rows.
fn are_delivered(joined: &Joined, stripes: &[&[u32]]) -> bool
    requires ledgers { length joined.now.ledgers ≡ 1 }
    requires senders { (d : LedgerValue) → length (slice_index_or joined.now.ledgers 0 d).senders ≡ length stripes.now + length stripes.now }
    requires few { length stripes.now ≤ 64 }
{
    let count = stripes.len() as u32;
    for at in 0..stripes.len() {
        let left = joined.delivered(0, at as u32);
        let right = joined.delivered(0, count + at as u32);
        if left != stripes[at] || right != stripes[at] {
            return false;
        }
    }
    true
}

// Whether the stripes of a table joined with itself are these.
fn are_stripes<R: Threads + Wait + Clock + Sync>(
    rt: &R,
    alloc: Global,
    table: &Table,
    stripes: &[&[u32]],
) -> bool {
    let Some(join) = join_by_keys(alloc, table, table) else {
        return false;
    };
    if stripes.len() > 64 {
        return false;
    }
    match in_one_partition(rt, alloc, table, &join, stripes.len() as u32) {
        Some(joined) => are_delivered(&joined, stripes),
        None => false,
    }
}

// How many rows a table has, and its stripes.
const CUTS: [(i64, &[&[u32]]); 3] = [
    (5, &[&[0, 1], &[2, 3, 4]]),
    (2, &[&[], &[0], &[1]]),
    (0, &[&[], &[]]),
];

#[test]
fn stripe_cuts(rt: HostRuntime) -> Result<(), Fail> {
    for (rows, stripes) in CUTS {
        let column = first_keys(rt.alloc(), rows)?;
        assert!(rt;
            are_stripes(&rt, rt.alloc(), &column.table, stripes),
            "{rows} rows"
        );
    }
    Ok(())
}
