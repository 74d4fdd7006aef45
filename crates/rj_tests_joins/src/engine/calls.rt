//! Calls that no program makes, each once.

ghost use Rattle.std.specs.Prelude.{◌≡◌, true};
ghost use Rattle.rj_condition.specs.Fits.{fits};

use crate::tables::{join_by_keys, keys};
use rj_columns::{RowSource, Table};
use rj_condition::BoundJoin;
use rj_engine::{
    Choice, ColumnChoice, OpenGate, Repeated, RowKinds, RowOrder, Settings, View, gather, header,
    run_join,
};
use rj_radix::Plain;
use std::alloc::Global;
use std::sync::Wait;
use std::test::Fail;
use std::thread::Threads;
use std::time::Clock;

// Each left row at its place, matched or not, with these columns.
fn left_rows(columns: ColumnChoice) -> Choice<'static> {
    Choice {
        rows: RowKinds {
            pairs: true,
            matched_left: false,
            lone_left: true,
            lone_right: false,
        },
        order: RowOrder::LeftFirst,
        columns,
        repeated: Repeated::Kept,
    }
}

// How many names the joined table has, and how many rows it, its view and the view of what is
// chosen of it have; none if memory runs out or a thread can't be started.
fn counts<R: Threads + Wait + Clock + Sync>(
    rt: &R,
    alloc: Global,
    left: &Table,
    right: &Table,
    join: &BoundJoin,
) -> Option<[u64; 4]>
    requires { fits join.now left.now.types right.now.types ≡ true }
{
    let settings = Settings::new(1, 0, 0, 1024, 1, 64, 1)?;
    let Ok(joined) = run_join(rt, alloc, left, right, join, &settings, &Plain, &OpenGate) else {
        return None;
    };
    let Ok(names) = header(alloc, left, right, join) else {
        return None;
    };
    let Ok(whole) = View::open(alloc, left, right, join, &joined) else {
        return None;
    };
    let choice = left_rows(ColumnChoice::All);
    let Ok(chosen) = View::choose(alloc, left, right, join, &joined, &choice) else {
        return None;
    };
    let rows = [joined.len() as u64, whole.rows(), chosen.rows()];
    Some([names.len() as u64, rows[0], rows[1], rows[2]])
}

// The same of the join by keys.
fn counts_by_keys<R: Threads + Wait + Clock + Sync>(
    rt: &R,
    alloc: Global,
    left: &Table,
    right: &Table,
) -> Option<[u64; 4]> {
    match join_by_keys(alloc, left, right) {
        Some(join) => counts(rt, alloc, left, right, &join),
        None => None,
    }
}

#[test]
fn plain_joins_and_views(rt: HostRuntime) -> Result<(), Fail> {
    let left = keys(rt.alloc(), &[1, 2, 3])?;
    let right = keys(rt.alloc(), &[3, 2, 2])?;
    assert_eq!(rt;
        counts_by_keys(&rt, rt.alloc(), &left.table, &right.table),
        Some([1, 3, 3, 3])
    );
    Ok(())
}

#[test]
fn gathered_pairs(rt: HostRuntime) -> Result<(), Fail> {
    let list = vec![in rt.alloc(); (2, 1), (0, 5)]?;
    let lists = vec![in rt.alloc(); list]?;
    let pairs = gather(rt.alloc(), &lists)?;
    assert!(rt; pairs.as_slice() == [(0, 5), (2, 1)].as_slice());
    Ok(())
}
