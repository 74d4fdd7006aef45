//! The rows of a shard.

use crate::tables::keys;
use rj_radix::Plain;
use rj_shards::Shards;
use std::test::Fail;

// The plain hash of a whole number is the number itself: 10, 7 and 14 leave 2, 3 and 2 by 4.
#[test]
fn rows_of_a_shard(rt: HostRuntime) -> Result<(), Fail> {
    let column = keys(rt.alloc(), &[10, 7, 14])?;
    let rows = Shards { parts: 4 }.rows(rt.alloc(), &column.table, &[0], 2, &Plain)?;
    assert!(rt; rows.as_slice() == [0, 2].as_slice());
    Ok(())
}
