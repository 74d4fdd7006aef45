//! How each row gets to its shard.

ghost use Rattle.std.specs.Prelude.{◌<◌, All, length};
ghost use Rattle.rj_shards.specs.Routes.{shard_of_cells};

use crate::division::Route;
use crate::shards::Shards;
use rj_columns::Table;
use rj_radix::{KeyHash, KeyRef};

/// Leads each row of a table to its shard. With the key columns of a join (the left ones for the
/// left table, the right ones for the right one), the two rows of a match are led to shards of one
/// number ([`kept_rows_meet`]).
///
/// [`kept_rows_meet`]: crate::kept_rows_meet
#[derive(Clone, Copy)]
pub struct ShardRoute<'a, H: KeyHash> {
    /// How many shards there are.
    pub shards: Shards,
    /// The key columns of the table.
    pub columns: &'a [usize],
    /// The hash of the keys.
    pub hash: &'a H,
}

impl<'a, H: KeyHash> Route for ShardRoute<'a, H> {
    ghost part = { λ r. shard_of_cells (H.value r.hash.now) r.shards.parts r.columns.now };

    ghost count = { λ r. r.shards.parts };

    ghost fits = { λ r types. All (λ c. c < length types) r.columns.now };

    fn parts(&self) -> u32 {
        self.shards.parts
    }

    fn part_of(&self, table: &Table, row: u32) -> u32 {
        let key = KeyRef {
            table,
            columns: self.columns,
            row,
        };
        self.shards.route(key, self.hash)
    }
}
