//! Joins in shards (Balkesen, Teubner, Alonso, Özsu, "Main-memory hash joins on multi-core CPUs",
//! ICDE 2013). The rows of two tables are divided by the hash of their keys. Each shard is joined
//! alone, whole or in pieces. The merge of what the shards give is the joined table of SQL-92
//! (7.5).
//!
//! [`merge`] merges what the shards give. [`division`] divides the rows of a text among parts.
#![tactic(auto)]

pub mod division;
mod laws;
pub mod merge;
mod route;
mod shards;

pub use laws::{
    cut_shards_merge_to_whole, kept_rows_meet, no_place_too_often, no_place_twice, pieces_join,
    pieces_rise, renumbered_cut_shards_merge_to_whole, renumbered_shards_merge_to_whole,
    rows_are_shown, rows_stand_once, shard_is_part, shards_merge, shards_merge_to_whole,
    shards_rise, whole_shards_are_cut,
};
pub use route::ShardRoute;
pub use shards::Shards;
