//! Snapshots: a shard, and so a box, written down as bytes and made again, in the place of all of its journal up to then.
#![tactic(auto)]

mod boxes;
mod kinds;
mod lists;
mod making;
mod media;
mod programs;
mod rules;
mod shards;
mod slots;
mod wire;

pub use shards::{SNAPSHOT_VERSION, SnapshotFault, read_shard, write_shard};
