//! Shards: boxes that are owned, journalled and begun again as one, whose journal is also what they send.
#![tactic(auto)]

mod acting;
mod asking;
mod cutting;
mod digest;
mod entry;
mod laid;
pub mod limit;
mod loading;
mod numbering;
mod owing;
mod parts;
mod places;
mod reached;
mod refused;
mod replaying;
mod shard;
mod taking;

pub use cutting::{cuttable, may_be_cut};
pub use digest::medium_code;
pub use entry::{Asked, AtEnd, Entry, Numbered};
pub use laid::are_laid;
pub use owing::{BoxSlot, owed_slots, shifting_boxes};
pub use parts::ShardParts;
pub use places::SlotPlaces;
pub use reached::Reached;
pub use refused::{Refused, ReplayRefused};
pub use shard::Shard;
