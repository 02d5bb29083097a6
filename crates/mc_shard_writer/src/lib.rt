//! The one who writes a shard's journal: what a turn sent, and how the boxes are after it, is seen once its entry stands.
#![tactic(auto)]

mod refused;
mod writer;

pub use refused::NoTurn;
pub use writer::ShardWriter;
