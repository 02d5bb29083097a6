//! Stages of networks that grow and shrink at settles: plans of their joins and cuts and their batches, whether these may
//! be asked for, and the joins and cuts before a settle.
#![tactic(auto)]

mod commands;
mod growing;
pub mod laws;
mod plan;

pub use commands::may_command;
pub use growing::{GrowthFault, UsedSlot, grow, grow_all, may_ask};
pub use plan::{ChannelChange, StagePlan};
