//! Settling on one thread.
#![tactic(auto)]

mod batches;
mod commands;
mod drawing;
mod fault;
mod finding;
pub mod laws;
mod retrying;
mod shifting;
mod stopping;
mod turns;

pub use batches::{fits, has_programs, is_command};
pub use commands::{Commands, all_commands, drop_command, next_command};
pub use drawing::settle_one;
pub use fault::{SettleFault, Stopped, StoppedBox};
pub use retrying::retry_by_box;
pub use stopping::{SettleStop, answer, heard_slot};
pub use turns::make;
