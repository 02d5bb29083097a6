//! Journals checked: each turn is made again, in the world that the turns before it leave, and a mark stands where they
//! have settled a batch.
#![tactic(auto)]

mod checking;
pub mod counts;
mod fault;
pub mod laws;
pub mod moments;
mod replay;
pub mod retries;
pub mod rule;
pub mod segment;
mod telling;
mod viewer;

pub use checking::{Checked, Told, check, check_lines, tell_lines};
pub use fault::{CheckFault, JournalFault, ReplayFault};
pub use viewer::Viewer;
