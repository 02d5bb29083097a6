//! How a script ends: its journal to its end or to a stop, what is printed for it, and which scripts come to their end.
#![tactic(auto)]

pub mod laws;
mod print;
mod run;

pub use mc_seq::SettleStop;
pub use run::{Run, deliver_run, stop_by, with_journal};
