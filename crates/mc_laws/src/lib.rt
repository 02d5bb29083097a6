//! Laws of steps and runs, of rings, and of settling, and worked exchanges.
#![tactic(auto)]

pub mod laws;
