//! Counts in wide trees of sums, by which the k-th of all that is counted is found in few steps.
#![tactic(auto)]

mod finding;
mod levels;
pub mod limit;
mod sums;

pub use sums::Sums;
