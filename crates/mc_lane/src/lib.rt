//! A queue whose room is asked for beforehand.
#![tactic(auto)]

mod lane;

pub use lane::Lane;
