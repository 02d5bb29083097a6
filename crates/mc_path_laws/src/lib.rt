//! Laws of paths, and of what may be at rest on one side of a box.
#![tactic(auto)]

pub mod laws;
