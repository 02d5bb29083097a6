//! A phase of a world: all its boxes run freely, each on a thread of its own, while operators ask them.
#![tactic(auto)]

mod finishing;
mod gathering;
mod leaving;
mod phase;
mod preparing;
mod running;
mod setting_free;

pub use phase::{Phase, live_phase};
