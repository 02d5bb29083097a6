//! One direction between two boxes: a ring buffer of signals that carry stamps, with an end for each box. And what a box
//! logs of its events, and what these take and send at each of its channel ends.
#![tactic(auto)]

mod ends;
pub mod limit;
mod stamped;

pub use ends::{InPort, OutPort, drain_beside, look_beside, pair};
pub use stamped::Stamped;
