//! Desks: several operators ask one box, each from a thread of its own. Of each operator the box takes the requests
//! that were accepted, in their order and each once, and those that it doesn't take are left on the desk.
#![tactic(auto)]

mod desk;
pub mod limit;
mod log;
mod request;

pub use desk::{Desk, Full, Operator, Taker};
pub use request::Request;
