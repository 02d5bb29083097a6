//! A network that is divided into parts: laid out, run by phases, and put together again.
#![tactic(auto)]

mod assigning;
mod carrying_over;
mod choosing;
mod clocks;
mod commands;
mod dividing;
mod engines;
mod filling;
mod knowing;
mod laying;
pub mod limit;
mod logs;
mod looking;
mod merging;
mod network;
mod phase;
mod splitting;
mod walking;
mod whole;
mod wiring;

pub use assigning::{Assigned, assign};
pub use clocks::share_clocks;
pub use commands::{add_command, begin_settle, has_commands};
pub use knowing::{end_settle, has_shifted, owes_retry};
pub use laying::divide_network;
pub use looking::{box_of, first_shifter, least_ring, slot_number};
pub use network::{Crossing, DividedNetwork};
pub use phase::run_phase;
pub use whole::whole_world;
