//! Networks as they are laid out: boxes and the channels between them, and their first world.
#![tactic(auto)]

mod boxes;
mod fault;
pub mod laws;
mod layout;
pub mod limit;
mod plan;
mod programs;
mod tunnels;

pub use fault::{PlanFault, ProgramFault};
pub use layout::Layout;
pub use plan::{BoxPlan, Plan};
