//! Settling in which the boxes' turns may come in any order, by phases of a network in parts.
#![tactic(auto)]

mod answers;
mod commands;
mod finishing;
mod in_parts;
mod playing;
mod resting;
mod settling;
mod shifting;
mod worlds;

pub use in_parts::{InParts, part_count};
pub use settling::settle;
pub use worlds::{settle_rounds, settle_world};
