//! What is printed of the paths of a network after a settle, by the path table, and of a settle that stopped; and what a
//! journal keeps of settles.
#![tactic(auto)]

mod journal;
mod stop;

pub use journal::{keep_settle, keep_turns};
pub use stop::{print_box_stop, print_slot_stop, stop_word};
