//! The lines that declare the program of a box: its states, and in each the goals of its slots and the ways out.
#![tactic(auto)]

mod fault;
mod finished;
pub mod laws;
pub mod limit;
mod part;
mod program;
pub mod word_list;

pub use fault::{ReadFault, name_wanting};
pub use part::{StatePart, WaitWord};
pub use program::{Block, is_unfinished, program_line, state_line};
