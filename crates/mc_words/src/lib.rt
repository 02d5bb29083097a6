//! What the words of the command line ask for.
#![tactic(auto)]

mod arguments;
mod box_name;
mod help;
pub mod laws;
mod parser;
mod words;

pub use arguments::{Arguments, read_arguments};
pub use box_name::BoxName;
pub use help::asks_for_help;
pub use words::{Mode, asks_to_grow, read_mode};
