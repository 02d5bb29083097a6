//! Journals as text: the turns of each settle, a line each, printed and read.
#![tactic(auto)]

pub mod laws;
mod place;
mod print;
mod read;
mod reading;
mod turn;

pub use place::{line_count, line_place};
pub use print::print_journal;
pub use read::read_journal;
