//! Commands: the lines that tell a net what to do, read and printed.
#![tactic(auto)]

mod command;
pub mod keyword;
pub mod laws;
mod line;
mod lines;
pub mod places;
mod print;
pub mod rule;

pub use command::{Batch, Command, JournalLine, JournalText, LineFault};
pub use line::{LINE_LIMIT, begins_hash, check_bytes, read_command, read_kind};
pub use lines::{hear_line, link_line, set_line, settle_line, talk_line, tell_line};
pub use print::{goal_word, print_command};
