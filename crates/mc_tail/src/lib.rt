//! What stands after the line `grow` of a text: channels that join and that are cut, and commands.
#![tactic(auto)]

mod channels;
mod item;
mod keyword;
mod reader;
mod tail;

pub use item::Item;
pub use tail::{TailText, read_tail};
