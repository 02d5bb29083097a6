//! The words, numbers, names and draws of the texts that the program reads.
#![tactic(auto)]

mod draws;
pub mod limit;
mod lines;
mod name_fault;
mod name_list;
mod names;
mod spelling;
mod words;

pub use draws::Draws;
pub use lines::{line_end, next_line, next_word};
pub use name_fault::NameFault;
pub use names::Names;
pub use spelling::{is_name, is_spelt, read_number};
pub use words::{FirstWords, Words};
