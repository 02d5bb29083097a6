//! The text of a network: its lines, which are read again before they are handed out.
#![tactic(auto)]

pub mod laws;
mod line;
mod lines;
mod programs;
mod same;
mod same_names;
mod same_parts;
mod text;
mod words;

pub use text::{NoText, reads_as, write_net};
