//! Call ladders as a page: the ladder, and beside it the network as it stands after each row, in one file that a
//! browser opens from the disk.
#![tactic(auto)]

mod cell;
mod change;
mod data;
mod frame;
pub mod laws;
mod network;
mod page;
mod quoted;
mod row;

pub use page::draw_page;
