//! The wire form of a journal's entry: bytes of fixed fields, little-endian.
#![tactic(auto)]

pub mod bytes;
mod codes;
pub mod laws;
pub mod reading;
mod whole;
pub mod writing;

pub use whole::{EntryFault, read_entry};
pub use writing::write_entry;
