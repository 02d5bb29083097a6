//! Where turns settle: the places at which a journal of them has its marks.
#![tactic(auto)]

mod ends;
mod fault;
mod following;
mod journal;
pub mod laws;

pub use ends::{Segments, settled_ends};
pub use fault::SegmentsFault;
pub use journal::{settled_batches, settled_lines};
