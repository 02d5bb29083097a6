//! The desks of several boxes, one for each box, at all of which the same operators ask.
#![tactic(auto)]

mod dealing;
mod finishing;
mod laying;

pub use finishing::finish_desks;
pub use laying::{Desks, lay_desks};
