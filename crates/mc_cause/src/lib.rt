//! Why a slot is closed: the turn from which the close came, carried beside each close under way.
#![tactic(auto)]

mod causes;
pub mod laws;
mod notes;
mod whys;

pub use causes::Causes;
pub use whys::Whys;
