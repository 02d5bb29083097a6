//! Live settles: a batch's commands are dealt to operators, who ask for them while the boxes of a world run freely;
//! what is left is then settled.
#![tactic(auto)]

mod behind;
mod dealing;
pub mod laws;
mod settling;

pub use dealing::deal;
pub use settling::settle_live;
