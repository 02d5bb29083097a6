//! Teams: the boxes of a network, each with a worker of its own and rings between them, that make their turns round by
//! round.
#![tactic(auto)]

mod adding;
mod boxes;
mod carrying;
mod ending;
mod joining;
mod layout;
pub mod limit;
mod making;
mod member;
mod merging;
mod placing;
mod round;
mod running;
mod team;

pub use boxes::TeamBoxes;
pub use carrying::carry_all;
pub use layout::LaneEnds;
pub use member::Member;
pub use merging::merge;
pub use round::{RoundLog, logs_of};
pub use team::{Team, dismiss, make_all};
