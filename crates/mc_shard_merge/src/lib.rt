//! Journals of shards, side by side: whether each take has its sending, and all of them as one run.
#![tactic(auto)]

mod comparing;
mod fault;
mod joined;
mod merging;
mod naming;
mod stamped;
mod unjoined;

pub use comparing::compare;
pub use fault::MergeFault;
pub use joined::JoinedEnds;
pub use merging::merged_turns;
pub use naming::Unnamed;
pub use unjoined::{Unjoined, WhyUnjoined};
