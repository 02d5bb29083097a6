//! A box with its ports, and its rounds: a round takes what has come for the box, makes the box's events, and sends
//! what they send.
#![tactic(auto)]

mod acting;
mod carrying;
mod end_set;
mod inboxes;
pub mod laws;
pub mod limit;
mod logged;
mod outboxes;
mod places;
mod progress;
mod retries;
mod rounds;
mod sending;
mod stop;
mod taking;
mod turns;
mod worker;

pub use carrying::{carry, carry_within};
pub use end_set::EndSet;
pub use inboxes::Inboxes;
pub use logged::Logged;
pub use outboxes::Outboxes;
pub use places::Places;
pub use stop::{RoundEnd, Stop};
pub use worker::Worker;
