//! What a person is told of how a call of the program ended, in words.
#![tactic(auto)]

mod explanation;
mod hints;
mod quote;
mod reason;
mod sentences;

pub use explanation::explain;
pub use reason::Reason;
