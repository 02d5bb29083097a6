//! Networks that grow and shrink at settles.
#![tactic(auto)]

mod channels;
mod grown;

pub use grown::{Grown, InUse};
