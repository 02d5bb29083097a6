//! Conferences: whom a mixer at a box would let each party hear.
#![tactic(auto)]

pub mod laws;
mod mixing;
mod party;
mod printing;

pub use mixing::{Mix, mixes};
pub use party::{Leg, legs};
pub use printing::print_conf;
