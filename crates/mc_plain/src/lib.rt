//! What crosses between C and boxes: structs of numbers, each of which may say anything, and what they say.
#![tactic(auto)]

pub mod answer;
pub mod asked;
pub mod loose;
pub mod program;
pub mod signals;
pub mod text;
pub mod view;
