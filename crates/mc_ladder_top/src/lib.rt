//! The top call of the program that draws call ladders: it reads a text with its journal, checks both, and draws the
//! journal.
#![tactic(auto)]

mod choosing;
mod drawing;
mod faulty;
pub mod laws;
mod picture;
mod top;
mod words;

pub use picture::Picture;
pub use top::ladder_top;
pub use words::{LadderRequest, read_request};
