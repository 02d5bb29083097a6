//! The top call of `medialive`: it reads a text, settles its calls while the boxes run freely and several operators ask
//! them for their commands, and prints their paths.
#![tactic(auto)]

pub mod laws;
mod run;
mod top;
mod words;

pub use mc_script_end::Run;
pub use run::run_live;
pub use top::live_top;
pub use words::{LiveCommand, read_live};
