//! The top call of the program: it reads a text or makes one, settles its calls, and prints their paths or counts of
//! them.
#![tactic(auto)]

mod checking;
mod growing;
pub mod laws;
mod modes;
mod report;
mod run;
mod script_network;
mod top;
mod viewer;

pub use checking::TailFault;
pub use mc_script_end::Run;
pub use mc_seq::SettleStop;
pub use mc_words::{Mode, read_mode};
pub use report::Report;
pub use run::run_script;
pub use top::{check_by_net, media_top, text_of};
