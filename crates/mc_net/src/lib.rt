//! The network that a text declares, or the first fault of the text.
#![tactic(auto)]

mod detail;
mod fault;
pub mod laws;
mod net;
mod text;

pub use detail::fault_detail;
pub use fault::{NetFault, TextFault};
pub use mc_lines::limit::{JOURNAL_TEXT_LIMIT, TEXT_LIMIT};
pub use mc_lines::{Detail, Limit, Tail, Why};
pub use net::{Net, read_blocks, read_net};
pub use text::{Place, read_text};
