//! Parts of a network: what each is made of, wherever the network is divided, and how they run, each by itself and side by
//! side on threads.
#![tactic(auto)]

mod carrying;
mod channels;
mod homes;
mod knowing;
pub mod laws;
pub mod limit;
mod part;
mod part_run;
mod patience;
mod phase;
mod port;
mod pumping;
mod retrying;
mod running;
mod sharing;
mod steps;
mod stop;
mod writing;

pub use carrying::carry;
pub use channels::channels_in;
pub use homes::{Homes, homes_of};
pub use knowing::{Known, owes_some};
pub use mc_merge::{Made, PartLog, merge};
pub use part::Part;
pub use part_run::PartRun;
pub use phase::run_parts;
pub use port::Port;
pub use running::run_part;
pub use sharing::{gather, share};
pub use stop::{Ended, PartStop};
