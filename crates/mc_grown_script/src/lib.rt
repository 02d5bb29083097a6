//! Scripts of networks that grow and shrink at settles: the plans of their stages are run one after another, and the paths
//! of the network after each settle are printed.
#![tactic(auto)]

mod printing;
mod script;
mod settling;
mod stop;

pub use mc_seq::SettleStop;
pub use script::run_plans;
pub use settling::settle_grown;
pub use stop::{GrownStop, ScriptRun};
