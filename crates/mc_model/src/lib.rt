//! Channels, and the definitions of worlds, steps, runs, settles, paths, rings and soundness.
#![tactic(auto)]

mod channel;

pub use channel::{Channel, TUNNEL_LIMIT, Tunnel};
