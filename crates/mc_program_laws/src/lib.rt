//! Laws of worlds whose programs go by told words: where a told word leads, and which tunnels flow on.
#![tactic(auto)]

pub mod held;
pub mod told;
