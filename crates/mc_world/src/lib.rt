//! Boxes, the channels between them, and the signals under way: the world in which a call is settled.
#![tactic(auto)]

mod acting;
mod lanes;
mod network;
mod ringing;
mod settled;
mod topology;
mod waiting;

pub use mc_laws::laws;
pub use mc_model::{Channel, TUNNEL_LIMIT, Tunnel};
pub use network::{
    Engine, Outgoing, Parts, PieceFault, Pieces, PutFault, StepFault, World, engine_of,
};
pub use ringing::least_on_ring;
pub use settled::Settled;
