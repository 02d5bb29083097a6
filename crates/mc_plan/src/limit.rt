//! The limits of a plan, which clauses cite. A channel has at most `mc_world::TUNNEL_LIMIT` tunnels, and a box at most
//! `mc_box::limit::SLOT_LIMIT` slots.

/// The most boxes of a plan: as many as a network that is settled in parts may have.
pub const PLAN_BOX_LIMIT: usize = 262_144;

/// The most channels of a plan.
pub const PLAN_CHANNEL_LIMIT: usize = 262_144;
