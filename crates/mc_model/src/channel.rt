// Channels.

use mc_signal::Medium;
use std::marker::Model;

/// The most tunnels of a channel.
pub const TUNNEL_LIMIT: usize = 8;

/// A tunnel of a channel: its medium, and the local numbers of its two slots, the initiator's first.
#[derive(Clone, Copy, PartialEq, Eq, Debug)]
pub struct Tunnel {
    pub medium: Medium,
    pub from: u8,
    pub to: u8,
}

/// A channel of one to eight tunnels between two boxes, `from` being the initiator.
#[derive(Debug, Drop)]
pub struct Channel {
    pub from: u32,
    pub to: u32,
    pub tunnels: Vec<Tunnel>,
}

impl Model for Channel {
    ghost use Rattle.mc_model.specs.Worlds.{ChannelState};

    ghost Value = { ChannelState };

    ghost view = { λ c. record { from = c.from; to = c.to; tunnels = c.tunnels.items } };
}
