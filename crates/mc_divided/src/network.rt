// A network in parts.

use mc_part::{PartLog, PartRun};
use mc_world::Parts;

/// A channel that leads from one part to another: the parts at its initiator's end and at the other, and the number that
/// it has in each, which is that of its port there.
#[derive(Clone, Copy, Debug)]
pub struct Crossing {
    pub from: u32,
    pub from_port: u32,
    pub to: u32,
    pub to_port: u32,
}

/// A network divided into parts, between two phases.
#[derive(Drop)]
pub struct DividedNetwork {
    /// The channels and the tables of the whole network. Its boxes and lanes are in the parts.
    pub frame: Parts,
    /// The part of each box, and its number there.
    pub assigned: Vec<u32>,
    pub numbers: Vec<u32>,
    pub runs: Vec<PartRun>,
    /// Of each part a log, empty between phases, with the network's numbers of its boxes and its clock. Parts that are
    /// joined by channels, also by others between, have one clock.
    pub logs: Vec<PartLog>,
    /// The channels that lead from part to part, in the order of their numbers.
    pub crossings: Vec<Crossing>,
    /// Whether no box can make a Shift now.
    pub calm: bool,
    /// Whether some box has a program.
    pub programs: bool,
    /// Whether it is known that no slot stands on a ring.
    pub free: bool,
}
