// Coming to rest after the commands.

ghost use Rattle.std.specs.Prelude.{◌≡◌, false, IfOk, OnOk};
ghost use Rattle.mc_model.specs.Paths.{has_ring};
ghost use Rattle.mc_model.specs.Rings.{IsLeastOnRing};
ghost use Rattle.mc_divided.specs.Networks.{IsDividedNetwork, network_state};
ghost use Rattle.mc_divided.specs.States.{NoneLeft};
ghost use Rattle.mc_rounds.specs.Playing.{Rests};

use crate::playing::go_on;
use mc_box::Turn;
use mc_divided::{DividedNetwork, least_ring};
use mc_io::Gate;
use std::alloc::{AllocError, Global};
use std::thread::Threads;

/// How boxes come to rest: at a ring, of which this is the least slot, or at none, and whether a Shift came on the way.
#[derive(Clone, Copy)]
pub struct Rest {
    pub ring: Option<u32>,
    pub shifted: bool,
}

/// Phases after the commands, to a ring, or until nothing is left to do. There may be a ring before them only where
/// slots were linked.
pub fn come_to_rest<R: Threads + Sync, G: Gate + Sync>(
    rt: &R,
    alloc: Global,
    gate: &G,
    short: bool,
    linked: bool,
    network: &mut DividedNetwork,
    turns: &mut Vec<Turn>,
) -> Result<Rest, AllocError>
    requires divided { IsDividedNetwork network.old }
    requires used_up { NoneLeft (network_state network.old) }
    requires free { linked ≡ false → has_ring (network_state network.old).world ≡ false }
    ensures divided { OnOk result (IsDividedNetwork network.new) }
    ensures came { IfOk result (λ rest. Rests (network_state network.old) (network_state network.new)
        turns.old.items turns.new.items rest.ring rest.shifted) }
{
    let mut linked = linked;
    let mut shifted = false;
    'stretches: loop {
        let ring = test_ring(alloc, linked, network)?;
        if ring.is_some() || !go_on(rt, gate, short, network, turns)? {
            return Ok(Rest { ring, shifted });
        }
        linked = true;
        shifted = true;
    }
}

// The least slot on a ring. There is none where no slots were linked.
fn test_ring(
    alloc: Global,
    linked: bool,
    network: &DividedNetwork,
) -> Result<Option<u32>, AllocError>
    requires divided { IsDividedNetwork network.now }
    requires free { linked ≡ false → has_ring (network_state network.now).world ≡ false }
    ensures { IfOk result (IsLeastOnRing (network_state network.now).world) }
{
    if !linked {
        return Ok(None);
    }
    least_ring(alloc, network)
}
