// A network in parts between two settles.

ghost use Rattle.std.specs.Prelude.{◌≡◌, ◌≤◌, length, IfErr, IfOk};
ghost use Rattle.mc_model.specs.Settles.{IsSettled};
ghost use Rattle.mc_model.specs.Shapes.{AreAllowed};
ghost use Rattle.mc_divided.specs.declared.limit.TheConstants.{NETWORK_LIMIT};
ghost use Rattle.mc_rounds.specs.Stops.{Stops};
ghost use Rattle.mc_seq.specs.ShiftLimit.{KeepsShiftLimit};

use crate::settling::settle;
use mc_box::{MediaBox, Turn};
use mc_divided::{DividedNetwork, box_of, divide_network, slot_number, whole_world};
use mc_io::Gate;
use mc_path::Network;
use mc_seq::SettleFault;
use mc_world::World;
use std::alloc::{AllocError, Global};
use std::marker::Model;
use std::thread::{Threads, available_parallelism};

// A network has so many parts at least, where it has as many boxes: two boxes may have to run at once.
const FEWEST_PARTS: usize = 2;

/// A network between two settles. It is divided into parts, once for all settles, and seen as the world for which they
/// stand.
#[derive(Drop)]
pub struct InParts {
    network: DividedNetwork,
}

impl Model for InParts {
    ghost use Rattle.mc_model.specs.Worlds.{WorldState};

    ghost Value = { WorldState };

    ghost use Rattle.mc_divided.specs.Networks.{IsDividedNetwork, world_in};

    ghost view = { λ parted. world_in parted.network };

    ghost invariant = { λ parted. IsDividedNetwork parted.network };
}

impl InParts {
    /// Divisions a world into at most so many parts, or into one where that is 0. The world has at most
    /// `mc_divided::limit::NETWORK_LIMIT` boxes. It fails only for want of memory; the world is gone then.
    pub fn new(alloc: Global, world: World, most: usize) -> Result<InParts, AllocError>
        requires few { length world.boxes ≤ NETWORK_LIMIT }
        ensures { IfOk result (λ parted. parted ≡ world) }
    {
        let network = divide_network(alloc, world, most)?;
        Ok(InParts { network })
    }

    /// Settles a batch, with the boxes' turns in any order. Which interleaving of the boxes its turns are no clause
    /// tells: any settled segment may be the answer, and any turns that stop with their cause, in which no box makes
    /// more than `mc_box::limit::SHIFT_LIMIT` Shifts.
    ///
    /// The network allows each command. It always ends: at rest, at a ring of links that the batch or a Shift left, at a
    /// box that has made all its Shifts and has one more enabled, or at a Hear of a descriptor that has the last
    /// version; or for want of memory. The network is gone where it doesn't rest.
    pub fn settle<R: Threads + Sync, G: Gate + Sync>(
        self,
        rt: &R,
        alloc: Global,
        gate: &G,
        batch: &[Turn],
    ) -> Result<(InParts, Vec<Turn>), SettleFault>
        requires allowed { AreAllowed self batch.now }
        ensures settled { IfOk result (λ done. IsSettled self batch.now done.1.items done.0) }
        ensures shift_limit { IfOk result (λ done. KeepsShiftLimit done.1.items) }
        ensures stops { IfErr result (Stops self batch.now) }
    {
        let InParts { network } = self;
        let (network, turns) = settle(rt, alloc, gate, network, batch)?;
        Ok((InParts { network }, turns))
    }

    /// The world for which the parts stand. It fails only for want of memory; the network is gone then.
    pub fn into_world(self, alloc: Global) -> Result<World, AllocError>
        ensures { IfOk result (λ world. world ≡ self) }
    {
        let InParts { network } = self;
        whole_world(alloc, network)
    }
}

impl Network for InParts {
    ghost world = { λ world. world };

    fn keeps(&self) {
        let _ = self.network.frame.slot_count();
    }

    fn slot_count(&self) -> usize {
        self.network.frame.slot_count()
    }

    fn place(&self, slot: u32) -> (u32, u8) {
        self.network.frame.place(slot)
    }

    fn number(&self, who: u32, local: u8) -> Option<u32> {
        slot_number(&self.network, who, local)
    }

    fn home(&self, who: u32) -> &MediaBox {
        box_of(&self.network, who)
    }
}

/// How many parts a network should have at most: as many as processors may be used, and two at least.
pub fn part_count<R: Threads>(rt: &R) -> usize {
    match available_parallelism(rt) {
        Ok(processors) => processors.get().max(FEWEST_PARTS),
        Err(_) => FEWEST_PARTS,
    }
}
