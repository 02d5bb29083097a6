// A world, taken apart and put together.

ghost use Rattle.std.specs.Prelude.{◌≡◌, ◌≤◌, ◌^◌, ℕ, List, [], length, IfOk};
ghost use Rattle.mc_model.specs.Sound.{IsSound};
ghost use Rattle.mc_model.specs.Worlds.{ChannelState, first_world, number, place, slot_count};
ghost use Rattle.mc_world.specs.Parts.{FitsFrame, HasFrame, parts_state};

use super::World;
use crate::topology::Topology;
use crate::waiting::Waiting;
use mc_box::MediaBox;
use mc_lane::Lane;
use mc_model::Channel;
use mc_signal::Tagged;
use std::alloc::{AllocError, Global};

/// The parts of a world: its boxes, its channels and what is under way, with the tables that depend on the channels
/// alone. They are changed freely, and moved out and back; `World::from_parts` says what it asks of them. The tables
/// tell of slots while boxes and channels are elsewhere.
#[derive(Debug, Drop)]
pub struct Parts {
    pub boxes: Vec<MediaBox>,
    pub channels: Vec<Channel>,
    /// Lane `2k` leads to the initiator's end of channel `k`, lane `2k + 1` to the other.
    pub lanes: Vec<Lane<Tagged>>,
    topology: Topology,
}

impl Parts {
    /// The number of the slots of all boxes.
    pub fn slot_count(&self) -> usize
        ensures count { (channels : List ChannelState) (boxes : ℕ) → FitsFrame self.now channels boxes
            → result ≡ slot_count (first_world [] channels) }
        ensures few { (channels : List ChannelState) (boxes : ℕ) → FitsFrame self.now channels boxes → result ≤ 2 ^ 32 }
    {
        self.topology.places.len()
    }

    /// The box of a slot, and the slot's local number there; `(0, 0)` where there is no such slot.
    pub fn place(&self, slot: u32) -> (u32, u8)
        ensures { (channels : List ChannelState) (boxes : ℕ) → FitsFrame self.now channels boxes
            → result ≡ place (first_world [] channels) slot }
    {
        match self.topology.places.get(slot as usize) {
            Some(place) => *place,
            None => (0, 0),
        }
    }

    /// The number of a box's slot.
    pub fn number(&self, who: u32, local: u8) -> Option<u32>
        ensures { (channels : List ChannelState) (boxes : ℕ) → FitsFrame self.now channels boxes
            → result ≡ number (first_world [] channels) who local }
    {
        self.topology.number(who, local)
    }
}

impl World {
    /// The world's parts. It takes no memory. The tables are of these channels and of as many boxes, wherever these are
    /// moved.
    pub fn into_parts(self) -> Parts
        ensures state { parts_state result ≡ self }
        ensures frame { HasFrame result (length self.boxes) }
        ensures sound { IsSound self }
    {
        Parts {
            boxes: self.boxes,
            channels: self.channels,
            lanes: self.lanes,
            topology: self.topology,
        }
    }

    /// The world of these parts. The tables fit the channels that they have now, and as many boxes, each channel has
    /// its two lanes, and all of it is sound. It fails only for want of memory; the parts are gone then.
    pub fn from_parts(alloc: Global, parts: Parts) -> Result<World, AllocError>
        requires frame { HasFrame parts (length parts.boxes.items) }
        requires sound { IsSound (parts_state parts) }
        ensures { IfOk result (λ world. world ≡ parts_state parts) }
    {
        let waiting = Waiting::of(alloc, &parts.topology, &parts.lanes)?;
        Ok(World {
            boxes: parts.boxes,
            channels: parts.channels,
            lanes: parts.lanes,
            topology: parts.topology,
            waiting,
            scratch: Lane::new(alloc),
            ringless: false,
        })
    }
}
