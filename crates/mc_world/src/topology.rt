// Where slots stand, and how signals go from them.

ghost use Rattle.std.specs.Prelude.{◌≡◌, ◌<◌, ◌/◌, ◌+◌, ◌≤◌, ◌^◌, ◌++◌, ◌∷◌, [], IfOk, OnOk, length, map};
ghost use Rattle.std.specs.List.{slice_get};
ghost use Rattle.mc_world.specs.Lanes.{lane_by, number_lists, numbers_of, origins, tunnel_by, with_number};
ghost use Rattle.mc_model.specs.Worlds.{far, front_for};

use mc_box::MediaBox;
use mc_lane::Lane;
use mc_signal::{Signal, Tagged};
use std::alloc::{AllocError, Global};

/// The tables of a world: the box and local number of each slot, for each tunnel its channel and its number within
/// the channel, and for each box the numbers of its slots.
#[derive(Debug, Drop)]
pub struct Topology {
    pub places: Vec<(u32, u8)>,
    pub tunnels: Vec<(u32, u8)>,
    pub numbers: Vec<Vec<u32>>,
}

impl Topology {
    /// The numbers of a box's slots, in the order of their local numbers; none where there is no such box.
    pub fn numbers(&self, who: u32) -> &[u32]
        ensures { result.now ≡ numbers_of self.now who }
    {
        match self.numbers.get(who as usize) {
            Some(numbers) => numbers,
            None => &[],
        }
    }

    /// The number of a box's slot.
    pub fn number(&self, who: u32, local: u8) -> Option<u32>
        ensures { result ≡ slice_get (numbers_of self.now who) local }
    {
        self.numbers(who).get(local as usize).copied()
    }

    /// A channel of one tunnel comes last: its two slots have the next two numbers, and come last among those of their
    /// boxes. What was there stays where it is.
    pub fn join(&mut self, channel: u32, from: (u32, u8), to: (u32, u8)) -> Result<(), AllocError>
        requires near { from.0 < length self.old.numbers.items }
        requires away { to.0 < length self.old.numbers.items }
        requires fit { length self.old.places.items + 2 ≤ 2 ^ 32 }
        ensures places { OnOk result (self.new.places.items ≡ self.old.places.items ++ from ∷ to ∷ []) }
        ensures tunnels { OnOk result (self.new.tunnels.items ≡ self.old.tunnels.items ++ (channel, 0) ∷ []) }
        ensures numbers { OnOk result (number_lists self.new.numbers.items
            ≡ with_number (with_number (number_lists self.old.numbers.items) from.0 (length self.old.places.items)) to.0
            (length self.old.places.items + 1)) }
        ensures homes { OnOk result (length self.new.numbers.items ≡ length self.old.numbers.items) }
    {
        let slot = self.places.len() as u32;
        self.places.push(from)?;
        self.places.push(to)?;
        self.tunnels.push((channel, 0))?;
        add_number(&mut self.numbers, from.0, slot)?;
        add_number(&mut self.numbers, to.0, slot + 1)
    }

    /// The lane that leads to a slot, and the number of the slot's tunnel within its channel.
    pub fn toward(&self, slot: u32) -> (usize, u8)
        requires { slot / 2 < length self.now.tunnels.items }
        ensures lane { result.0 ≡ lane_by self.now slot }
        ensures tunnel { result.1 ≡ tunnel_by self.now slot }
    {
        let (channel, tunnel) = self.tunnels[slot as usize / 2];
        (2 * channel as usize + slot as usize % 2, tunnel)
    }
}

/// The slot at the other end of a slot's tunnel.
pub fn far(slot: u32) -> u32
    ensures { result ≡ far slot }
{
    if slot.is_multiple_of(2) {
        slot + 1
    } else {
        slot - 1
    }
}

/// The front of a lane, where that is for the tunnel.
pub fn front_for(lane: &Lane<Tagged>, tunnel: u8) -> Option<Signal>
    ensures { result ≡ front_for tunnel lane.now.items }
{
    match lane.front() {
        Some(first) if first.tunnel == tunnel => Some(first.signal),
        _ => None,
    }
}

// A slot has its number last among those of its box.
fn add_number(numbers: &mut Vec<Vec<u32>>, who: u32, slot: u32) -> Result<(), AllocError>
    requires { who < length numbers.old.items }
    ensures numbers { OnOk result (number_lists numbers.new.items
        ≡ with_number (number_lists numbers.old.items) who slot) }
    ensures homes { OnOk result (length numbers.new.items ≡ length numbers.old.items) }
{
    let list = &mut numbers[who as usize];
    list.push(slot)?;
    Ok(())
}

/// The numbers of the slots of each of these boxes.
pub fn numbers_among(alloc: Global, boxes: &[MediaBox]) -> Result<Vec<Vec<u32>>, AllocError>
    ensures { IfOk result (λ numbers. map (λ numbers. numbers.items) numbers.items ≡ map origins boxes.now) }
{
    let mut numbers = Vec::new(alloc);
    for home in boxes {
        numbers.push(numbers_in(alloc, home)?)?;
    }
    Ok(numbers)
}

// The numbers of a box's slots, which its descriptors have as origins.
fn numbers_in(alloc: Global, home: &MediaBox) -> Result<Vec<u32>, AllocError>
    ensures { IfOk result (λ numbers. numbers.items ≡ origins home.now) }
{
    home.keeps();
    let mut numbers = Vec::new(alloc);
    for local in 0..home.slots().len() {
        numbers.push(home.own(local as u8).origin)?;
    }
    Ok(numbers)
}
