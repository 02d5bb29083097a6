//! One box of a shard that is to be made, as structs of numbers, each of which may say anything.

ghost use Rattle.std.specs.Prelude.{◌≡◌, ◌≤◌, false, length, map, slice_set, IfErr, IfOk, IsTrue};
ghost use Rattle.mc_plain.specs.Asked.{is_box, SaysBox};
ghost use Rattle.mc_shard_c.specs.Laying.{owned_by, place_in, slot_in};
ghost use Rattle.mc_shard_c.specs.declared.laying.NotLaid.TheVariants as not_laid;

use crate::laying::NotLaid;
use mc_box::MediaBox;
use mc_plain::asked::{PlainSetup, PlainSlot};
use mc_plain::program::PlainState;
use mc_shard::SlotPlaces;
use std::alloc::{AllocError, Global};

/// A box of a shard that is to be made. It has the first `slot_count` slots and `state_count` states of those that the
/// boxes before it left.
#[repr(C)]
#[derive(Clone, Copy)]
pub struct PlainShardBox {
    pub setup: PlainSetup,
    pub slot_count: u32,
    pub state_count: u32,
}

/// A slot, the channel end at which it is, and its tunnel there.
#[repr(C)]
#[derive(Clone, Copy)]
pub struct PlainShardSlot {
    pub slot: PlainSlot,
    pub end: u32,
    pub tunnel: u8,
}

impl PlainShardBox {
    /// How many slots it has.
    pub fn slot_count(&self) -> usize
        ensures { result ≡ self.now.slot_count }
    {
        self.slot_count as usize
    }

    /// How many states its program has.
    pub fn state_count(&self) -> usize
        ensures { result ≡ self.now.state_count }
    {
        self.state_count as usize
    }
}

// The slots, without their places.
fn slots_of(alloc: Global, slots: &[PlainShardSlot]) -> Result<Vec<PlainSlot>, AllocError>
    ensures { IfOk result (λ made. made.items ≡ map slot_in slots.now) }
{
    slots.iter().map(|slot| slot.slot).collect(alloc)
}

fn place_list(alloc: Global, slots: &[PlainShardSlot]) -> Result<Vec<(u32, u8)>, AllocError>
    ensures { IfOk result (λ made. made.items ≡ map place_in slots.now) }
{
    slots
        .iter()
        .map(|slot| (slot.end, slot.tunnel))
        .collect(alloc)
}

/// The places of the slots of one box.
pub fn places_of(alloc: Global, slots: &[PlainShardSlot]) -> Result<SlotPlaces, AllocError>
    requires { length slots.now ≤ 256 }
    ensures { IfOk result (λ made. made ≡ map place_in slots.now) }
{
    Ok(SlotPlaces::new(place_list(alloc, slots)?))
}

// The box of a setup that says one.
fn box_from(
    alloc: Global,
    plain: &PlainSetup,
    slots: &[PlainSlot],
    states: &[PlainState],
) -> Result<MediaBox, AllocError>
    requires { IsTrue (is_box plain.now slots.now states.now) }
    ensures { IfOk result (SaysBox plain.now slots.now states.now) }
{
    let setup = plain.setup(alloc, slots, states)?;
    let part = MediaBox::new(alloc, setup)?;
    Ok(part)
}

// The same, where they say one.
fn box_if(
    alloc: Global,
    plain: &PlainSetup,
    slots: &[PlainSlot],
    states: &[PlainState],
) -> Result<MediaBox, NotLaid>
    ensures says { IfOk result (SaysBox plain.now slots.now states.now) }
    ensures invalid { IfErr result (λ why. why ≡ not_laid.Invalid → is_box plain.now slots.now states.now ≡ false) }
{
    if !plain.is_box(slots, states) {
        return Err(NotLaid::Invalid);
    }
    match box_from(alloc, plain, slots, states) {
        Ok(made) => Ok(made),
        Err(_) => Err(NotLaid::NoMemory),
    }
}

/// The box that these numbers say.
pub fn box_of(
    alloc: Global,
    plain: &PlainShardBox,
    slots: &[PlainShardSlot],
    states: &[PlainState],
) -> Result<MediaBox, NotLaid>
    ensures says { IfOk result (SaysBox plain.now.setup (map slot_in slots.now) states.now) }
    ensures invalid { IfErr result (λ why. why ≡ not_laid.Invalid
        → is_box plain.now.setup (map slot_in slots.now) states.now ≡ false) }
{
    let Ok(slots) = slots_of(alloc, slots) else {
        return Err(NotLaid::NoMemory);
    };
    box_if(alloc, &plain.setup, &slots, states)
}

// This end is of this box, if it is there.
fn own_end(owners: &mut Vec<u32>, end: u32, who: u32)
    ensures { owners.new.items ≡ slice_set owners.old.items end who }
{
    if (end as usize) < owners.len() {
        owners[end as usize] = who;
    }
}

/// The ends of these slots are of this box.
pub fn own_ends(owners: &mut Vec<u32>, who: u32, slots: &[PlainShardSlot])
    ensures { owners.new.items ≡ owned_by who (map place_in slots.now) owners.old.items }
{
    for slot in slots {
        own_end(owners, slot.end, who);
    }
}
