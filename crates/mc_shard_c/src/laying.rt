//! A shard that is to be made, as lists of structs of numbers.

ghost use Rattle.std.specs.Prelude.{◌≡◌, ◌<◌, ◌^◌, ◌++◌, ◌∷◌, [], false, length, map, IfErr, IfOk, OnOk};
ghost use Rattle.mc_plain.specs.Asked.{is_box};
ghost use Rattle.mc_shard_c.specs.Laying.{AreBoxes, CannotBe, HasAdded, SaysNoShard, SaysShard, code_of_not_laid, owned_by, owners_in, place_in, places_in, slot_in};
ghost use Rattle.mc_shard_c.specs.declared.laying.NotLaid.TheVariants as not_laid;

use crate::answer;
use crate::boxes::{PlainShardBox, PlainShardSlot, box_of, own_ends, places_of};
use mc_box::MediaBox;
use mc_plain::program::PlainState;
use mc_shard::{Shard, SlotPlaces, are_laid};
use std::alloc::{AllocError, AllocFailed, Global};

/// Why no shard is made.
#[derive(Clone, Copy, Debug)]
pub enum NotLaid {
    /// The numbers say none.
    Invalid,
    /// Memory ran out.
    NoMemory,
}

impl NotLaid {
    /// The code of it.
    pub fn code(self) -> u32
        ensures { result ≡ code_of_not_laid self }
    {
        match self {
            NotLaid::Invalid => answer::INVALID,
            NotLaid::NoMemory => answer::MEMORY,
        }
    }
}

impl From<AllocError> for NotLaid {
    ghost from_gives = { λ e why. why ≡ not_laid.NoMemory };

    fn from(_e: AllocError) -> Self {
        NotLaid::NoMemory
    }
}

impl<T: Drop> From<AllocFailed<T>> for NotLaid {
    ghost from_gives = { λ e why. why ≡ not_laid.NoMemory };

    fn from(_e: AllocFailed<T>) -> Self {
        NotLaid::NoMemory
    }
}

/// Boxes, the places of their slots, and the boxes of channel ends.
#[derive(Drop)]
pub struct Laying {
    pub boxes: Vec<MediaBox>,
    pub places: Vec<SlotPlaces>,
    pub owners: Vec<u32>,
}

impl Laying {
    // One more box, of these slots and states.
    fn add(
        &mut self,
        alloc: Global,
        who: u32,
        plain: &PlainShardBox,
        slots: &[PlainShardSlot],
        states: &[PlainState],
    ) -> Result<(), NotLaid>
        ensures boxes { OnOk result
            (HasAdded self.old.boxes.items self.new.boxes.items plain.now slots.now states.now) }
        ensures places { OnOk result (self.new.places.items ≡ self.old.places.items ++ map place_in slots.now ∷ []) }
        ensures owners { OnOk result (self.new.owners.items
            ≡ owned_by who (map place_in slots.now) self.old.owners.items) }
        ensures invalid { IfErr result (λ why. why ≡ not_laid.Invalid
            → is_box plain.now.setup (map slot_in slots.now) states.now ≡ false) }
    {
        let part = box_of(alloc, plain, slots, states)?;
        self.boxes.push(part)?;
        self.places.push(places_of(alloc, slots)?)?;
        own_ends(&mut self.owners, who, slots);
        Ok(())
    }
}

// The boxes that these numbers say, of which all slots and states are used.
fn laid_out(
    alloc: Global,
    plains: &[PlainShardBox],
    all_slots: &[PlainShardSlot],
    all_states: &[PlainState],
    end_count: u32,
) -> Result<Laying, NotLaid>
    requires { length plains.now < 2 ^ 32 }
    ensures boxes { IfOk result (λ made. AreBoxes plains.now all_slots.now all_states.now made.boxes.items) }
    ensures places { IfOk result (λ made. made.places.items ≡ places_in plains.now all_slots.now) }
    ensures owners { IfOk result (λ made. made.owners.items ≡ owners_in plains.now all_slots.now end_count) }
    ensures invalid { IfErr result (λ why. why ≡ not_laid.Invalid
        → CannotBe plains.now all_slots.now all_states.now) }
{
    let mut laying = Laying {
        boxes: Vec::new(alloc),
        places: Vec::new(alloc),
        owners: vec![in alloc; 0; end_count as usize]?,
    };
    let mut slots = all_slots;
    let mut states = all_states;
    for who in 0..plains.len() {
        let plain = plains[who];
        let (slot_count, state_count) = (plain.slot_count(), plain.state_count());
        if slots.len() < slot_count {
            return Err(NotLaid::Invalid);
        }
        if states.len() < state_count {
            return Err(NotLaid::Invalid);
        }
        let (own_slots, other_slots) = slots.split_at(slot_count);
        let (own_states, other_states) = states.split_at(state_count);
        match laying.add(alloc, who as u32, &plain, own_slots, own_states) {
            Ok(()) => {}
            Err(why) => return Err(why),
        }
        slots = other_slots;
        states = other_states;
    }
    if !slots.is_empty() {
        return Err(NotLaid::Invalid);
    }
    if !states.is_empty() {
        return Err(NotLaid::Invalid);
    }
    Ok(laying)
}

/// The shard that these numbers say, which made no turn yet.
pub fn shard_of(
    alloc: Global,
    plains: &[PlainShardBox],
    slots: &[PlainShardSlot],
    states: &[PlainState],
    end_count: u32,
    askers: u32,
) -> Result<Shard, NotLaid>
    ensures says { IfOk result (SaysShard plains.now slots.now states.now end_count askers) }
    ensures invalid { IfErr result (λ why. why ≡ not_laid.Invalid
        → SaysNoShard plains.now slots.now states.now end_count askers) }
{
    if plains.len() > u32::MAX as usize {
        return Err(NotLaid::Invalid);
    }
    let Laying {
        boxes,
        places,
        owners,
    } = laid_out(alloc, plains, slots, states, end_count)?;
    if !are_laid(&boxes, &places, &owners) {
        return Err(NotLaid::Invalid);
    }
    let shard = Shard::new(alloc, boxes, places, owners, askers)?;
    Ok(shard)
}
