// What boxes would do of themselves: retries that they owe, and steps of their programs.

ghost use Rattle.std.specs.Prelude.{◌≡◌, ◌++◌, ◌<◌, ◌^◌, length, IfOk, OnOk};
ghost use Rattle.mc_shard.specs.Owing.{owed_if, owed_in, owed_slots, shifting_boxes, shifting_if};

use mc_box::{Event, MediaBox};
use std::alloc::{AllocError, Global};

/// A slot of a box, by the box's number in its shard and its own.
#[derive(Clone, Copy, PartialEq, Eq, Debug)]
pub struct BoxSlot {
    pub who: u32,
    pub slot: u8,
}

// Adds a slot, where it owes a retry.
fn add_if_owed(
    owed: &mut Vec<BoxSlot>,
    who: u32,
    one: &MediaBox,
    slot: u8,
) -> Result<(), AllocError>
    ensures { OnOk result (owed.new.items ≡ owed.old.items ++ owed_if who one.now slot) }
{
    if one.enabled(&Event::Retry(slot)) {
        owed.push(BoxSlot { who, slot })?;
    }
    Ok(())
}

// Adds the slots of a box that owe a retry.
fn add_owed(owed: &mut Vec<BoxSlot>, who: u32, one: &MediaBox) -> Result<(), AllocError>
    ensures { OnOk result (owed.new.items ≡ owed.old.items ++ owed_in who one.now) }
{
    for slot in 0..one.slots().len() {
        add_if_owed(owed, who, one, slot as u8)?;
    }
    Ok(())
}

/// The slots that owe a retry, box by box: an end that was refused, or closed by the far end, and is to be open. When
/// each is asked for again is the caller's, as some seconds later; `Event::Retry` asks. It fails only for want of
/// memory.
pub fn owed_slots(alloc: Global, boxes: &[MediaBox]) -> Result<Vec<BoxSlot>, AllocError>
    requires { length boxes.now < 2 ^ 32 }
    ensures { IfOk result (λ owed. owed.items ≡ owed_slots boxes.now) }
{
    let mut owed = Vec::new(alloc);
    for who in 0..boxes.len() {
        add_owed(&mut owed, who as u32, &boxes[who])?;
    }
    Ok(owed)
}

// Adds a box, where its program can go on.
fn add_if_shifting(shifting: &mut Vec<u32>, who: u32, one: &MediaBox) -> Result<(), AllocError>
    ensures { OnOk result (shifting.new.items ≡ shifting.old.items ++ shifting_if who one.now) }
{
    if one.enabled(&Event::Shift) {
        shifting.push(who)?;
    }
    Ok(())
}

/// The boxes whose programs can go on, by their numbers: `Event::Shift` makes such a step. It fails only for want of
/// memory.
pub fn shifting_boxes(alloc: Global, boxes: &[MediaBox]) -> Result<Vec<u32>, AllocError>
    requires { length boxes.now < 2 ^ 32 }
    ensures { IfOk result (λ shifting. shifting.items ≡ shifting_boxes boxes.now) }
{
    let mut shifting = Vec::new(alloc);
    for who in 0..boxes.len() {
        add_if_shifting(&mut shifting, who as u32, &boxes[who])?;
    }
    Ok(shifting)
}
