// Which boxes take part in what stands in a journal.

ghost use Rattle.std.specs.Prelude.{◌≡◌, ◌==◌, ◌<◌, ◌++◌, [], ◌∷◌, IfOk, IfSome, OnOk};
ghost use Rattle.mc_ladder_choice.specs.Boxes.{boxes_from, is_among, path_boxes, sender_at, sender_of, tunnel_boxes, turn_boxes, with_all_new, with_new};
ghost use Rattle.mc_model.specs.Worlds.{place, slot_count};

use mc_box::{Event, Turn};
use mc_world::World;
use std::alloc::{AllocError, Global};

// ---- lists of boxes

/// Whether a box is in a list.
pub fn is_among(boxes: &[u32], who: u32) -> bool
    ensures { result ≡ is_among boxes.now who }
{
    boxes.iter().any(|other| *other == who)
}

/// Appends a box that isn't in the list yet.
pub fn add_new(who: u32, boxes: &mut Vec<u32>) -> Result<(), AllocError>
    ensures { OnOk result (boxes.new.items ≡ with_new boxes.old.items who) }
{
    if is_among(boxes, who) {
        return Ok(());
    }
    boxes.push(who)?;
    Ok(())
}

// The same for each of these boxes.
pub fn add_all_new(others: &[u32], boxes: &mut Vec<u32>) -> Result<(), AllocError>
    ensures { OnOk result (boxes.new.items ≡ with_all_new boxes.old.items others.now) }
{
    for who in others {
        add_new(*who, boxes)?;
    }
    Ok(())
}

// ---- a turn

// The box of a slot.
fn box_of(world: &World, slot: u32) -> u32
    ensures { result ≡ (place world.now slot).0 }
{
    if (slot as usize) < world.slot_count() {
        world.place(slot).0
    } else {
        0
    }
}

// Appends the box of the far slot, by the slot that takes.
fn add_sender_at(world: &World, taker: Option<u32>, boxes: &mut Vec<u32>) -> Result<(), AllocError>
    requires { IfSome taker (λ slot. slot < slot_count world.now) }
    ensures { OnOk result (boxes.new.items ≡ boxes.old.items ++ sender_at world.now taker) }
{
    if let Some(slot) = taker {
        boxes.push(box_of(world, world.far(slot)))?;
    }
    Ok(())
}

// Appends the box from which a signal comes, where an event takes one.
fn add_sender(world: &World, who: u32, event: Event, boxes: &mut Vec<u32>) -> Result<(), AllocError>
    ensures { OnOk result (boxes.new.items ≡ boxes.old.items ++ sender_of world.now who event) }
{
    match event {
        Event::Take(local) => add_sender_at(world, world.number(who, local), boxes),
        _ => Ok(()),
    }
}

/// The box of a turn, and the one from which its signal comes, where it takes one.
pub fn turn_boxes(alloc: Global, world: &World, turn: Turn) -> Result<Vec<u32>, AllocError>
    ensures { IfOk result (λ boxes. boxes.items ≡ turn_boxes world.now turn) }
{
    let mut boxes = Vec::new(alloc);
    boxes.push(turn.who)?;
    add_sender(world, turn.who, turn.event, &mut boxes)?;
    Ok(boxes)
}

// ---- a path

// Appends the boxes of both slots of a tunnel.
fn add_tunnel_boxes(world: &World, slot: u32, boxes: &mut Vec<u32>) -> Result<(), AllocError>
    requires { slot < slot_count world.now }
    ensures { OnOk result (boxes.new.items ≡ boxes.old.items ++ tunnel_boxes world.now slot) }
{
    boxes.push(box_of(world, slot))?;
    boxes.push(box_of(world, world.far(slot)))?;
    Ok(())
}

// The boxes of the slots on the walk from a slot.
fn boxes_from(alloc: Global, world: &World, low: u32) -> Result<Vec<u32>, AllocError>
    requires { low < slot_count world.now }
    ensures { IfOk result (λ boxes. boxes.items ≡ boxes_from world.now low) }
{
    world.keeps();
    let mut boxes = Vec::new(alloc);
    let mut at = low;
    for _done in 0..world.slot_count() / 2 {
        add_tunnel_boxes(world, at, &mut boxes)?;
        match world.partner(world.far(at)) {
            Some(next) => at = next,
            None => return Ok(boxes),
        }
    }
    Ok(boxes)
}

/// The boxes of all slots on a path, by its lower end: of both slots of each tunnel.
pub fn path_boxes(alloc: Global, world: &World, low: u32) -> Result<Vec<u32>, AllocError>
    ensures { IfOk result (λ boxes. boxes.items ≡ path_boxes world.now low) }
{
    if (low as usize) < world.slot_count() {
        boxes_from(alloc, world, low)
    } else {
        Ok(Vec::new(alloc))
    }
}
