// The slots of a channel: where they are, which of them is in use, and that they are out from now on. They stand side
// by side, so none of this looks at those of other channels.

ghost use Rattle.std.specs.Prelude.{◌≡◌, ◌↔◌, ◌<◌, ◌≤◌, ◌+◌, ◌^◌, is_some, length, IsTrue};
ghost use Rattle.mc_grow.specs.Asked.{AllMayLeave, MayLeave};
ghost use Rattle.mc_grow.specs.Cuts.{AreSlotsOf, IsFirstFrom};
ghost use Rattle.mc_growth.specs.Joins.{HasRoom};
ghost use Rattle.mc_growth.specs.Outs.{flags_without, is_close, is_closed, is_used, least_used};
ghost use Rattle.mc_model.specs.Worlds.{box_at, place, slot_count};

use mc_box::MediaBox;
use mc_box::limit::SLOT_LIMIT;
use mc_slot::{Goal, SlotGoal, State};
use mc_world::World;

/// Whether a box may get a slot.
pub fn has_room(home: &MediaBox) -> bool
    ensures { IsTrue result ↔ HasRoom home.now }
{
    home.slots().len() < SLOT_LIMIT && !home.has_program()
}

/// Whether there is a channel of this number.
pub fn is_there(world: &World, channel: u32) -> bool
    ensures { IsTrue result ↔ (channel < length world.now.channels) }
{
    world.keeps();
    first_from(world, channel) < world.slot_count()
}

/// Whether no slot of a channel is out, and none of their boxes has a program.
pub fn may_leave(world: &World, out: &Vec<bool>, channel: u32) -> bool
    requires there { channel < length world.now.channels }
    requires flags { length out.now.items ≡ slot_count world.now }
    ensures { IsTrue result ↔ AllMayLeave world.now out.now.items channel }
{
    world.keeps();
    let (first, end) = slots_of(world, channel);
    for slot in first..end {
        if out[slot] || has_program(world, slot as u32) {
            return false;
        }
    }
    true
}

// Whether the box of a slot has a program.
fn has_program(world: &World, slot: u32) -> bool
    requires { slot < slot_count world.now }
    ensures { result ≡ is_some (box_at world.now (place world.now slot).0).program }
{
    world.keeps();
    let (who, _) = world.place(slot);
    world.boxes()[who as usize].has_program()
}

/// The least slot of a channel that is in use.
pub fn least_used(world: &World, channel: u32) -> Option<u32>
    requires { channel < length world.now.channels }
    ensures { result ≡ least_used world.now channel }
{
    world.keeps();
    let (first, end) = slots_of(world, channel);
    for slot in first..end {
        if is_used(world, slot as u32) {
            return Some(slot as u32);
        }
    }
    None
}

/// All slots of a channel are out from now on.
pub fn take_out(world: &World, out: &mut Vec<bool>, channel: u32)
    requires there { channel < length world.now.channels }
    requires flags { length out.old.items ≡ slot_count world.now }
    ensures { out.new.items ≡ flags_without world.now out.old.items channel }
{
    let (first, end) = slots_of(world, channel);
    for slot in first..end {
        out[slot] = true;
    }
}

// The slots of a channel: the first of them, and the first that comes after them.
fn slots_of(world: &World, channel: u32) -> (usize, usize)
    requires { channel < length world.now.channels }
    ensures { AreSlotsOf world.now channel result.0 result.1 }
{
    world.keeps();
    let end = first_from(world, channel + 1);
    (first_from(world, channel), end)
}

// The first slot whose channel isn't below this one, or the count of slots where there is none.
fn first_from(world: &World, channel: u32) -> usize
    ensures { IsFirstFrom world.now channel result }
{
    world.keeps();
    let mut low = 0;
    let mut high = world.slot_count();
    while low < high {
        let middle = low + (high - low) / 2;
        if world.channel(middle as u32).0 < channel {
            low = middle + 1;
        } else {
            high = middle;
        }
    }
    low
}

// Whether a slot isn't closed, or has another goal than close.
fn is_used(world: &World, slot: u32) -> bool
    requires { slot < slot_count world.now }
    ensures { result ≡ is_used world.now slot }
{
    !(is_closed(world.slot(slot).state) && is_close(world.goal(slot)))
}

fn is_closed(state: State) -> bool
    ensures { result ≡ is_closed state }
{
    matches!(state, State::Closed)
}

fn is_close(goal: SlotGoal) -> bool
    ensures { result ≡ is_close goal }
{
    matches!(goal, SlotGoal::End(Goal::Close))
}
