// What a draw comes to, and where a settle by draws stops.

ghost use Rattle.std.specs.Prelude.{◌≡◌, ◌<◌, Some, IsTrue, position};
ghost use Rattle.mc_box.specs.BoxEvents.{is_enabled};
ghost use Rattle.mc_model.specs.Steps.{ends_version, heard_local, heard_slot};
ghost use Rattle.mc_model.specs.Worlds.{place, slot_count};
ghost use Rattle.mc_seq.specs.Places.{Answered, IsInside};
ghost use Rattle.mc_seq.specs.Restless.{IsFirstShifterOr};

use crate::fault::{SettleFault, Stopped, StoppedBox};
use mc_box::{Event, MediaBox, MediaChange, Turn};
use mc_world::{Settled, World};

// What a draw comes to.
#[derive(Clone, Copy)]
pub enum DrawOutcome {
    // A turn was drawn, and made; it was no Shift.
    Drawn,
    // A Shift was drawn, and made.
    Shifted,
    // Nothing is listed, so nothing was drawn.
    Nothing,
    // The Hear of this slot was drawn, which has the last version.
    VersionEnd(u32),
}

/// Why a settle stopped before its end.
#[derive(Clone, Copy, Debug, PartialEq, Eq)]
pub enum SettleStop {
    /// The next command of a box was a Hear of this slot, by its number, whose descriptor has the last version.
    VersionEnd(u32),
    /// A batch, or Shifts after it, left a ring of links; of the slots on one this is the least, by its number.
    Ring(u32),
    /// The program of this box, by its number, doesn't come to rest in a settle: nothing is under way, and the box has
    /// made all the Shifts that it may make in a settle and has one more enabled. It is the least box that has.
    Restless(u32),
}

/// What a settle answers at its end: the world with its turns, or why it stopped, with the turns until then.
#[inline]
pub fn answer(settled: Settled, ending: Option<SettleStop>) -> Result<Settled, SettleFault>
    requires { IsInside settled.world ending }
    ensures { Answered settled ending result }
{
    match ending {
        None => Ok(settled),
        Some(SettleStop::Ring(at)) => Err(SettleFault::Ring(stop_at(settled, at))),
        Some(SettleStop::Restless(at)) => Err(SettleFault::Restless(stop_at_box(settled, at))),
        Some(SettleStop::VersionEnd(at)) => Err(SettleFault::VersionEnd(stop_at(settled, at))),
    }
}

// The turns of a settle that stops at a box.
fn stop_at_box(settled: Settled, at: u32) -> StoppedBox
    ensures at { result.at ≡ at }
    ensures turns { result.turns.items ≡ settled.turns.items }
{
    let Settled { world: _, turns } = settled;
    StoppedBox { at, turns }
}

// The first box whose program has an enabled transition.
pub fn first_shifter(world: &World) -> Option<u32>
    ensures { IsFirstShifterOr world.now result }
{
    world.keeps();
    let place = shifter_among(world.boxes())?;
    Some(place as u32)
}

// The same among boxes.
fn shifter_among(boxes: &[MediaBox]) -> Option<usize>
    ensures { result ≡ position (λ one. is_enabled one Event.Shift) boxes.now }
{
    boxes.iter().position(|one| one.enabled(&Event::Shift))
}

// The turns of a settle that stops at a slot.
fn stop_at(settled: Settled, at: u32) -> Stopped
    requires { at < slot_count settled.world }
    ensures at { result.at ≡ at }
    ensures place { result.place ≡ place settled.world at }
    ensures turns { result.turns.items ≡ settled.turns.items }
{
    let Settled { world, turns } = settled;
    let place = world.place(at);
    Stopped { at, place, turns }
}

/// The slot of a Hear that ends its version.
pub fn heard_slot(world: &World, turn: Turn) -> u32
    requires { IsTrue (ends_version world.now turn) }
    ensures { heard_slot world.now turn ≡ Some result }
{
    world.keeps();
    let Some(local) = heard_local(turn.event) else {
        unreachable!()
    };
    let Some(slot) = world.number(turn.who, local) else {
        unreachable!()
    };
    slot
}

// The local slot of a Hear.
fn heard_local(event: Event) -> Option<u8>
    ensures { result ≡ heard_local event }
{
    match event {
        Event::Media(MediaChange::Hear(local, _)) => Some(local),
        _ => None,
    }
}
