// What a Take takes: the signal, and the slot that sent it.

ghost use Rattle.std.specs.Prelude.{◌≡◌, ◌<◌};
ghost use Rattle.mc_ladder.specs.Takings.{drops, taking_at, taking_of};
ghost use Rattle.mc_model.specs.Worlds.{slot_count};

use mc_signal::Signal;
use mc_slot::{Slot, State};
use mc_world::World;

/// A signal that a slot takes: the slot, the far slot of its tunnel, which sent the signal, and whether it is dropped.
#[derive(Clone, Copy)]
pub struct Taking {
    pub slot: u32,
    pub from: u32,
    pub signal: Signal,
    pub dropped: bool,
}

/// Whether a slot drops a signal that it takes: its call has ended, or it is the initiator's where two opens cross.
pub fn drops(slot: &Slot, signal: &Signal) -> bool
    ensures { result ≡ drops slot.now signal.now }
{
    match (slot.state, signal) {
        (State::Opening, Signal::Open(_, _)) => slot.initiator,
        (State::Closing, Signal::Close | Signal::Closeack) => false,
        (State::Closing, _) => true,
        _ => false,
    }
}

// What a slot takes now, by its number.
fn taking_at(world: &World, slot: u32) -> Option<Taking>
    requires { slot < slot_count world.now }
    ensures { result ≡ taking_at world.now slot }
{
    let signal = world.front(slot)?;
    Some(Taking {
        slot,
        from: world.far(slot),
        signal,
        dropped: drops(&world.slot(slot), &signal),
    })
}

/// What a box's slot takes now; none where no signal waits for it.
pub fn taking_of(world: &World, who: u32, local: u8) -> Option<Taking>
    ensures { result ≡ taking_of world.now who local }
{
    let slot = world.number(who, local)?;
    taking_at(world, slot)
}
