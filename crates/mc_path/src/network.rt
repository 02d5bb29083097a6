//! What is asked of a network to find its paths.

ghost use Rattle.std.specs.Prelude.{◌≡◌, ◌<◌, ◌≤◌, ◌^◌, length};
ghost use Rattle.mc_model.specs.Sound.{IsSound};
ghost use Rattle.mc_model.specs.Worlds.{WorldState, box_at, far, goal_of, number, place, slot_count, slot_of};

use mc_box::MediaBox;
use mc_slot::{Slot, SlotGoal};
use mc_world::World;

/// A network whose boxes and slots can be looked at by their numbers, wherever it keeps them.
pub trait Network {
    /// The world that it stands for.
    ghost world: { Self → WorldState };

    /// That world is sound, and few slots have numbers.
    fn keeps(&self)
        ensures sound { IsSound (world self.now) }
        ensures few { slot_count (world self.now) ≤ 2 ^ 32 };

    /// The number of the slots of all boxes.
    fn slot_count(&self) -> usize
        ensures { result ≡ slot_count (world self.now) };

    /// The box of a slot, and the slot's local number there.
    fn place(&self, slot: u32) -> (u32, u8)
        requires { slot < slot_count (world self.now) }
        ensures { result ≡ place (world self.now) slot };

    /// The number of a box's slot.
    fn number(&self, who: u32, local: u8) -> Option<u32>
        ensures { result ≡ number (world self.now) who local };

    /// A box, by its number.
    fn home(&self, who: u32) -> &MediaBox
        requires { who < length (world self.now).boxes }
        ensures { result.now ≡ box_at (world self.now) who };
}

impl Network for World {
    ghost world = { λ world. world };

    fn keeps(&self) {
        World::keeps(self);
    }

    fn slot_count(&self) -> usize {
        World::slot_count(self)
    }

    fn place(&self, slot: u32) -> (u32, u8) {
        World::place(self, slot)
    }

    fn number(&self, who: u32, local: u8) -> Option<u32> {
        World::number(self, who, local)
    }

    fn home(&self, who: u32) -> &MediaBox {
        &self.boxes()[who as usize]
    }
}

/// A slot, by its number.
pub(crate) fn slot_in<N: Network>(network: &N, slot: u32) -> Slot
    requires { slot < slot_count (N.world network.now) }
    ensures { result ≡ slot_of (N.world network.now) slot }
{
    network.keeps();
    let (who, local) = network.place(slot);
    network.home(who).slots()[local as usize]
}

/// The goal of a slot, by its number.
pub(crate) fn goal_in<N: Network>(network: &N, slot: u32) -> SlotGoal
    requires { slot < slot_count (N.world network.now) }
    ensures { result ≡ goal_of (N.world network.now) slot }
{
    network.keeps();
    let (who, local) = network.place(slot);
    network.home(who).goal(local)
}

/// The slot at the other end of a slot's tunnel.
pub(crate) fn far(slot: u32) -> u32
    ensures { result ≡ far slot }
{
    if slot.is_multiple_of(2) {
        slot + 1
    } else {
        slot - 1
    }
}
