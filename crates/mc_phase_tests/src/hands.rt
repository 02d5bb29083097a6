// Hands that operators may ask for.

ghost use Rattle.std.specs.Prelude.{◌≡◌, IsTrue};
ghost use Rattle.mc_phase.specs.Asked.{AreHandsFor, hand_lists};

use mc_box::Turn;
use mc_desk::limit::REQUEST_LIMIT;
use mc_seq::fits;
use mc_world::World;

/// Whether operators may ask for these hands.
pub fn may_ask(world: &World, hands: &[Vec<Turn>]) -> bool
    ensures { IsTrue result → AreHandsFor world.now (hand_lists hands.now) }
{
    for hand in hands {
        if !fits(world, hand) || hand.len() >= REQUEST_LIMIT as usize {
            return false;
        }
    }
    true
}
