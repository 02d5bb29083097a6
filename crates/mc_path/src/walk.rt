// The walk from a slot, over its tunnel and then from link to link.

ghost use Rattle.std.specs.Prelude.{◌≡◌, ◌<◌, IfSome};
ghost use Rattle.mc_path.specs.Walks.{walk_from};
ghost use Rattle.mc_model.specs.Worlds.{slot_count};

use crate::network::{Network, far, goal_in};
use mc_slot::SlotGoal;

// The end slot that a walk comes to, and how many tunnels it goes over.
#[derive(Clone, Copy)]
pub struct Walked {
    pub end: u32,
    pub tunnels: u32,
}

// The walk from a slot: it goes to the far side of the slot's tunnel, ends there at an end, and goes on from the
// partner of a linked slot. It comes to no end on a ring, which it leaves after as many tunnels as there are.
pub fn walk_from<N: Network>(network: &N, from: u32) -> Option<Walked>
    requires { from < slot_count (N.world network.now) }
    ensures walk { result ≡ walk_from (N.world network.now) from }
    ensures inside { IfSome result (λ walk. walk.end < slot_count (N.world network.now)) }
{
    network.keeps();
    let mut at = from;
    for done in 0..(network.slot_count() / 2) as u32 {
        let over = far(at);
        match goal_in(network, over) {
            SlotGoal::End(_) => {
                return Some(Walked {
                    end: over,
                    tunnels: done + 1,
                });
            }
            SlotGoal::Link(partner) => {
                let (who, _) = network.place(over);
                at = network.number(who, partner)?;
            }
        }
    }
    None
}
