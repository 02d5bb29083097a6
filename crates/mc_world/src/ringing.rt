// Rings by a table of partners, without a world.

ghost use Rattle.std.specs.Prelude.{◌≡◌, ◌↔◌, ◌<◌, None, IsTrue, slice_index_or};
ghost use Rattle.std.specs.Option.{is_some, option_map};
ghost use Rattle.mc_model.specs.Paths.{has_ring, partner_of};
ghost use Rattle.mc_model.specs.Rings.{IsLeastOnRing, IsOnRing, NoneBefore};
ghost use Rattle.mc_model.specs.Sound.{IsSound};
ghost use Rattle.mc_model.specs.Worlds.{WorldState, slot_count};
ghost use Rattle.mc_world.specs.Rings.{ArePartners};

use crate::topology::far;

/// The least slot on a ring, by a table of the slots' partners; none where there is no ring. It takes no memory.
pub fn least_on_ring(partners: &[Option<u32>]) -> Option<u32>
    ensures least { (world : WorldState) → IsSound world → ArePartners world partners.now → IsLeastOnRing world result }
    ensures has { (world : WorldState) → IsSound world → ArePartners world partners.now
        → has_ring world ≡ is_some result }
{
    for place in 0..partners.len() {
        if let Some(slot) = linked(partners, place) {
            if is_on_ring(partners, slot) {
                return Some(slot);
            }
        }
    }
    None
}

// The slot at a place of the table; none where it has no partner. It is read off the entry of its partner, since the
// place itself may be too great for a slot.
fn linked(partners: &[Option<u32>], place: usize) -> Option<u32>
    ensures { (world : WorldState) → IsSound world → ArePartners world partners.now
        → place < slot_count world → result ≡ option_map (λ _. place) (partner_of world place) }
{
    let other = partner(partners, place)?;
    partner(partners, other as usize)
}

// Whether a slot stands on a ring, where none before it does. The two walks are those of a world's rings.
fn is_on_ring(partners: &[Option<u32>], slot: u32) -> bool
    ensures { (world : WorldState) → IsSound world → ArePartners world partners.now
        → slot < slot_count world → NoneBefore world slot → IsTrue result ↔ IsOnRing world slot }
{
    let mut ahead = slot;
    let mut behind = slot;
    for _done in 0..partners.len() / 2 {
        let Some(next) = partner(partners, far(ahead) as usize) else {
            return false;
        };
        let Some(last) = partner(partners, behind as usize) else {
            return false;
        };
        ahead = next;
        behind = far(last);
        if ahead == slot {
            return true;
        }
        if ahead.min(behind) < slot {
            return false;
        }
    }
    true
}

// The partner of the slot at a place of the table.
fn partner(partners: &[Option<u32>], place: usize) -> Option<u32>
    ensures { result ≡ slice_index_or partners.now place None }
{
    match partners.get(place) {
        Some(partner) => *partner,
        None => None,
    }
}
