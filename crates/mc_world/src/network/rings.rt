// Rings of a world.

ghost use Rattle.std.specs.Prelude.{◌≡◌, ◌↔◌, ◌<◌, IfSome, IsTrue};
ghost use Rattle.std.specs.Option.{is_some};
ghost use Rattle.mc_model.specs.Paths.{has_ring, partner_of};
ghost use Rattle.mc_model.specs.Rings.{IsOnRing, IsLeastOnRing, NoneBefore};
ghost use Rattle.mc_model.specs.Sound.{IsSound};
ghost use Rattle.mc_model.specs.Worlds.{slot_count};

use super::World;

impl World {
    /// The slot that a slot is linked with; none where its goal is an end's.
    pub fn partner(&self, slot: u32) -> Option<u32>
        requires { slot < slot_count self.now }
        ensures partner { result ≡ partner_of self.now slot }
        ensures inside { IfSome result (λ partner. partner < slot_count self.now) }
    {
        self.keeps();
        let (who, local) = self.place(slot);
        self.partner_at(who, local)
    }

    /// The least slot that stands on a ring, a closed chain of tunnels and links; none where there is no ring.
    pub fn ring(&self) -> Option<u32>
        ensures least { IsLeastOnRing self.now result }
        ensures has { has_ring self.now ≡ is_some result }
    {
        self.keeps();
        if self.ringless {
            return None;
        }
        for slot in 0..self.slot_count() {
            if self.is_on_ring(slot as u32) {
                return Some(slot as u32);
            }
        }
        None
    }

    /// The same as `ring`. Where there is none the world remembers it, until a link is set.
    pub fn find_ring(&mut self) -> Option<u32>
        ensures least { IsLeastOnRing self.new result }
        ensures has { has_ring self.new ≡ is_some result }
        ensures same { self.new ≡ self.old }
    {
        let found = self.ring();
        self.ringless = found.is_none();
        found
    }

    // Whether a slot stands on a ring, where none before it does. Two walks go from it, one each way, until one meets
    // an end or a slot before this one, or the first comes back. So they are about as long as the shorter of the two
    // ways to such a slot, and the walks from all `n` slots together go over about `n log n` tunnels.
    fn is_on_ring(&self, slot: u32) -> bool
        requires sound { IsSound self.now }
        requires inside { slot < slot_count self.now }
        requires before { NoneBefore self.now slot }
        ensures { IsTrue result ↔ IsOnRing self.now slot }
    {
        let mut ahead = slot;
        let mut behind = slot;
        for _done in 0..self.slot_count() / 2 {
            let Some(next) = self.partner(self.far(ahead)) else {
                return false;
            };
            let Some(last) = self.partner(behind) else {
                return false;
            };
            ahead = next;
            behind = self.far(last);
            if ahead == slot {
                return true;
            }
            if ahead.min(behind) < slot {
                return false;
            }
        }
        true
    }
}
