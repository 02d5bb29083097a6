// Which channel end and which tunnel each slot of a box has.

ghost use Rattle.std.specs.Prelude.{◌≡◌, ◌≢◌, ◌≤◌, ℕ, IfSome, IfNone, MatchBool, Some, length, slice_get};
ghost use Rattle.mc_shard.specs.Shards.{AtOwnEnds, IsOwn};

use std::marker::Model;

/// The channel end, by its number in the shard, and the tunnel of each slot of a box.
#[derive(Debug, Drop)]
pub struct SlotPlaces {
    list: Vec<(u32, u8)>,
}

impl Model for SlotPlaces {
    ghost use Rattle.std.specs.Prelude.{List, ℕ, ◌≤◌, length};

    ghost Value = { List (ℕ × ℕ) };

    ghost view = { λ places. places.list.items };

    ghost invariant = { λ places. length places.list.items ≤ 256 };
}

impl SlotPlaces {
    /// The places of a box of no more slots than there are numbers of slots.
    pub fn new(list: Vec<(u32, u8)>) -> SlotPlaces
        requires { length list.items ≤ 256 }
        ensures { result ≡ list.items }
    {
        SlotPlaces { list }
    }

    /// All places, by the slots' numbers.
    pub fn list(&self) -> &[(u32, u8)]
        ensures list { result.now ≡ self.now }
        ensures few { length result.now ≤ 256 }
    {
        &self.list
    }

    /// The place of a slot.
    pub fn get(&self, slot: u8) -> Option<(u32, u8)>
        ensures { result ≡ slice_get self.now slot }
    {
        place_in(&self.list, slot)
    }

    /// The slot that has this place.
    pub fn slot(&self, end: u32, tunnel: u8) -> Option<u8>
        ensures some { IfSome result (λ slot. slice_get self.now slot ≡ Some (end, tunnel)) }
        ensures none { IfNone result ((slot : ℕ) → slice_get self.now slot ≢ Some (end, tunnel)) }
    {
        find(&self.list, end, tunnel)
    }

    /// Whether each slot of the box of this number is at an end that is the box's.
    pub(crate) fn are_own(&self, who: usize, owners: &[u32]) -> bool
        ensures { MatchBool result (AtOwnEnds owners.now who self.now) (AtOwnEnds owners.now who self.now → ⊥) }
    {
        all_own(&self.list, who, owners)
    }
}

// Whether it is an end of the box.
fn is_own(end: u32, who: usize, owners: &[u32]) -> bool
    ensures { MatchBool result (IsOwn owners.now who end) (IsOwn owners.now who end → ⊥) }
{
    if end as usize >= owners.len() {
        return false;
    }
    owners[end as usize] as usize == who
}

fn all_own(list: &Vec<(u32, u8)>, who: usize, owners: &[u32]) -> bool
    ensures { MatchBool result (AtOwnEnds owners.now who list.now.items)
        (AtOwnEnds owners.now who list.now.items → ⊥) }
{
    for slot in 0..list.len() {
        if !is_own(list[slot].0, who, owners) {
            return false;
        }
    }
    true
}

fn place_in(list: &Vec<(u32, u8)>, slot: u8) -> Option<(u32, u8)>
    ensures { result ≡ slice_get list.now.items slot }
{
    list.get(slot as usize).copied()
}

fn find(list: &Vec<(u32, u8)>, end: u32, tunnel: u8) -> Option<u8>
    requires { length list.now.items ≤ 256 }
    ensures some { IfSome result (λ slot. slice_get list.now.items slot ≡ Some (end, tunnel)) }
    ensures none { IfNone result ((slot : ℕ) → slice_get list.now.items slot ≢ Some (end, tunnel)) }
{
    for slot in 0..list.len() {
        let place = list[slot];
        if place.0 == end && place.1 == tunnel {
            return Some(slot as u8);
        }
    }
    None
}
