// Which channel end and which tunnel each slot has, and which slot they have.

ghost use Rattle.std.specs.Prelude.{◌≡◌, ◌≢◌, ℕ, IfSome, IfNone, MatchBool, Some, slice_get};
ghost use Rattle.mc_worker.specs.Places.{ArePlaces, IsTable};

use crate::limit::{END_LIMIT, TABLE_LEN};
use mc_model::TUNNEL_LIMIT;
use std::marker::Model;

/// The channel end and the tunnel of each slot of a box, all different, and a table by which the slot is found again.
#[derive(Debug, Drop)]
pub struct Places {
    list: Vec<(u8, u8)>,
    // the slot of each tunnel of each end, where one has them
    table: [u8; TABLE_LEN],
}

impl Model for Places {
    ghost use Rattle.std.specs.Prelude.{List, ℕ};
    ghost use Rattle.mc_worker.specs.Places.{ArePlaces, IsTable};

    ghost Value = { List (ℕ × ℕ) };

    ghost view = { λ places. places.list.items };

    ghost invariant = { λ places. ArePlaces places.list.items × IsTable places.list.items places.table };
}

impl Places {
    /// The places of these ends and tunnels, slot by slot. It takes no memory.
    pub fn new(list: Vec<(u8, u8)>) -> Places
        requires { ArePlaces list.items }
        ensures { result ≡ list.items }
    {
        let table = table_of(&list);
        Places { list, table }
    }

    /// The list that they were made of.
    pub fn into_list(self) -> Vec<(u8, u8)>
        ensures { result.items ≡ self }
    {
        self.list
    }

    /// What all places keep, for a caller to rest on.
    pub fn keeps(&self)
        ensures { ArePlaces self.now }
    {
        let _ = &self.list;
    }

    /// The channel end and the tunnel of a slot.
    pub fn place(&self, slot: u8) -> Option<(u8, u8)>
        ensures { result ≡ slice_get self.now slot }
    {
        place_in(&self.list, slot)
    }

    /// The slot that has this channel end and this tunnel. It looks at one entry of the table.
    pub fn slot(&self, end: u8, tunnel: u8) -> Option<u8>
        ensures some { IfSome result (λ slot. slice_get self.now slot ≡ Some (end, tunnel)) }
        ensures none { IfNone result ((slot : ℕ) → slice_get self.now slot ≢ Some (end, tunnel)) }
    {
        find_slot(&self.list, &self.table, end, tunnel)
    }
}

// The slot of a place, by the table: the one that stands there, if it has the place.
fn find_slot(list: &Vec<(u8, u8)>, table: &[u8; TABLE_LEN], end: u8, tunnel: u8) -> Option<u8>
    requires places { ArePlaces list.now.items }
    requires table { IsTable list.now.items table.now }
    ensures some { IfSome result (λ slot. slice_get list.now.items slot ≡ Some (end, tunnel)) }
    ensures none { IfNone result ((slot : ℕ) → slice_get list.now.items slot ≢ Some (end, tunnel)) }
{
    let inside = (end as usize) < END_LIMIT && (tunnel as usize) < TUNNEL_LIMIT;
    if !inside {
        return None;
    }
    let slot = table[end as usize * TUNNEL_LIMIT + tunnel as usize];
    if is_place(place_in(list, slot), end, tunnel) {
        Some(slot)
    } else {
        None
    }
}

fn place_in(list: &Vec<(u8, u8)>, slot: u8) -> Option<(u8, u8)>
    ensures { result ≡ slice_get list.now.items slot }
{
    list.get(slot as usize).copied()
}

// Whether it is this place.
fn is_place(place: Option<(u8, u8)>, end: u8, tunnel: u8) -> bool
    ensures { MatchBool result (place ≡ Some (end, tunnel)) (place ≢ Some (end, tunnel)) }
{
    match place {
        Some(place) => place.0 == end && place.1 == tunnel,
        None => false,
    }
}

// The table of a list.
fn table_of(list: &Vec<(u8, u8)>) -> [u8; TABLE_LEN]
    requires { ArePlaces list.now.items }
    ensures { IsTable list.now.items result }
{
    let mut table = [0; TABLE_LEN];
    for slot in 0..list.len() {
        let (end, tunnel) = list[slot];
        table[end as usize * TUNNEL_LIMIT + tunnel as usize] = slot as u8;
    }
    table
}
