// What a box sent and its rings had no place for.

ghost use Rattle.std.specs.Prelude.{◌≡◌, ◌≢◌, ◌+◌, ◌^◌, ◌<◌, ◌≤◌, ◌∷◌, ◌++◌, [], ℕ, length, map, OnErr, OnOk};
ghost use Rattle.mc_port.specs.Ends.{without_stamp};
ghost use Rattle.mc_worker.specs.Boxes.{EachHasRoom, box_of, has_items, items_of, spare_at};

use mc_lane::Lane;
use mc_port::Stamped;
use mc_signal::Tagged;
use std::alloc::AllocError;
use std::marker::Model;

/// An outbox for each channel end of a box, and how many more items each of them has room for at least, so that room is
/// asked for only where it may be wanting.
#[derive(Debug, Drop)]
pub struct Outboxes {
    lanes: Vec<Lane<Stamped>>,
    room: usize,
}

impl Model for Outboxes {
    ghost use Rattle.mc_worker.specs.Boxes.{EachHasRoom, OutboxesState, items_of};

    ghost Value = { OutboxesState };

    ghost view = { λ outboxes. record { boxes = items_of outboxes.lanes.items; room = outboxes.room } };

    ghost invariant = { λ outboxes. EachHasRoom outboxes.lanes.items outboxes.room };
}

impl Outboxes {
    /// The outboxes with what is in these lanes, by the numbers of their ends. It takes no memory.
    pub fn new(lanes: Vec<Lane<Stamped>>) -> Outboxes
        ensures { result ≡ record { boxes = items_of lanes.items; room = 0 } }
    {
        Outboxes { lanes, room: 0 }
    }

    /// The lanes.
    pub fn into_lanes(self) -> Vec<Lane<Stamped>>
        ensures { items_of result.items ≡ self.boxes }
    {
        self.lanes
    }

    /// Whether an outbox has something.
    pub fn has_items(&self, end: u8) -> bool
        requires { end < length self.now.boxes }
        ensures { result ≡ has_items (box_of self.now.boxes end) }
    {
        !self.lanes[usize::from(end)].is_empty()
    }

    /// Puts an item last into an outbox, where there is room.
    pub fn push(&mut self, end: u8, item: Stamped)
        requires end { end < length self.old.boxes }
        requires room { 0 < self.old.room }
        ensures item { box_of self.new.boxes end ≡ box_of self.old.boxes end ++ item ∷ [] }
        ensures others { (e : ℕ) → e ≢ end → box_of self.new.boxes e ≡ box_of self.old.boxes e }
        ensures ends { length self.new.boxes ≡ length self.old.boxes }
        ensures room { self.new.room + 1 ≡ self.old.room }
    {
        push_at(&mut self.lanes, usize::from(end), item);
        self.room -= 1;
    }

    /// Sees to it that each outbox has room for so many items more. It takes memory only where the room isn't there,
    /// and then asks for as much more as there are ends, so that what is sent pays for the asking.
    pub fn reserve(&mut self, most: usize) -> Result<(), AllocError>
        requires { most + length self.old.boxes < 2 ^ 64 }
        ensures boxes { self.new.boxes ≡ self.old.boxes }
        ensures kept { self.old.room ≤ self.new.room }
        ensures room { OnOk result (most ≤ self.new.room) }
    {
        if most <= self.room {
            return Ok(());
        }
        let wanted = most + self.lanes.len();
        reserve_each(&mut self.lanes, wanted)?;
        self.room = wanted;
        Ok(())
    }

    /// Moves all that an outbox has after what a lane has, without its stamps. It fails only for want of memory, and
    /// moves nothing then.
    pub(crate) fn move_all(&mut self, end: u8, into: &mut Lane<Tagged>) -> Result<(), AllocError>
        requires { end < length self.old.boxes }
        ensures emptied { OnOk result (box_of self.new.boxes end ≡ []) }
        ensures moved { OnOk result (into.new.items
            ≡ into.old.items ++ map without_stamp (box_of self.old.boxes end)) }
        ensures kept { OnErr result ((box_of self.new.boxes end ≡ box_of self.old.boxes end)
            × (into.new.items ≡ into.old.items)) }
        ensures others { (e : ℕ) → e ≢ end → box_of self.new.boxes e ≡ box_of self.old.boxes e }
        ensures ends { length self.new.boxes ≡ length self.old.boxes }
        ensures room { self.new.room ≡ self.old.room }
    {
        move_at(&mut self.lanes, end as usize, into)
    }
}

// Moves all that one of some lanes has.
fn move_at(
    lanes: &mut Vec<Lane<Stamped>>,
    at: usize,
    into: &mut Lane<Tagged>,
) -> Result<(), AllocError>
    requires { at < length lanes.old.items }
    ensures emptied { OnOk result (box_of (items_of lanes.new.items) at ≡ []) }
    ensures moved { OnOk result (into.new.items
        ≡ into.old.items ++ map without_stamp (box_of (items_of lanes.old.items) at)) }
    ensures kept { OnErr result ((box_of (items_of lanes.new.items) at ≡ box_of (items_of lanes.old.items) at)
        × (into.new.items ≡ into.old.items)) }
    ensures others { (e : ℕ) → e ≢ at
        → box_of (items_of lanes.new.items) e ≡ box_of (items_of lanes.old.items) e }
    ensures len { length lanes.new.items ≡ length lanes.old.items }
    ensures room { (e : ℕ) → spare_at lanes.old.items e ≤ spare_at lanes.new.items e }
{
    move_lane(&mut lanes[at], into)
}

// Moves all that a lane has after what another one has, without its stamps.
fn move_lane(from: &mut Lane<Stamped>, into: &mut Lane<Tagged>) -> Result<(), AllocError>
    ensures emptied { OnOk result (from.new.items ≡ []) }
    ensures moved { OnOk result (into.new.items ≡ into.old.items ++ map without_stamp from.old.items) }
    ensures kept { OnErr result ((from.new.items ≡ from.old.items) × (into.new.items ≡ into.old.items)) }
    ensures room { from.old.spare ≤ from.new.spare }
{
    into.reserve(from.len())?;
    while let Some(item) = from.pop() {
        into.push(Tagged {
            tunnel: item.tunnel,
            signal: item.signal,
        });
    }
    Ok(())
}

// Puts an item last into a lane, where there is room.
fn push_at(lanes: &mut Vec<Lane<Stamped>>, at: usize, item: Stamped)
    requires at { at < length lanes.old.items }
    requires room { 0 < spare_at lanes.old.items at }
    ensures item { box_of (items_of lanes.new.items) at ≡ box_of (items_of lanes.old.items) at ++ item ∷ [] }
    ensures others { (e : ℕ) → e ≢ at
        → box_of (items_of lanes.new.items) e ≡ box_of (items_of lanes.old.items) e }
    ensures len { length lanes.new.items ≡ length lanes.old.items }
    ensures room { (e : ℕ) → spare_at lanes.old.items e ≤ spare_at lanes.new.items e + 1 }
{
    lanes[at].push(item);
}

// Asks for room in each lane.
fn reserve_each(lanes: &mut Vec<Lane<Stamped>>, room: usize) -> Result<(), AllocError>
    ensures items { items_of lanes.new.items ≡ items_of lanes.old.items }
    ensures len { length lanes.new.items ≡ length lanes.old.items }
    ensures kept { (end : ℕ) → spare_at lanes.old.items end ≤ spare_at lanes.new.items end }
    ensures room { OnOk result (EachHasRoom lanes.new.items room) }
{
    for end in 0..lanes.len() {
        lanes[end].reserve(room)?;
    }
    Ok(())
}
