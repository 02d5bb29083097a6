// What came for a box before a round.

ghost use Rattle.std.specs.Prelude.{◌≡◌, ◌≢◌, ◌<◌, ◌≤◌, ◌↔◌, ℕ, count_by, length, IfNone, IfOk, IfSome, IsTrue, Some, slice_get};
ghost use Rattle.mc_lane.specs.Queue.{TakesFirst};
ghost use Rattle.mc_port.specs.Ends.{IsPair, in_ring, out_ring};
ghost use Rattle.mc_worker.specs.Boxes.{AreEmpty, AreWaiting, ChangesOnlyBox, box_of, has_items, items_of};
ghost use Rattle.mc_worker.specs.Carrying.{BringsIn};
ghost use Rattle.mc_worker.specs.Ends.{in_end_of, out_end_of};
ghost use Rattle.mc_worker.specs.declared.limit.TheConstants.{END_LIMIT};

use crate::end_set::EndSet;
use crate::outboxes::Outboxes;
use mc_lane::Lane;
use mc_port::{InPort, OutPort, drain_beside};
use mc_signal::Tagged;
use std::alloc::AllocError;
use std::marker::Model;

/// An inbox for each channel end of a box, and the set of those that have something, so that an empty one is never
/// touched.
#[derive(Debug, Drop)]
pub struct Inboxes {
    lanes: Vec<Lane<Tagged>>,
    waiting: EndSet,
}

impl Model for Inboxes {
    ghost use Rattle.std.specs.Prelude.{List, length, ◌≤◌};
    ghost use Rattle.mc_signal.specs.declared.Tagged.{Tagged};
    ghost use Rattle.mc_worker.specs.Boxes.{AreWaiting, items_of};
    ghost use Rattle.mc_worker.specs.declared.limit.TheConstants.{END_LIMIT};

    ghost Value = { List (List Tagged) };

    ghost view = { λ inboxes. items_of inboxes.lanes.items };

    ghost invariant = { λ inboxes. AreWaiting (items_of inboxes.lanes.items) inboxes.waiting
        × (length inboxes.lanes.items ≤ END_LIMIT) };
}

impl Inboxes {
    /// The inboxes with what is in these lanes, by the numbers of their ends. It takes no memory.
    pub fn new(lanes: Vec<Lane<Tagged>>) -> Inboxes
        requires { length lanes.items ≤ END_LIMIT }
        ensures { result ≡ items_of lanes.items }
    {
        let waiting = waiting_in(&lanes);
        Inboxes { lanes, waiting }
    }

    /// The lanes.
    pub fn into_lanes(self) -> Vec<Lane<Tagged>>
        ensures { items_of result.items ≡ self }
    {
        self.lanes
    }

    /// The first end whose inbox has something, and the first that it has. It touches no other inbox.
    pub fn first(&self) -> Option<(u8, Tagged)>
        ensures some { IfSome result (λ found. slice_get (box_of self.now found.0) 0 ≡ Some found.1) }
        ensures there { IfSome result (λ found. found.0 < length self.now) }
        ensures none { IfNone result (AreEmpty self.now) }
    {
        let end = self.waiting.first()?;
        let tagged = self.lanes[usize::from(end)].front()?;
        Some((end, tagged))
    }

    /// Takes the first that an inbox has, where it has something.
    pub fn pop(&mut self, end: u8) -> Option<Tagged>
        requires { end < length self.old }
        ensures item { TakesFirst result (box_of self.old end) (box_of self.new end) }
        ensures others { (e : ℕ) → e ≢ end → box_of self.new e ≡ box_of self.old e }
        ensures ends { length self.new ≡ length self.old }
    {
        let tagged = pop_at(&mut self.lanes, end as usize);
        if !is_waiting(&self.lanes, end as usize) {
            self.waiting.remove(end);
        }
        tagged
    }

    /// Whether no inbox has anything. It touches none of them.
    pub fn is_empty(&self) -> bool
        ensures { IsTrue result ↔ AreEmpty self.now }
    {
        self.waiting.is_empty()
    }

    /// At how many ends something waits. It touches no inbox.
    pub fn count_ends(&self) -> u32
        ensures { result ≡ count_by has_items self.now }
    {
        self.waiting.count()
    }

    /// Moves what a ring still has, and then what an outbox has, after what an inbox has. Whether the inbox has
    /// something then. It fails only for want of memory, and loses nothing then.
    pub(crate) fn bring_in(
        &mut self,
        from: &mut OutPort,
        outboxes: &mut Outboxes,
        end: u8,
        to: &mut InPort,
        far: u8,
    ) -> Result<bool, AllocError>
        requires pair { IsPair from.old to.old }
        requires outbox { end < length outboxes.old.boxes }
        requires inbox { far < length self.old }
        ensures carried { BringsIn result
            (out_end_of from.old (box_of outboxes.old.boxes end)) (out_end_of from.new (box_of outboxes.new.boxes end))
            (in_end_of to.old (box_of self.old far)) (in_end_of to.new (box_of self.new far)) }
        ensures waits { IfOk result (λ waits. waits ≡ has_items (box_of self.new far)) }
        ensures out_ring { out_ring from.new ≡ out_ring from.old }
        ensures in_ring { in_ring to.new ≡ in_ring to.old }
        ensures outboxes { ChangesOnlyBox outboxes.old.boxes outboxes.new.boxes end }
        ensures inboxes { ChangesOnlyBox self.old self.new far }
    {
        let brought = bring_to(from, outboxes, end, to, &mut self.lanes, far as usize);
        let waits = is_waiting(&self.lanes, far as usize);
        self.waiting.set(far, waits);
        brought?;
        Ok(waits)
    }
}

// Moves what a ring still has, and then what an outbox has, into one of some lanes.
fn bring_to(
    from: &mut OutPort,
    outboxes: &mut Outboxes,
    end: u8,
    to: &mut InPort,
    lanes: &mut Vec<Lane<Tagged>>,
    at: usize,
) -> Result<(), AllocError>
    requires pair { IsPair from.old to.old }
    requires outbox { end < length outboxes.old.boxes }
    requires at { at < length lanes.old.items }
    ensures carried { BringsIn result
        (out_end_of from.old (box_of outboxes.old.boxes end)) (out_end_of from.new (box_of outboxes.new.boxes end))
        (in_end_of to.old (box_of (items_of lanes.old.items) at))
        (in_end_of to.new (box_of (items_of lanes.new.items) at)) }
    ensures out_ring { out_ring from.new ≡ out_ring from.old }
    ensures in_ring { in_ring to.new ≡ in_ring to.old }
    ensures outboxes { ChangesOnlyBox outboxes.old.boxes outboxes.new.boxes end }
    ensures boxes { ChangesOnlyBox (items_of lanes.old.items) (items_of lanes.new.items) at }
    ensures lanes { length lanes.new.items ≡ length lanes.old.items }
{
    bring_into(from, outboxes, end, to, &mut lanes[at])
}

// Moves what a ring still has, and then what an outbox has, into a lane.
fn bring_into(
    from: &mut OutPort,
    outboxes: &mut Outboxes,
    end: u8,
    to: &mut InPort,
    lane: &mut Lane<Tagged>,
) -> Result<(), AllocError>
    requires pair { IsPair from.old to.old }
    requires outbox { end < length outboxes.old.boxes }
    ensures carried { BringsIn result
        (out_end_of from.old (box_of outboxes.old.boxes end)) (out_end_of from.new (box_of outboxes.new.boxes end))
        (in_end_of to.old lane.old.items) (in_end_of to.new lane.new.items) }
    ensures out_ring { out_ring from.new ≡ out_ring from.old }
    ensures in_ring { in_ring to.new ≡ in_ring to.old }
    ensures outboxes { ChangesOnlyBox outboxes.old.boxes outboxes.new.boxes end }
{
    drain_beside(from, to, lane)?;
    outboxes.move_all(end, lane)?;
    Ok(())
}

// Takes the first that a lane has, where it has something.
fn pop_at(lanes: &mut Vec<Lane<Tagged>>, at: usize) -> Option<Tagged>
    requires { at < length lanes.old.items }
    ensures item { TakesFirst result (box_of (items_of lanes.old.items) at) (box_of (items_of lanes.new.items) at) }
    ensures others { (e : ℕ) → e ≢ at
        → box_of (items_of lanes.new.items) e ≡ box_of (items_of lanes.old.items) e }
    ensures len { length lanes.new.items ≡ length lanes.old.items }
{
    lanes[at].pop()
}

// Whether one of some lanes has something.
fn is_waiting(lanes: &Vec<Lane<Tagged>>, at: usize) -> bool
    requires { at < length lanes.now.items }
    ensures { result ≡ has_items (box_of (items_of lanes.now.items) at) }
{
    !lanes[at].is_empty()
}

// The ends whose lanes have something.
fn waiting_in(lanes: &Vec<Lane<Tagged>>) -> EndSet
    requires { length lanes.now.items ≤ END_LIMIT }
    ensures { AreWaiting (items_of lanes.now.items) result }
{
    let mut waiting = EndSet::none();
    for end in 0..lanes.len() {
        waiting.set(end as u8, is_waiting(lanes, end));
    }
    waiting
}
