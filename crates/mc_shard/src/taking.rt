// Turns that take a signal.

ghost use Rattle.std.specs.Prelude.{◌≡◌, ◌<◌, ◌≤◌, [], length, IsTrue, IsFalse, IfErr, IfNone, IfOk, IfSome, IsSome, MatchOption, OnErr, Ok, Some, None};
ghost use Rattle.mc_box.specs.BoxEvents.{box_event};
ghost use Rattle.mc_box.specs.Boxes.{slot_at};
ghost use Rattle.mc_shard.specs.Refusals.{HasNoSlot, HindersSlot, HindersTake, IsAt};
ghost use Rattle.mc_shard.specs.Shards.{IsOf, IsMade, IsShaped, IsTaking, shard_of, stamp_above};
ghost use Rattle.mc_shard.specs.States.{IsNext, count_at, reached_at};
ghost use Rattle.mc_shard.specs.declared.limit.TheConstants.{LAST_STAMP, SENT_LIMIT};
ghost use Rattle.mc_slot.specs.Moves.{slot_take};

use crate::acting::rooms;
use crate::entry::{AtEnd, Entry};
use crate::limit::LAST_STAMP;
use crate::numbering::number_all;
use crate::parts::ShardParts;
use crate::reached::{Reached, follows, reached_at};
use crate::refused::Refused;
use mc_box::{Event, MediaBox};
use mc_lane::Lane;
use mc_signal::Signal;
use std::alloc::Global;

// Whether a slot may take a signal.
fn may_take(one: &MediaBox, slot: u8, signal: &Signal) -> bool
    ensures some { IsTrue result
        → (slot < length one.now.slots) × IsSome (slot_take (slot_at one.now slot) signal.now) }
    ensures none { IsFalse result → box_event one.now (Event.Take slot) (Some signal.now) ≡ None }
{
    let slots = one.slots();
    if (slot as usize) < slots.len() {
        slots[slot as usize].lawful(signal)
    } else {
        false
    }
}

// A slot of one box takes a signal.
fn take_box(one: &mut MediaBox, slot: u8, signal: Signal, sendings: &mut Lane<(u8, Signal)>)
    requires here { slot < length one.old.slots }
    requires lawful { IsSome (slot_take (slot_at one.old slot) signal) }
    requires empty { sendings.old.items ≡ [] }
    requires space { 3 ≤ sendings.old.spare }
    ensures event { box_event one.old (Event.Take slot) (Some signal)
        ≡ Some (record { sent = sendings.new.items; after = one.new }) }
    ensures few { length sendings.new.items ≤ 3 }
{
    let sends = one.take(slot, signal);
    sendings.push_all(sends.as_slice());
}

impl ShardParts {
    /// A slot takes the next signal of its lane, with this stamp.
    pub(crate) fn make_take(
        &mut self,
        alloc: Global,
        who: u32,
        slot: u8,
        at: AtEnd,
        stamp: u64,
    ) -> Result<Entry, Refused>
        requires shaped { IsShaped (shard_of self.old) }
        requires here { who < length self.old.boxes.items }
        requires place { IsAt (shard_of self.old) who slot at }
        requires next { IsNext (reached_at self.old.taken.items at.end) at.item }
        requires above { at.item.stamp < stamp }
        requires rises { self.old.stamp < stamp }
        requires fits { stamp ≤ LAST_STAMP }
        ensures shaped { IsShaped (shard_of self.new) }
        ensures made { IfOk result (λ entry. IsMade (shard_of self.old) (shard_of self.new) entry
            × IsOf entry None who (Event.Take slot) (Some at) stamp) }
        ensures few { IfOk result (λ entry. length entry.sent ≤ SENT_LIMIT) }
        ensures same { OnErr result (shard_of self.new ≡ shard_of self.old) }
        ensures why { IfErr result (λ why. HindersSlot why (shard_of self.old) who slot at) }
    {
        if !may_take(&self.boxes[who as usize], slot, &at.item.signal) {
            return Err(Refused::Unlawful);
        }
        let Some((mut sendings, mut sent)) = rooms(alloc, 3) else {
            return Err(Refused::NoMemory);
        };
        take_box(
            &mut self.boxes[who as usize],
            slot,
            at.item.signal,
            &mut sendings,
        );
        number_all(
            &self.places[who as usize],
            stamp,
            &mut self.sent,
            &mut sendings,
            &mut sent,
        );
        self.taken[at.end as usize] = Reached {
            count: at.item.number,
            digest: at.item.digest,
        };
        self.stamp = stamp;
        Ok(Entry {
            who,
            stamp,
            event: Event::Take(slot),
            asked: None,
            taken: Some(at),
            sent,
        })
    }

    // The box and the slot that are at a signal's place.
    fn slot_of(&self, at: AtEnd) -> Option<(u32, u8)>
        requires shaped { IsShaped (shard_of self.now) }
        requires there { at.end < length self.now.taken.items }
        ensures some { IfSome result (λ found. (found.0 < length self.now.boxes.items)
            × IsAt (shard_of self.now) found.0 found.1 at) }
        ensures none { IfNone result (HasNoSlot (shard_of self.now) at) }
    {
        let who = self.owners[at.end as usize];
        if who as usize >= self.places.len() {
            return None;
        }
        match self.places[who as usize].slot(at.end, at.item.tunnel) {
            Some(slot) => Some((who, slot)),
            None => None,
        }
    }

    // A signal that wasn't taken yet.
    fn take_next(&mut self, alloc: Global, at: AtEnd, had: Reached) -> Result<Entry, Refused>
        requires shaped { IsShaped (shard_of self.old) }
        requires there { at.end < length self.old.taken.items }
        requires had_is { had ≡ reached_at self.old.taken.items at.end }
        requires new { had.count < at.item.number }
        ensures shaped { IsShaped (shard_of self.new) }
        ensures made { IfOk result (λ entry. IsMade (shard_of self.old) (shard_of self.new) entry
            × IsTaking entry at (stamp_above (shard_of self.old) at.item.stamp)) }
        ensures few { IfOk result (λ entry. length entry.sent ≤ SENT_LIMIT) }
        ensures same { OnErr result (shard_of self.new ≡ shard_of self.old) }
        ensures why { IfErr result (λ why. HindersTake why (shard_of self.old) at) }
    {
        if at.item.number - had.count > 1 {
            return Err(Refused::Ahead);
        }
        if !follows(had.digest, &at.item) {
            return Err(Refused::Digest);
        }
        let before = self.stamp.max(at.item.stamp);
        if before >= LAST_STAMP {
            return Err(Refused::Stamp);
        }
        match self.slot_of(at) {
            Some((who, slot)) => self.make_take(alloc, who, slot, at, before + 1),
            None => Err(Refused::NoTunnel),
        }
    }

    /// A signal that arrives, as `Shard::arrive` says.
    pub(crate) fn arrive(&mut self, alloc: Global, at: AtEnd) -> Result<Option<Entry>, Refused>
        requires { IsShaped (shard_of self.old) }
        ensures shaped { IsShaped (shard_of self.new) }
        ensures took { IfOk result (λ made. MatchOption made
            ((shard_of self.new ≡ shard_of self.old) × (at.item.number ≤ count_at self.old.taken.items at.end))
            (λ entry. IsMade (shard_of self.old) (shard_of self.new) entry
            × IsTaking entry at (stamp_above (shard_of self.old) at.item.stamp))) }
        ensures few { IfOk result (λ made. IfSome made (λ entry. length entry.sent ≤ SENT_LIMIT)) }
        ensures same { OnErr result (shard_of self.new ≡ shard_of self.old) }
        ensures had { at.end < length self.old.taken.items
            → at.item.number ≤ count_at self.old.taken.items at.end → result ≡ Ok None }
        ensures why { IfErr result (λ why. HindersTake why (shard_of self.old) at) }
    {
        if at.end as usize >= self.taken.len() {
            return Err(Refused::NoEnd);
        }
        let had = reached_at(&self.taken, at.end);
        if at.item.number <= had.count {
            return Ok(None);
        }
        match self.take_next(alloc, at, had) {
            Ok(entry) => Ok(Some(entry)),
            Err(why) => Err(why),
        }
    }
}
