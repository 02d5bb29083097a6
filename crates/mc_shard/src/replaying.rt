// Entries of the own journal, made again.

ghost use Rattle.std.specs.Prelude.{◌≡◌, ◌≢◌, ◌<◌, ◌≤◌, length, IfErr, IfOk, MatchBool, OnOk, Some};
ghost use Rattle.mc_shard.specs.Refusals.{IsAt, RefusesAt, RefusesEntry};
ghost use Rattle.mc_shard.specs.Shards.{IsOf, IsMade, IsShaped, shard_of};
ghost use Rattle.mc_shard.specs.States.{IsJournal, IsNext, reached_at, state_after};
ghost use Rattle.mc_shard.specs.declared.limit.TheConstants.{LAST_STAMP};

use crate::acting::is_take;
use crate::asking::{AskedOrder, asked_order};
use crate::entry::{AtEnd, Entry};
use crate::limit::LAST_STAMP;
use crate::parts::ShardParts;
use crate::reached::{follows, reached_at};
use crate::refused::{Refused, ReplayRefused};
use mc_box::Event;
use mc_lane::Lane;
use std::alloc::Global;

// Whether it is this place.
fn is_place(place: Option<(u32, u8)>, end: u32, tunnel: u8) -> bool
    ensures { MatchBool result (place ≡ Some (end, tunnel)) (place ≢ Some (end, tunnel)) }
{
    match place {
        Some(place) => place.0 == end && place.1 == tunnel,
        None => false,
    }
}

// Whether two lists are one.
fn same_sent(a: &Lane<AtEnd>, b: &Lane<AtEnd>) -> bool
    ensures { MatchBool result (a.now.items ≡ b.now.items) (a.now.items ≢ b.now.items) }
{
    let len = a.len();
    if len != b.len() {
        return false;
    }
    for i in 0..len {
        if a.get(i) != b.get(i) {
            return false;
        }
    }
    true
}

impl ShardParts {
    // Whether this slot is at a signal's place.
    fn is_at(&self, who: u32, slot: u8, at: AtEnd) -> bool
        requires { IsShaped (shard_of self.now) }
        ensures { MatchBool result
            ((who < length self.now.boxes.items) × IsAt (shard_of self.now) who slot at)
            (who < length self.now.boxes.items → IsAt (shard_of self.now) who slot at → ⊥) }
    {
        if who as usize >= self.places.len() {
            return false;
        }
        is_place(self.places[who as usize].get(slot), at.end, at.item.tunnel)
    }

    // Whether a signal is the next of its lane.
    fn is_next(&self, at: AtEnd) -> bool
        requires shaped { IsShaped (shard_of self.now) }
        requires there { at.end < length self.now.taken.items }
        ensures { MatchBool result (IsNext (reached_at self.now.taken.items at.end) at.item)
            (IsNext (reached_at self.now.taken.items at.end) at.item → ⊥) }
    {
        let had = reached_at(&self.taken, at.end);
        at.item.number == had.count + 1 && follows(had.digest, &at.item)
    }

    // The entry that the boxes make where another one takes a signal, with its stamp.
    fn take_again(&mut self, alloc: Global, entry: &Entry, at: AtEnd) -> Result<Entry, Refused>
        requires shaped { IsShaped (shard_of self.old) }
        requires takes { entry.now.taken ≡ Some at }
        requires rises { self.old.stamp < entry.now.stamp }
        requires fits { entry.now.stamp ≤ LAST_STAMP }
        ensures shaped { IsShaped (shard_of self.new) }
        ensures made { IfOk result (λ made. IsMade (shard_of self.old) (shard_of self.new) made
            × IsOf made entry.now.asked entry.now.who entry.now.event entry.now.taken entry.now.stamp) }
        ensures why { IfErr result (λ why.
            RefusesEntry why self.old.places.items (shard_of self.old).state entry.now) }
    {
        match entry.event {
            Event::Take(slot) => {
                if entry.asked.is_some() {
                    return Err(Refused::Differs);
                }
                if !self.is_at(entry.who, slot, at) {
                    return Err(Refused::Differs);
                }
                if !self.is_next(at) {
                    return Err(Refused::Differs);
                }
                if at.item.stamp >= entry.stamp {
                    return Err(Refused::Differs);
                }
                self.make_take(alloc, entry.who, slot, at, entry.stamp)
            }
            _ => Err(Refused::Differs),
        }
    }

    // The same, whatever it takes.
    fn make_again(&mut self, alloc: Global, entry: &Entry) -> Result<Entry, Refused>
        requires shaped { IsShaped (shard_of self.old) }
        requires rises { self.old.stamp < entry.now.stamp }
        requires fits { entry.now.stamp ≤ LAST_STAMP }
        ensures shaped { IsShaped (shard_of self.new) }
        ensures made { IfOk result (λ made. IsMade (shard_of self.old) (shard_of self.new) made
            × IsOf made entry.now.asked entry.now.who entry.now.event entry.now.taken entry.now.stamp) }
        ensures why { IfErr result (λ why.
            RefusesEntry why self.old.places.items (shard_of self.old).state entry.now) }
    {
        match entry.taken {
            Some(at) => self.take_again(alloc, entry, at),
            None => {
                if is_take(entry.event) {
                    return Err(Refused::Differs);
                }
                if !matches!(asked_order(&self.asked, entry.asked), AskedOrder::Next) {
                    return Err(Refused::Differs);
                }
                self.make_act(alloc, entry.asked, entry.who, entry.event, entry.stamp)
            }
        }
    }

    // One entry. After a refusal the shard may have made another one.
    fn replay_one(&mut self, alloc: Global, entry: &Entry) -> Result<(), Refused>
        requires { IsShaped (shard_of self.old) }
        ensures shaped { IsShaped (shard_of self.new) }
        ensures ok { OnOk result (IsMade (shard_of self.old) (shard_of self.new) entry.now) }
        ensures why { IfErr result (λ why.
            RefusesEntry why self.old.places.items (shard_of self.old).state entry.now) }
    {
        if entry.stamp <= self.stamp {
            return Err(Refused::Differs);
        }
        if entry.stamp > LAST_STAMP {
            return Err(Refused::Stamp);
        }
        match self.make_again(alloc, entry) {
            Ok(made) => {
                if same_sent(&made.sent, &entry.sent) {
                    Ok(())
                } else {
                    Err(Refused::Differs)
                }
            }
            Err(why) => Err(why),
        }
    }

    /// A journal made again, as `Shard::replay` says.
    pub(crate) fn replay(&mut self, alloc: Global, journal: &[Entry]) -> Result<(), ReplayRefused>
        requires { IsShaped (shard_of self.old) }
        ensures shaped { IsShaped (shard_of self.new) }
        ensures is { OnOk result (IsJournal self.old.places.items (shard_of self.old).state journal.now) }
        ensures after { OnOk result (shard_of self.new
            ≡ record (shard_of self.old) { state = state_after (shard_of self.old).state journal.now }) }
        ensures why { IfErr result (λ fault.
            RefusesAt self.old.places.items (shard_of self.old).state journal.now fault.index fault.why) }
    {
        for (index, entry) in journal.iter().enumerate() {
            if let Err(why) = self.replay_one(alloc, entry) {
                return Err(ReplayRefused { index, why });
            }
        }
        Ok(())
    }
}
