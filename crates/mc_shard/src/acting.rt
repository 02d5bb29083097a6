// Turns that take nothing, each made after its memory was asked for.

ghost use Rattle.std.specs.Prelude.{◌≡◌, ◌≢◌, ◌+◌, ◌*◌, ◌<◌, ◌≤◌, max, [], length, is_err, IsTrue, IsFalse, IfErr, IfOk, IfSome, MatchOption, OnErr, OnOk, Ok, Err, Some, None};
ghost use Rattle.mc_box.specs.BoxEvents.{box_event, is_enabled, is_take, is_version_end};
ghost use Rattle.mc_shard.specs.Refusals.{HindersAct, HindersAsked, IsAskedAhead, LacksAsker, WasAsked};
ghost use Rattle.mc_shard.specs.Shards.{IsOf, IsMade, IsShaped, shard_of, stamp_above};
ghost use Rattle.mc_shard.specs.States.{FitsAsked};
ghost use Rattle.mc_shard.specs.declared.limit.TheConstants.{LAST_STAMP, SENT_LIMIT};

use crate::asking::{AskedOrder, asked_order, raise_asker};
use crate::entry::{Asked, AtEnd, Entry};
use crate::limit::LAST_STAMP;
use crate::numbering::number_all;
use crate::parts::ShardParts;
use crate::refused::Refused;
use mc_box::{Event, MediaBox, VersionEnd};
use mc_lane::Lane;
use mc_signal::Signal;
use std::alloc::Global;

/// Whether it is a Take.
pub fn is_take(event: Event) -> bool
    ensures { result ≡ is_take event }
{
    match event {
        Event::Take(_) => true,
        _ => false,
    }
}

/// Room for what a turn sends, as the box sends it and as the entry has it.
pub fn rooms(alloc: Global, most: usize) -> Option<(Lane<(u8, Signal)>, Lane<AtEnd>)>
    ensures none { IfSome result (λ made. (made.0.items ≡ []) × (made.1.items ≡ [])) }
    ensures room { IfSome result (λ made. (most ≤ made.0.spare) × (most ≤ made.1.spare)) }
{
    let mut sendings = Lane::new(alloc);
    let mut sent = Lane::new(alloc);
    if sendings.reserve(most).is_err() {
        return None;
    }
    if sent.reserve(most).is_err() {
        return None;
    }
    Some((sendings, sent))
}

// An event of one box, which takes nothing.
fn act_box(
    one: &mut MediaBox,
    event: Event,
    sendings: &mut Lane<(u8, Signal)>,
) -> Result<(), VersionEnd>
    requires enabled { IsTrue (is_enabled one.old event) }
    requires takes_nothing { IsFalse (is_take event) }
    requires empty { sendings.old.items ≡ [] }
    requires space { 2 * length one.old.slots ≤ sendings.old.spare }
    ensures event { OnOk result (box_event one.old event None
        ≡ Some (record { sent = sendings.new.items; after = one.new })) }
    ensures few { OnOk result (length sendings.new.items ≤ 2 * length one.old.slots) }
    ensures end { is_err result ≡ is_version_end one.old event }
    ensures unchanged { OnErr result (one.new ≡ one.old) }
{
    one.act(event, sendings)
}

impl ShardParts {
    /// An event that takes nothing, and that this request asked for, with this stamp.
    pub(crate) fn make_act(
        &mut self,
        alloc: Global,
        asked: Option<Asked>,
        who: u32,
        event: Event,
        stamp: u64,
    ) -> Result<Entry, Refused>
        requires shaped { IsShaped (shard_of self.old) }
        requires takes_nothing { IsFalse (is_take event) }
        requires asked { FitsAsked self.old.asked.items asked None }
        requires rises { self.old.stamp < stamp }
        requires fits { stamp ≤ LAST_STAMP }
        ensures shaped { IsShaped (shard_of self.new) }
        ensures made { IfOk result (λ entry. IsMade (shard_of self.old) (shard_of self.new) entry
            × IsOf entry asked who event None stamp) }
        ensures few { IfOk result (λ entry. length entry.sent ≤ SENT_LIMIT) }
        ensures same { OnErr result (shard_of self.new ≡ shard_of self.old) }
        ensures why { IfErr result (λ why. (why ≢ Refused.Stamp) × HindersAct why (shard_of self.old) who event) }
    {
        if who as usize >= self.boxes.len() {
            return Err(Refused::NoBox);
        }
        if !self.boxes[who as usize].enabled(&event) {
            return Err(Refused::NotEnabled);
        }
        let most = 2 * self.boxes[who as usize].slots().len();
        let Some((mut sendings, mut sent)) = rooms(alloc, most) else {
            return Err(Refused::NoMemory);
        };
        if act_box(&mut self.boxes[who as usize], event, &mut sendings).is_err() {
            return Err(Refused::VersionEnd);
        }
        number_all(
            &self.places[who as usize],
            stamp,
            &mut self.sent,
            &mut sendings,
            &mut sent,
        );
        raise_asker(&mut self.asked, asked);
        self.stamp = stamp;
        Ok(Entry {
            who,
            stamp,
            event,
            asked,
            taken: None,
            sent,
        })
    }

    // A request that wasn't made yet.
    fn request_next(
        &mut self,
        alloc: Global,
        asked: Option<Asked>,
        who: u32,
        event: Event,
        known: u64,
    ) -> Result<Entry, Refused>
        requires shaped { IsShaped (shard_of self.old) }
        requires asked { FitsAsked self.old.asked.items asked None }
        ensures shaped { IsShaped (shard_of self.new) }
        ensures made { IfOk result (λ entry. IsMade (shard_of self.old) (shard_of self.new) entry
            × IsOf entry asked who event None (stamp_above (shard_of self.old) known)) }
        ensures few { IfOk result (λ entry. length entry.sent ≤ SENT_LIMIT) }
        ensures same { OnErr result (shard_of self.new ≡ shard_of self.old) }
        ensures why { IfErr result (λ why. HindersAsked why (shard_of self.old) asked who event known) }
    {
        if is_take(event) {
            return Err(Refused::NotEnabled);
        }
        let before = self.stamp.max(known);
        if before >= LAST_STAMP {
            return Err(Refused::Stamp);
        }
        self.make_act(alloc, asked, who, event, before + 1)
    }

    /// A request, as `Shard::request` says.
    pub(crate) fn request(
        &mut self,
        alloc: Global,
        asked: Option<Asked>,
        who: u32,
        event: Event,
        known: u64,
    ) -> Result<Option<Entry>, Refused>
        requires { IsShaped (shard_of self.old) }
        ensures shaped { IsShaped (shard_of self.new) }
        ensures made { IfOk result (λ made. MatchOption made
            ((shard_of self.new ≡ shard_of self.old) × WasAsked self.old.asked.items asked)
            (λ entry. IsMade (shard_of self.old) (shard_of self.new) entry
            × IsOf entry asked who event None (stamp_above (shard_of self.old) known))) }
        ensures few { IfOk result (λ made. IfSome made (λ entry. length entry.sent ≤ SENT_LIMIT)) }
        ensures same { OnErr result (shard_of self.new ≡ shard_of self.old) }
        ensures had { WasAsked self.old.asked.items asked → result ≡ Ok None }
        ensures early { (LacksAsker self.old.asked.items asked → result ≡ Err Refused.NoAsker)
            × (IsAskedAhead self.old.asked.items asked → result ≡ Err Refused.Ahead) }
        ensures why { IfErr result (λ why. HindersAsked why (shard_of self.old) asked who event known) }
    {
        match asked_order(&self.asked, asked) {
            AskedOrder::Had => Ok(None),
            AskedOrder::TooEarly => Err(Refused::Ahead),
            AskedOrder::Unknown => Err(Refused::NoAsker),
            AskedOrder::Next => match self.request_next(alloc, asked, who, event, known) {
                Ok(entry) => Ok(Some(entry)),
                Err(why) => Err(why),
            },
        }
    }
}
