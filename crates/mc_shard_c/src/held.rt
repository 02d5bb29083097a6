//! A shard, and its entry that waits.

ghost use Rattle.std.specs.Prelude.{◌≤◌, length};
ghost use Rattle.std.specs.Option.{ForSome};
ghost use Rattle.mc_shard.specs.declared.limit.TheConstants.{SENT_LIMIT};

use crate::answer;
use crate::at_end::{PlainAsked, PlainAtEnd};
use crate::saving::{count_at, save_into};
use crate::writing::{give, write_into};
use mc_plain::asked::PlainEvent;
use mc_plain::view::{PlainBoxView, PlainSlotView};
use mc_shard::{Entry, Shard};
use std::alloc::Global;

/// A shard, and the entry of its last turn as long as that doesn't stand in the journal. Until then no turn is made,
/// and nobody sees the boxes, as a `ShardWriter` has it. This one replays, too, and tells how much there is to give.
#[derive(Drop)]
pub struct HeldShard {
    pub shard: Shard,
    pub made: Option<Entry>,
    pub ghost few: { ForSome made (λ entry. length entry.sent ≤ SENT_LIMIT) },
}

impl HeldShard {
    ghost use Rattle.std.specs.Prelude.{◌≡◌, ◌≢◌, ◌<◌, MatchBool, None};
    ghost use Rattle.mc_plain.specs.Views.{box_view, slot_view};
    ghost use Rattle.mc_shard.specs.States.{box_in, count_at};
    ghost use Rattle.mc_shard_writer.specs.Writers.{Waits};
    ghost use Rattle.mc_shard_c.specs.Handles.{writer_of};
    ghost use Rattle.mc_shard_c.specs.Saving.{IsEndSeen, HasSaved, WhyNoSnapshot, WhyNotTold};
    ghost use Rattle.mc_shard_c.specs.Seeing.{IsSeen, WhyNoBox, WhyNoSlot};
    ghost use Rattle.mc_shard_c.specs.Turns.{HasArrived, HasRequested, HasStood, HasWritten, WhyNotArrived, WhyNotRequested, WhyNotStood, WhyNotWritten};
    ghost use Rattle.mc_shard_c.specs.Waiting.{WhyNoStamp};
    ghost use Rattle.mc_shard_c.specs.declared.answer.TheConstants.{OK, NO_ROOM};
    ghost use Rattle.mc_shard_c.specs.declared.writing.TheConstants.{ENTRY_ROOM};

    /// Whether no entry waits.
    pub fn is_free(&self) -> bool
        ensures { MatchBool result (self.now.made ≡ None) (Waits (writer_of self.now)) }
    {
        match &self.made {
            Some(_) => false,
            None => true,
        }
    }

    /// The stamp of the last turn comes into `stamp`. Answers a code.
    pub fn stamp(&self, stamp: &mut u64) -> u32
        ensures ok { result ≡ OK → (self.now.made ≡ None) × (stamp.new ≡ self.now.shard.state.stamp) }
        ensures unchanged { result ≢ OK → stamp.new ≡ stamp.old }
        ensures why_not { result ≢ OK → WhyNoStamp (writer_of self.now) result }
    {
        if !self.is_free() {
            return answer::WAITS;
        }
        *stamp = self.shard.stamp();
        answer::OK
    }

    /// How many signals were taken at a channel end comes into `taken`. Answers a code.
    pub fn taken(&self, end: u32, taken: &mut u64) -> u32
        ensures ok { result ≡ OK
            → IsEndSeen (writer_of self.now) end × (taken.new ≡ count_at self.now.shard.state.taken end) }
        ensures unchanged { result ≢ OK → taken.new ≡ taken.old }
        ensures why_not { result ≢ OK → WhyNotTold (writer_of self.now) end result }
    {
        if !self.is_free() {
            return answer::WAITS;
        }
        let lanes = &self.shard.parts().taken;
        if lanes.len() <= end as usize {
            return answer::NO_END;
        }
        *taken = count_at(lanes, end);
        answer::OK
    }

    /// The bytes of the shard's snapshot come into `bytes`, and how many they are into `count`, also where there is no
    /// room for them. Answers a code.
    pub fn save(&self, alloc: Global, bytes: &mut [u8], count: &mut usize) -> u32
        ensures ok { result ≡ OK → HasSaved (writer_of self.now) bytes.old bytes.new count.new }
        ensures unchanged { result ≢ OK → bytes.new ≡ bytes.old }
        ensures why_not { result ≢ OK → WhyNoSnapshot (writer_of self.now) (length bytes.old) count.new result }
    {
        if !self.is_free() {
            *count = 0;
            return answer::WAITS;
        }
        save_into(alloc, &self.shard, bytes, count)
    }

    /// What there is to see of a box comes into `out`. Answers a code.
    pub fn see_box(&self, who: u32, out: &mut PlainBoxView) -> u32
        ensures ok { result ≡ OK
            → IsSeen (writer_of self.now) who × (out.new ≡ box_view (box_in self.now.shard.state who)) }
        ensures unchanged { result ≢ OK → out.new ≡ out.old }
        ensures why_not { result ≢ OK → WhyNoBox (writer_of self.now) who result }
    {
        if !self.is_free() {
            return answer::WAITS;
        }
        let boxes = self.shard.boxes();
        if boxes.len() <= who as usize {
            return answer::NO_BOX;
        }
        *out = PlainBoxView::of(&boxes[who as usize]);
        answer::OK
    }

    /// What there is to see of a slot of a box comes into `out`. Answers a code.
    pub fn see_slot(&self, who: u32, slot: u8, out: &mut PlainSlotView) -> u32
        ensures ok { result ≡ OK
            → IsSeen (writer_of self.now) who × (out.new ≡ slot_view (box_in self.now.shard.state who) slot) }
        ensures unchanged { result ≢ OK → out.new ≡ out.old }
        ensures why_not { result ≢ OK → WhyNoSlot (writer_of self.now) who slot result }
    {
        if !self.is_free() {
            return answer::WAITS;
        }
        let boxes = self.shard.boxes();
        if boxes.len() <= who as usize {
            return answer::NO_BOX;
        }
        let part = &boxes[who as usize];
        if part.slots().len() <= slot as usize {
            return answer::NO_SLOT;
        }
        *out = PlainSlotView::of(part, slot);
        answer::OK
    }

    /// Makes the turn of the event that the numbers say, or tells that it had been made. Answers a code.
    pub fn request(
        &mut self,
        alloc: Global,
        asked: &PlainAsked,
        who: u32,
        plain: &PlainEvent,
        known: u64,
        made: &mut u8,
    ) -> u32
        ensures ok { result ≡ OK
            → HasRequested (writer_of self.old) asked.now who plain.now known (writer_of self.new) made.new }
        ensures unchanged { result ≢ OK → (writer_of self.new ≡ writer_of self.old) × (made.new ≡ 0) }
        ensures why_not { result ≢ OK → WhyNotRequested (writer_of self.old) asked.now who plain.now known result }
    {
        *made = 0;
        if !self.is_free() {
            return answer::WAITS;
        }
        if !asked.is_asked() {
            return answer::INVALID;
        }
        let Some(event) = plain.event() else {
            return answer::INVALID;
        };
        match self.shard.request(alloc, asked.asked(), who, event, known) {
            Ok(Some(entry)) => {
                self.made = Some(entry);
                *made = 1;
                answer::OK
            }
            Ok(None) => answer::OK,
            Err(why) => answer::code_of(why),
        }
    }

    /// Makes the turn that takes the signal that the numbers say, or tells that it had been taken. Answers a code.
    pub fn arrive(&mut self, alloc: Global, plain: &PlainAtEnd, made: &mut u8) -> u32
        ensures ok { result ≡ OK
            → HasArrived (writer_of self.old) plain.now (writer_of self.new) made.new }
        ensures unchanged { result ≢ OK → (writer_of self.new ≡ writer_of self.old) × (made.new ≡ 0) }
        ensures why_not { result ≢ OK → WhyNotArrived (writer_of self.old) plain.now result }
    {
        *made = 0;
        if !self.is_free() {
            return answer::WAITS;
        }
        let Some(at) = plain.at() else {
            return answer::INVALID;
        };
        match self.shard.arrive(alloc, at) {
            Ok(Some(entry)) => {
                self.made = Some(entry);
                *made = 1;
                answer::OK
            }
            Ok(None) => answer::OK,
            Err(why) => answer::code_of(why),
        }
    }

    /// The bytes of the entry that waits come into `bytes`. Answers a code.
    pub fn write(&self, alloc: Global, bytes: &mut [u8], count: &mut usize) -> u32
        ensures ok { result ≡ OK → HasWritten (writer_of self.now) bytes.old bytes.new count.new }
        ensures unchanged { result ≢ OK → (bytes.new ≡ bytes.old) × (count.new ≡ 0) }
        ensures why_not { result ≢ OK → WhyNotWritten (writer_of self.now) (length bytes.old) result }
        ensures enough { result ≡ NO_ROOM → length bytes.old < ENTRY_ROOM }
    {
        match &self.made {
            Some(entry) => write_into(alloc, entry, bytes, count),
            None => {
                *count = 0;
                answer::NONE_WAITS
            }
        }
    }

    /// The entry that waited stands, and what it sent comes into `out`. Answers a code.
    pub fn stands(&mut self, out: &mut [PlainAtEnd], count: &mut usize) -> u32
        ensures ok { result ≡ OK → HasStood (writer_of self.old) (writer_of self.new) out.old out.new count.new }
        ensures unchanged { result ≢ OK
            → (writer_of self.new ≡ writer_of self.old) × (out.new ≡ out.old) × (count.new ≡ 0) }
        ensures why_not { result ≢ OK → WhyNotStood (writer_of self.old) (length out.old) result }
        ensures enough { result ≡ NO_ROOM → length out.old < SENT_LIMIT }
    {
        *count = 0;
        match &self.made {
            Some(entry) => {
                if out.len() < entry.sent.len() {
                    return answer::NO_ROOM;
                }
                *count = give(&entry.sent, out);
            }
            None => return answer::NONE_WAITS,
        }
        self.made = None;
        answer::OK
    }
}
