// A shard.

ghost use Rattle.std.specs.Prelude.{◌≡◌, ◌<◌, ◌≤◌, length, IfErr, IfOk, IfSome, MatchOption, OnErr, Ok, Err, None};
ghost use Rattle.mc_shard.specs.Refusals.{HindersAsked, HindersTake, IsAskedAhead, LacksAsker, RefusesAt, WasAsked};
ghost use Rattle.mc_shard.specs.Shards.{AreLaid, IsMade, IsOf, IsShaped, IsTaking, first_state, shard_of, stamp_above};
ghost use Rattle.mc_shard.specs.States.{IsJournal, count_at, state_after};
ghost use Rattle.mc_shard.specs.declared.limit.TheConstants.{SENT_LIMIT};

use crate::entry::{Asked, AtEnd, Entry};
use crate::parts::ShardParts;
use crate::places::SlotPlaces;
use crate::refused::{Refused, ReplayRefused};
use mc_box::{Event, MediaBox};
use std::alloc::{AllocError, Global};
use std::marker::Model;

/// Boxes that are owned, journalled and begun again as one. A shard numbers its boxes and its channel ends from 0 on;
/// it has one stamp, which each turn raises, so its journal is sorted as it stands.
#[derive(Drop)]
pub struct Shard {
    parts: ShardParts,
}

impl Model for Shard {
    ghost use Rattle.mc_shard.specs.Shards.{LaidShard};

    ghost Value = { LaidShard };

    ghost use Rattle.mc_shard.specs.Shards.{IsShaped, shard_of};

    ghost view = { λ shard. shard_of shard.parts };

    ghost invariant = { λ shard. IsShaped (shard_of shard.parts) };
}

impl Shard {
    /// A shard of these boxes, with the places of their slots, for each channel end its box, and so many askers. Nothing
    /// was sent, taken or asked yet. `are_laid` tests whether boxes, places and owners fit together.
    pub fn new(
        alloc: Global,
        boxes: Vec<MediaBox>,
        places: Vec<SlotPlaces>,
        owners: Vec<u32>,
        askers: u32,
    ) -> Result<Shard, AllocError>
        requires { AreLaid boxes.items places.items owners.items }
        ensures { IfOk result (λ made. made ≡ record {
          places = places.items;
          owners = owners.items;
          state = first_state boxes.items (length owners.items) askers;
        }) }
    {
        Ok(Shard {
            parts: ShardParts::new(alloc, boxes, places, owners, askers)?,
        })
    }

    /// The shard that has these parts, as of one that was written down. None where no shard keeps such parts: they
    /// don't fit together, the stamp is past the last one, or more was sent or taken than so many turns can.
    pub fn from_parts(parts: ShardParts) -> Option<Shard>
        ensures { MatchOption result (IsShaped (shard_of parts) → ⊥) (λ made. made ≡ shard_of parts) }
    {
        if !parts.is_shaped() {
            return None;
        }
        Some(Shard { parts })
    }

    /// All that the shard keeps, to be written down.
    pub fn parts(&self) -> &ShardParts
        ensures { shard_of result.now ≡ self.now }
    {
        &self.parts
    }

    /// What every shard keeps, for a caller to rest on: each box has its places, each end its counts and its box.
    pub fn keeps(&self)
        ensures { IsShaped self.now }
    {
        let _ = &self.parts;
    }

    /// The boxes, by their numbers.
    pub fn boxes(&self) -> &[MediaBox]
        ensures { result.now ≡ self.now.state.boxes }
    {
        &self.parts.boxes
    }

    /// The stamp of the last turn: 0 before the first.
    pub fn stamp(&self) -> u64
        ensures { result ≡ self.now.state.stamp }
    {
        self.parts.stamp
    }

    /// An event that takes nothing, as it is asked for: the entry that it makes, with the least stamp above that of the
    /// last turn and above one that the asker knows of. What the shard asks itself has no number. Of an asker, one that
    /// was made already changes nothing; `Refused::NoAsker` and `Refused::Ahead` come before other refusals.
    pub fn request(
        &mut self,
        alloc: Global,
        asked: Option<Asked>,
        who: u32,
        event: Event,
        known: u64,
    ) -> Result<Option<Entry>, Refused>
        ensures made { IfOk result (λ made. MatchOption made
            ((self.new ≡ self.old) × WasAsked self.old.state.asked asked)
            (λ entry. IsMade self.old self.new entry
            × IsOf entry asked who event None (stamp_above self.old known))) }
        ensures few { IfOk result (λ made. IfSome made (λ entry. length entry.sent ≤ SENT_LIMIT)) }
        ensures same { OnErr result (self.new ≡ self.old) }
        ensures had { WasAsked self.old.state.asked asked → result ≡ Ok None }
        ensures early { (LacksAsker self.old.state.asked asked → result ≡ Err Refused.NoAsker)
            × (IsAskedAhead self.old.state.asked asked → result ≡ Err Refused.Ahead) }
        ensures why { IfErr result (λ why. HindersAsked why self.old asked who event known) }
    {
        self.parts.request(alloc, asked, who, event, known)
    }

    /// A signal that arrives at a channel end: the entry that takes it, where it is the next of its lane, by its number
    /// and its digest. One that was taken already changes nothing, and one that comes too early is refused until it is
    /// its turn. `Refused::Digest` says that its sender lost signals that were taken here, and sent others.
    pub fn arrive(&mut self, alloc: Global, at: AtEnd) -> Result<Option<Entry>, Refused>
        ensures took { IfOk result (λ made. MatchOption made
            ((self.new ≡ self.old) × (at.item.number ≤ count_at self.old.state.taken at.end))
            (λ entry. IsMade self.old self.new entry × IsTaking entry at (stamp_above self.old at.item.stamp))) }
        ensures few { IfOk result (λ made. IfSome made (λ entry. length entry.sent ≤ SENT_LIMIT)) }
        ensures same { OnErr result (self.new ≡ self.old) }
        ensures had { at.end < length self.old.state.taken
            → at.item.number ≤ count_at self.old.state.taken at.end → result ≡ Ok None }
        ensures why { IfErr result (λ why. HindersTake why self.old at) }
    {
        self.parts.arrive(alloc, at)
    }

    /// The shard after a journal: each entry is made again and compared. Where the boxes make another entry, or memory
    /// runs out, the shard is gone, and the fault says at which entry.
    pub fn replay(self, alloc: Global, journal: &[Entry]) -> Result<Shard, ReplayRefused>
        ensures is { IfOk result (λ after. IsJournal self.places self.state journal.now) }
        ensures after { IfOk result (λ after. after
            ≡ record self { state = state_after self.state journal.now }) }
        ensures why { IfErr result (λ fault. RefusesAt self.places self.state journal.now fault.index fault.why) }
    {
        let mut shard = self;
        shard.parts.replay(alloc, journal)?;
        Ok(shard)
    }
}
