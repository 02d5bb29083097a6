// A shard, and the entry that is on its way into its journal.

ghost use Rattle.std.specs.Prelude.{◌≡◌, ◌≤◌, true, false, IfErr, IfOk, MatchBool, MatchOption, None, OnErr};
ghost use Rattle.mc_shard.specs.Refusals.{HindersAsked, HindersTake, WasAsked};
ghost use Rattle.mc_shard.specs.Shards.{IsOf, IsTaking, stamp_above};
ghost use Rattle.mc_shard.specs.States.{count_at};
ghost use Rattle.mc_entry.specs.Wire.{Writes, entry_wire};
ghost use Rattle.mc_shard_writer.specs.Writers.{Hinders, IsMadeBy, Waits};

use crate::refused::NoTurn;
use mc_box::{Event, MediaBox};
use mc_entry::write_entry;
use mc_shard::{Asked, AtEnd, Entry, Shard};
use std::alloc::{AllocError, Global};
use std::marker::Model;

/// A shard whose journal is written elsewhere, one entry at a time. The entry of a turn is given as bytes alone until
/// it stands there; until then no turn is made, and nobody sees the boxes or what was sent. Where its writing failed,
/// or nothing is known of it, the writer is dropped, and the shard is made again from its journal.
#[derive(Drop)]
pub struct ShardWriter {
    shard: Shard,
    made: Option<Entry>,
}

impl Model for ShardWriter {
    ghost use Rattle.mc_shard_writer.specs.Writers.{WriterState};

    ghost Value = { WriterState };

    ghost use Rattle.mc_shard_writer.specs.Writers.{FitsForm, writer_of};

    ghost view = { λ writer. writer_of writer.shard writer.made };

    ghost invariant = { λ writer. FitsForm writer.made };
}

impl ShardWriter {
    /// The writer of a shard, all of whose entries stand.
    pub fn new(shard: Shard) -> ShardWriter
        ensures { result ≡ record { shard = shard; made = None } }
    {
        ShardWriter { shard, made: None }
    }

    // Whether no entry waits.
    fn is_free(&self) -> bool
        ensures { MatchBool result (self.now.made ≡ None) (Waits self.now) }
    {
        match &self.made {
            Some(_) => false,
            None => true,
        }
    }

    /// Makes the turn of an event that is asked for, as `Shard::request` does. Whether it made one: a request that was
    /// made already makes none. It is refused while an entry waits.
    pub fn request(
        &mut self,
        alloc: Global,
        asked: Option<Asked>,
        who: u32,
        event: Event,
        known: u64,
    ) -> Result<bool, NoTurn>
        ensures made { IfOk result (λ made. MatchBool made
            (IsMadeBy self.old self.new
            (λ entry. IsOf entry asked who event None (stamp_above self.old.shard known)))
            ((self.new ≡ self.old) × WasAsked self.old.shard.state.asked asked)) }
        ensures same { OnErr result (self.new ≡ self.old) }
        ensures why { IfErr result (λ why. Hinders why self.old
            (λ refused. HindersAsked refused self.old.shard asked who event known)) }
    {
        if !self.is_free() {
            return Err(NoTurn::Waits);
        }
        match self.shard.request(alloc, asked, who, event, known) {
            Ok(Some(entry)) => {
                self.made = Some(entry);
                Ok(true)
            }
            Ok(None) => Ok(false),
            Err(refused) => Err(NoTurn::Refused(refused)),
        }
    }

    /// Makes the turn that takes a signal that arrives, as `Shard::arrive` does. Whether it made one: a signal that was
    /// taken already makes none. It is refused while an entry waits.
    pub fn arrive(&mut self, alloc: Global, at: AtEnd) -> Result<bool, NoTurn>
        ensures took { IfOk result (λ took. MatchBool took
            (IsMadeBy self.old self.new (λ entry. IsTaking entry at (stamp_above self.old.shard at.item.stamp)))
            ((self.new ≡ self.old) × (at.item.number ≤ count_at self.old.shard.state.taken at.end))) }
        ensures same { OnErr result (self.new ≡ self.old) }
        ensures why { IfErr result (λ why. Hinders why self.old
            (λ refused. HindersTake refused self.old.shard at)) }
    {
        if !self.is_free() {
            return Err(NoTurn::Waits);
        }
        match self.shard.arrive(alloc, at) {
            Ok(Some(taking)) => {
                self.made = Some(taking);
                Ok(true)
            }
            Ok(None) => Ok(false),
            Err(refused) => Err(NoTurn::Refused(refused)),
        }
    }

    /// Appends the bytes of the entry that waits. Whether there is one. It fails only for want of memory.
    pub fn write(&self, out: &mut Vec<u8>) -> Result<bool, AllocError>
        ensures { IfOk result (λ wrote. MatchOption self.now.made
            ((wrote ≡ false) × (out.new.items ≡ out.old.items))
            (λ entry. (wrote ≡ true) × Writes out.old.items out.new.items (entry_wire entry))) }
    {
        match &self.made {
            Some(entry) => {
                write_entry(entry, out)?;
                Ok(true)
            }
            None => Ok(false),
        }
    }

    /// The entry that waited stands in the journal now: what it sent may be seen, and another turn made.
    pub fn stands(&mut self) -> Option<Entry>
        ensures given { result ≡ self.old.made }
        ensures stands { self.new ≡ record self.old { made = None } }
    {
        self.made.take()
    }

    /// The boxes by their numbers, where no entry waits.
    pub fn boxes(&self) -> Option<&[MediaBox]>
        ensures { MatchOption result (Waits self.now)
            (λ boxes. (self.now.made ≡ None) × (boxes.now ≡ self.now.shard.state.boxes)) }
    {
        match &self.made {
            Some(_) => None,
            None => Some(self.shard.boxes()),
        }
    }
}
