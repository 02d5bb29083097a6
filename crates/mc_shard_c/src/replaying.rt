//! Entries of the own journal, made again.

ghost use Rattle.std.specs.Prelude.{◌≡◌, ◌≢◌, None, IfErr, IfOk};
ghost use Rattle.mc_shard.specs.Refusals.{RefusesEntry};
ghost use Rattle.mc_shard.specs.Shards.{IsMade};
ghost use Rattle.mc_shard_c.specs.Entries.{HasReplayed, StaysOrGone};
ghost use Rattle.mc_shard_c.specs.Exports.{writer_in};
ghost use Rattle.mc_shard_c.specs.Handles.{Between, Of};
ghost use Rattle.mc_shard_c.specs.declared.answer.TheConstants.{OK, NO_SHARD};

use crate::answer;
use crate::handle::Handle;
use crate::held::HeldShard;
use mc_entry::{EntryFault, read_entry};
use mc_shard::{Entry, Refused, Shard};
use std::alloc::Global;

// The shard after the turn of an entry of its journal.
fn replay_one(alloc: Global, shard: Shard, entry: Entry) -> Result<Shard, Refused>
    ensures made { IfOk result (λ after. IsMade shard after entry) }
    ensures why { IfErr result (λ why. RefusesEntry why shard.places shard.state entry) }
{
    let journal = [entry];
    match shard.replay(alloc, &journal) {
        Ok(after) => Ok(after),
        Err(fault) => Err(fault.why),
    }
}

// The same of a shard on the heap, where no entry waits.
fn replay_held(alloc: Global, held: Box<HeldShard>, entry: Entry) -> Result<Box<HeldShard>, Refused>
    ensures made { IfOk result (λ after. IsMade held.value.shard after.value.shard entry × (after.value.made ≡ None)) }
    ensures why { IfErr result (λ why. RefusesEntry why held.value.shard.places held.value.shard.state entry) }
{
    let HeldShard { shard, made } = Box::into_inner(held);
    drop(made);
    match replay_one(alloc, shard, entry) {
        Ok(shard) => match Box::new(alloc, HeldShard { shard, made: None }) {
            Ok(held) => Ok(held),
            Err(_) => Err(Refused::NoMemory),
        },
        Err(why) => Err(why),
    }
}

/// The entry that bytes begin with is made again, as `media_shard_replay` says. Answers a code.
pub fn replay(alloc: Global, handle: &mut Handle, bytes: &[u8], size: &mut usize) -> u32
    ensures ok { result ≡ OK → Between (writer_in handle.old) (writer_in handle.new)
        (λ old new. HasReplayed old bytes.now new size.new) }
    ensures size { result ≢ OK → size.new ≡ 0 }
    ensures no_shard { result ≡ NO_SHARD → (writer_in handle.old ≡ None) × (writer_in handle.new ≡ None) }
    ensures why_not { result ≢ OK → result ≢ NO_SHARD → Of (writer_in handle.old)
        (λ old. StaysOrGone old (writer_in handle.new) bytes.now result) }
{
    *size = 0;
    let Some(held) = handle.open(alloc) else {
        return answer::NO_SHARD;
    };
    if !held.is_free() {
        handle.close(held);
        return answer::WAITS;
    }
    match read_entry(alloc, bytes) {
        Ok((entry, len)) => match replay_held(alloc, held, entry) {
            Ok(held) => {
                handle.close(held);
                *size = len;
                answer::OK
            }
            Err(why) => answer::code_of(why),
        },
        Err(EntryFault::NoEntry) => {
            handle.close(held);
            answer::NO_ENTRY
        }
        Err(EntryFault::NoMemory) => {
            drop(held);
            answer::MEMORY
        }
    }
}
