//! Snapshots as C gets them and hands them in.

ghost use Rattle.std.specs.Prelude.{◌≡◌, ◌≢◌, ◌<◌, ◌++◌, IfErr, IfOk, MatchBool, drop, length};
ghost use Rattle.mc_shard.specs.States.{count_at};
ghost use Rattle.mc_shard_c.specs.Handles.{writer_of};
ghost use Rattle.mc_shard_c.specs.Saving.{AreNoSnapshot, IsLoaded, IsSaved, WhyNotSaved};
ghost use Rattle.mc_shard_c.specs.declared.answer.TheConstants.{OK};
ghost use Rattle.mc_snapshot.specs.declared.shards.SnapshotFault.TheVariants as SnapshotFault;

use crate::answer;
use crate::held::HeldShard;
use crate::writing::put_in_front;
use mc_shard::{Reached, Shard};
use mc_snapshot::{SnapshotFault, read_shard, write_shard};
use std::alloc::Global;

/// How many signals were taken at an end.
pub fn count_at(lanes: &Vec<Reached>, end: u32) -> u64
    requires { end < length lanes.now.items }
    ensures { result ≡ count_at lanes.now.items end }
{
    lanes[end as usize].count
}

// These bytes come in front of the others, where there is room for them, and how many they are into `count` anyway.
// Answers whether there was room.
fn put_if_room(form: &[u8], bytes: &mut [u8], count: &mut usize) -> bool
    ensures count { count.new ≡ length form.now }
    ensures put { MatchBool result (bytes.new ≡ form.now ++ drop (length form.now) bytes.old)
        ((length bytes.old < length form.now) × (bytes.new ≡ bytes.old)) }
{
    *count = form.len();
    if bytes.len() < form.len() {
        return false;
    }
    put_in_front(form, bytes);
    true
}

/// The bytes of a shard's snapshot come into `bytes`, and how many they are into `count`, also where there is no room
/// for them. Answers a code.
pub fn save_into(alloc: Global, shard: &Shard, bytes: &mut [u8], count: &mut usize) -> u32
    ensures ok { result ≡ OK → IsSaved shard.now bytes.old bytes.new count.new }
    ensures unchanged { result ≢ OK → bytes.new ≡ bytes.old }
    ensures why_not { result ≢ OK → WhyNotSaved shard.now (length bytes.old) count.new result }
{
    *count = 0;
    let mut form = Vec::new(alloc);
    if write_shard(shard, &mut form).is_err() {
        return answer::MEMORY;
    }
    if put_if_room(&form, bytes, count) {
        answer::OK
    } else {
        answer::NO_ROOM
    }
}

/// The shard whose snapshot the bytes are, of which no entry waits.
pub fn load(alloc: Global, bytes: &[u8]) -> Result<Box<HeldShard>, SnapshotFault>
    ensures loaded { IfOk result (λ held. IsLoaded bytes.now (writer_of held.value)) }
    ensures none { IfErr result (λ why. why ≡ SnapshotFault.NoShard → AreNoSnapshot bytes.now) }
{
    match read_shard(alloc, bytes) {
        Ok(shard) => match Box::new(alloc, HeldShard { shard, made: None }) {
            Ok(held) => Ok(held),
            Err(_) => Err(SnapshotFault::NoMemory),
        },
        Err(why) => Err(why),
    }
}
