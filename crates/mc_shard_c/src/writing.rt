//! Entries as C gets them: their bytes, and what they sent.

ghost use Rattle.std.specs.Prelude.{◌≡◌, ◌≢◌, ◌<◌, ◌≤◌, ◌++◌, [], drop, length, map};
ghost use Rattle.mc_shard.specs.declared.limit.TheConstants.{SENT_LIMIT};
ghost use Rattle.mc_entry.specs.Wire.{entry_wire};
ghost use Rattle.mc_shard_c.specs.Asking.{plain_at};
ghost use Rattle.mc_shard_c.specs.Turns.{AreInFront, WhyNotPut};
ghost use Rattle.mc_shard_c.specs.declared.answer.TheConstants.{OK, NO_ROOM};
ghost use Rattle.mc_shard_c.specs.declared.writing.TheConstants.{ENTRY_ROOM};

use crate::answer;
use crate::at_end::PlainAtEnd;
use mc_entry::write_entry;
use mc_lane::Lane;
use mc_shard::{AtEnd, Entry};
use std::alloc::Global;

/// The most bytes that an entry of a shard takes.
pub const ENTRY_ROOM: usize = 6998;

/// These bytes come in front of the others.
pub fn put_in_front(form: &[u8], bytes: &mut [u8])
    requires { length form.now ≤ length bytes.old }
    ensures { bytes.new ≡ form.now ++ drop (length form.now) bytes.old }
{
    bytes[..form.len()].copy_from_slice(form);
}

/// The bytes of an entry come into `bytes`. Answers a code.
pub fn write_into(alloc: Global, entry: &Entry, bytes: &mut [u8], count: &mut usize) -> u32
    requires { length entry.now.sent ≤ SENT_LIMIT }
    ensures ok { result ≡ OK → AreInFront (entry_wire entry.now []) bytes.old bytes.new count.new }
    ensures unchanged { result ≢ OK → (bytes.new ≡ bytes.old) × (count.new ≡ 0) }
    ensures why_not { result ≢ OK → WhyNotPut (length (entry_wire entry.now [])) (length bytes.old) result }
    ensures enough { result ≡ NO_ROOM → length bytes.old < ENTRY_ROOM }
{
    *count = 0;
    let mut form = Vec::new(alloc);
    if write_entry(entry, &mut form).is_err() {
        return answer::MEMORY;
    }
    if bytes.len() < form.len() {
        return answer::NO_ROOM;
    }
    put_in_front(&form, bytes);
    *count = form.len();
    answer::OK
}

/// What was sent comes into `out`. Answers how much that is.
pub fn give(sent: &Lane<AtEnd>, out: &mut [PlainAtEnd]) -> usize
    requires { length sent.now.items ≤ length out.old }
    ensures { AreInFront (map plain_at sent.now.items) out.old out.new result }
{
    let count = sent.len();
    for i in 0..count {
        out[i].set(&sent.get(i));
    }
    count
}
