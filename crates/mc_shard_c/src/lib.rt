//! A shard of boxes for programs in C: `include/media_shard.h` declares what is exported here, in the words of C.
#![tactic(auto)]

ghost use Rattle.std.specs.Prelude.{◌≡◌, ◌≢◌, ◌<◌, ◌==◌, ◌||◌, IsTrue, true, false, is_some, None, length};
ghost use Rattle.mc_plain.specs.Texts.{padded};
ghost use Rattle.mc_plain.specs.Views.{box_view, slot_view};
ghost use Rattle.mc_shard.specs.States.{box_in, count_at};
ghost use Rattle.mc_shard.specs.declared.limit.TheConstants.{SENT_LIMIT};
ghost use Rattle.mc_shard_writer.specs.Writers.{Waits};
ghost use Rattle.mc_shard_c.specs.Entries.{HasRead, HasReplayed, StaysOrGone, WhyNotRead};
ghost use Rattle.mc_shard_c.specs.Exports.{writer_in};
ghost use Rattle.mc_shard_c.specs.Handles.{Between, Of};
ghost use Rattle.mc_shard_c.specs.Laying.{SaysNoShard, SaysWriter};
ghost use Rattle.mc_shard_c.specs.Saving.{AreNoSnapshot, IsEndSeen, HasJudged, HasSaved, IsLoaded, WhyNoSnapshot, WhyNotJudged, WhyNotTold};
ghost use Rattle.mc_shard_c.specs.Seeing.{IsSeen, WhyNoBox, WhyNoSlot};
ghost use Rattle.mc_shard_c.specs.Texts.{is_code, text_of};
ghost use Rattle.mc_shard_c.specs.Turns.{HasArrived, HasRequested, HasStood, HasWritten, WhyNotArrived, WhyNotRequested, WhyNotStood, WhyNotWritten};
ghost use Rattle.mc_shard_c.specs.declared.answer.TheConstants.{OK, MEMORY, INVALID, NO_ROOM, NO_SHARD, HAS_SHARD, WAITS, NO_SNAPSHOT};
ghost use Rattle.mc_shard_c.specs.declared.writing.TheConstants.{ENTRY_ROOM};

mod answer;
mod at_end;
mod boxes;
mod entry;
mod handle;
mod held;
mod kept;
pub mod laws;
mod laying;
mod replaying;
mod saving;
mod writing;

use at_end::{PlainAsked, PlainAtEnd};
use boxes::{PlainShardBox, PlainShardSlot};
use entry::PlainEntry;
use handle::Handle;
use held::HeldShard;
use laying::shard_of;
use mc_plain::asked::PlainEvent;
use mc_plain::program::PlainState;
use mc_plain::text::PlainText;
use mc_plain::view::{PlainBoxView, PlainSlotView};
use mc_snapshot::SnapshotFault;
use std::alloc::Global;

/// The version of the interface. It changes with each change that C would see.
pub const VERSION: u32 = 2;

/// The version of the interface, which the header has, too.
#[unsafe(no_mangle)]
pub extern "C" fn media_shard_version() -> u32
    ensures { result ≡ 2 }
{
    VERSION
}

/// What a code says comes into `out`.
#[unsafe(no_mangle)]
pub extern "C" fn media_shard_text(code: u32, out: &mut PlainText) -> u32
    ensures ok { result ≡ OK → out.new.at ≡ padded (text_of code) }
    ensures unchanged { result ≢ OK → out.new ≡ out.old }
    ensures invalid { result ≡ INVALID → is_code code ≡ false }
    ensures codes { IsTrue (result == OK || result == INVALID) }
{
    match answer::text(code) {
        Some(text) => {
            *out = PlainText::of(text);
            answer::OK
        }
        None => answer::INVALID,
    }
}

/// Makes the shard that the numbers say. The handle must have none.
#[unsafe(no_mangle)]
pub extern "C" fn media_shard_make(
    alloc: Global,
    handle: &mut Handle,
    boxes: &[PlainShardBox],
    slots: &[PlainShardSlot],
    states: &[PlainState],
    end_count: u32,
    askers: u32,
) -> u32
    ensures made { result ≡ OK
        → Of (writer_in handle.new) (SaysWriter boxes.now slots.now states.now end_count askers) }
    ensures first { result ≡ OK → writer_in handle.old ≡ None }
    ensures unchanged { result ≢ OK → writer_in handle.new ≡ writer_in handle.old }
    ensures has_shard { result ≡ HAS_SHARD → is_some (writer_in handle.old) ≡ true }
    ensures invalid { result ≡ INVALID → SaysNoShard boxes.now slots.now states.now end_count askers }
    ensures codes { IsTrue (result == OK || result == HAS_SHARD || result == MEMORY || result == INVALID) }
{
    if handle.has_shard() {
        return answer::HAS_SHARD;
    }
    match shard_of(alloc, boxes, slots, states, end_count, askers) {
        Ok(shard) => match Box::new(alloc, HeldShard { shard, made: None }) {
            Ok(held) => {
                handle.close(held);
                answer::OK
            }
            Err(_) => answer::MEMORY,
        },
        Err(why) => why.code(),
    }
}

/// Ends the shard, and gives its memory back. The handle has none then.
#[unsafe(no_mangle)]
pub extern "C" fn media_shard_end(alloc: Global, handle: &mut Handle) -> u32
    ensures ended { writer_in handle.new ≡ None }
    ensures was_here { result ≡ OK → is_some (writer_in handle.old) ≡ true }
    ensures no_shard { result ≡ NO_SHARD → writer_in handle.old ≡ None }
    ensures codes { IsTrue (result == OK || result == NO_SHARD) }
{
    match handle.open(alloc) {
        Some(held) => {
            drop(held);
            answer::OK
        }
        None => answer::NO_SHARD,
    }
}

/// The stamp of the last turn that stands comes into `stamp`.
#[unsafe(no_mangle)]
pub extern "C" fn media_shard_stamp(alloc: Global, handle: &mut Handle, stamp: &mut u64) -> u32
    ensures ok { result ≡ OK → Of (writer_in handle.old)
        (λ old. (old.made ≡ None) × (stamp.new ≡ old.shard.state.stamp)) }
    ensures unchanged { writer_in handle.new ≡ writer_in handle.old }
    ensures not { result ≢ OK → stamp.new ≡ stamp.old }
    ensures no_shard { result ≡ NO_SHARD → writer_in handle.old ≡ None }
    ensures waits { result ≡ WAITS → Of (writer_in handle.old) Waits }
    ensures codes { IsTrue (result == OK || result == NO_SHARD || result == WAITS) }
{
    match handle.open(alloc) {
        Some(held) => {
            let code = held.stamp(stamp);
            handle.close(held);
            code
        }
        None => answer::NO_SHARD,
    }
}

/// How many signals were taken at a channel end comes into `taken`.
#[unsafe(no_mangle)]
pub extern "C" fn media_shard_taken(
    alloc: Global,
    handle: &mut Handle,
    end: u32,
    taken: &mut u64,
) -> u32
    ensures ok { result ≡ OK → Of (writer_in handle.old)
        (λ old. IsEndSeen old end × (taken.new ≡ count_at old.shard.state.taken end)) }
    ensures unchanged { writer_in handle.new ≡ writer_in handle.old }
    ensures not { result ≢ OK → taken.new ≡ taken.old }
    ensures no_shard { result ≡ NO_SHARD → writer_in handle.old ≡ None }
    ensures why_not { result ≢ OK → result ≢ NO_SHARD → Of (writer_in handle.old)
        (λ old. WhyNotTold old end result) }
{
    match handle.open(alloc) {
        Some(held) => {
            let code = held.taken(end, taken);
            handle.close(held);
            code
        }
        None => answer::NO_SHARD,
    }
}

/// The bytes of the shard's snapshot come into `bytes`, and how many they are into `count`, also where there is no room
/// for them.
#[unsafe(no_mangle)]
pub extern "C" fn media_shard_save(
    alloc: Global,
    handle: &mut Handle,
    bytes: &mut [u8],
    count: &mut usize,
) -> u32
    ensures ok { result ≡ OK → Of (writer_in handle.old)
        (λ old. HasSaved old bytes.old bytes.new count.new) }
    ensures unchanged { writer_in handle.new ≡ writer_in handle.old }
    ensures not { result ≢ OK → bytes.new ≡ bytes.old }
    ensures no_shard { result ≡ NO_SHARD → (writer_in handle.old ≡ None) × (count.new ≡ 0) }
    ensures why_not { result ≢ OK → result ≢ NO_SHARD → Of (writer_in handle.old)
        (λ old. WhyNoSnapshot old (length bytes.old) count.new result) }
{
    match handle.open(alloc) {
        Some(held) => {
            let code = held.save(alloc, bytes, count);
            handle.close(held);
            code
        }
        None => {
            *count = 0;
            answer::NO_SHARD
        }
    }
}

/// Makes the shard whose snapshot the bytes are. The handle must have none.
#[unsafe(no_mangle)]
pub extern "C" fn media_shard_load(alloc: Global, handle: &mut Handle, bytes: &[u8]) -> u32
    ensures loaded { result ≡ OK → Of (writer_in handle.new) (IsLoaded bytes.now) }
    ensures first { result ≡ OK → writer_in handle.old ≡ None }
    ensures unchanged { result ≢ OK → writer_in handle.new ≡ writer_in handle.old }
    ensures has_shard { result ≡ HAS_SHARD → is_some (writer_in handle.old) ≡ true }
    ensures no_snapshot { result ≡ NO_SNAPSHOT → AreNoSnapshot bytes.now }
    ensures codes { IsTrue (result == OK || result == HAS_SHARD || result == MEMORY || result == NO_SNAPSHOT) }
{
    if handle.has_shard() {
        return answer::HAS_SHARD;
    }
    match saving::load(alloc, bytes) {
        Ok(held) => {
            handle.close(held);
            answer::OK
        }
        Err(SnapshotFault::NoShard) => answer::NO_SNAPSHOT,
        Err(SnapshotFault::NoMemory) => answer::MEMORY,
    }
}

/// What there is to see of a box comes into `out`.
#[unsafe(no_mangle)]
pub extern "C" fn media_shard_see_box(
    alloc: Global,
    handle: &mut Handle,
    who: u32,
    out: &mut PlainBoxView,
) -> u32
    ensures ok { result ≡ OK → Of (writer_in handle.old)
        (λ old. IsSeen old who × (out.new ≡ box_view (box_in old.shard.state who))) }
    ensures unchanged { writer_in handle.new ≡ writer_in handle.old }
    ensures not { result ≢ OK → out.new ≡ out.old }
    ensures no_shard { result ≡ NO_SHARD → writer_in handle.old ≡ None }
    ensures why_not { result ≢ OK → result ≢ NO_SHARD → Of (writer_in handle.old)
        (λ old. WhyNoBox old who result) }
{
    match handle.open(alloc) {
        Some(held) => {
            let code = held.see_box(who, out);
            handle.close(held);
            code
        }
        None => answer::NO_SHARD,
    }
}

/// What there is to see of a slot of a box comes into `out`.
#[unsafe(no_mangle)]
pub extern "C" fn media_shard_see_slot(
    alloc: Global,
    handle: &mut Handle,
    who: u32,
    slot: u8,
    out: &mut PlainSlotView,
) -> u32
    ensures ok { result ≡ OK → Of (writer_in handle.old)
        (λ old. IsSeen old who × (out.new ≡ slot_view (box_in old.shard.state who) slot)) }
    ensures unchanged { writer_in handle.new ≡ writer_in handle.old }
    ensures not { result ≢ OK → out.new ≡ out.old }
    ensures no_shard { result ≡ NO_SHARD → writer_in handle.old ≡ None }
    ensures why_not { result ≢ OK → result ≢ NO_SHARD → Of (writer_in handle.old)
        (λ old. WhyNoSlot old who slot result) }
{
    match handle.open(alloc) {
        Some(held) => {
            let code = held.see_slot(who, slot, out);
            handle.close(held);
            code
        }
        None => answer::NO_SHARD,
    }
}

/// Makes the turn of the event that the numbers say, for who asks. Its entry waits, where `made` is 1 then. Where it is
/// 0 the request had been made already.
#[unsafe(no_mangle)]
pub extern "C" fn media_shard_request(
    alloc: Global,
    handle: &mut Handle,
    asked: &PlainAsked,
    who: u32,
    event: &PlainEvent,
    known: u64,
    made: &mut u8,
) -> u32
    ensures ok { result ≡ OK → Between (writer_in handle.old) (writer_in handle.new)
        (λ old new. HasRequested old asked.now who event.now known new made.new) }
    ensures unchanged { result ≢ OK → (writer_in handle.new ≡ writer_in handle.old) × (made.new ≡ 0) }
    ensures no_shard { result ≡ NO_SHARD → writer_in handle.old ≡ None }
    ensures why_not { result ≢ OK → result ≢ NO_SHARD → Of (writer_in handle.old)
        (λ old. WhyNotRequested old asked.now who event.now known result) }
{
    match handle.open(alloc) {
        Some(mut held) => {
            let code = held.request(alloc, asked, who, event, known, made);
            handle.close(held);
            code
        }
        None => {
            *made = 0;
            answer::NO_SHARD
        }
    }
}

/// Makes the turn that takes the signal that the numbers say. Its entry waits, where `made` is 1 then. Where it is 0
/// the signal had been taken already.
#[unsafe(no_mangle)]
pub extern "C" fn media_shard_arrive(
    alloc: Global,
    handle: &mut Handle,
    at: &PlainAtEnd,
    made: &mut u8,
) -> u32
    ensures ok { result ≡ OK → Between (writer_in handle.old) (writer_in handle.new)
        (λ old new. HasArrived old at.now new made.new) }
    ensures unchanged { result ≢ OK → (writer_in handle.new ≡ writer_in handle.old) × (made.new ≡ 0) }
    ensures no_shard { result ≡ NO_SHARD → writer_in handle.old ≡ None }
    ensures why_not { result ≢ OK → result ≢ NO_SHARD → Of (writer_in handle.old)
        (λ old. WhyNotArrived old at.now result) }
{
    match handle.open(alloc) {
        Some(mut held) => {
            let code = held.arrive(alloc, at, made);
            handle.close(held);
            code
        }
        None => {
            *made = 0;
            answer::NO_SHARD
        }
    }
}

/// The bytes of the entry that waits come into `bytes`, and how many that are into `count`.
#[unsafe(no_mangle)]
pub extern "C" fn media_shard_write(
    alloc: Global,
    handle: &mut Handle,
    bytes: &mut [u8],
    count: &mut usize,
) -> u32
    ensures ok { result ≡ OK → Of (writer_in handle.old)
        (λ old. HasWritten old bytes.old bytes.new count.new) }
    ensures unchanged { writer_in handle.new ≡ writer_in handle.old }
    ensures not { result ≢ OK → (bytes.new ≡ bytes.old) × (count.new ≡ 0) }
    ensures no_shard { result ≡ NO_SHARD → writer_in handle.old ≡ None }
    ensures why_not { result ≢ OK → result ≢ NO_SHARD → Of (writer_in handle.old)
        (λ old. WhyNotWritten old (length bytes.old) result) }
    ensures enough { result ≡ NO_ROOM → length bytes.old < ENTRY_ROOM }
{
    match handle.open(alloc) {
        Some(held) => {
            let code = held.write(alloc, bytes, count);
            handle.close(held);
            code
        }
        None => {
            *count = 0;
            answer::NO_SHARD
        }
    }
}

/// The entry that waited stands in the journal. What it sent comes into `out`, and how much that is into `count`.
#[unsafe(no_mangle)]
pub extern "C" fn media_shard_stands(
    alloc: Global,
    handle: &mut Handle,
    out: &mut [PlainAtEnd],
    count: &mut usize,
) -> u32
    ensures ok { result ≡ OK → Between (writer_in handle.old) (writer_in handle.new)
        (λ old new. HasStood old new out.old out.new count.new) }
    ensures unchanged { result ≢ OK
        → (writer_in handle.new ≡ writer_in handle.old) × (out.new ≡ out.old) × (count.new ≡ 0) }
    ensures no_shard { result ≡ NO_SHARD → writer_in handle.old ≡ None }
    ensures why_not { result ≢ OK → result ≢ NO_SHARD → Of (writer_in handle.old)
        (λ old. WhyNotStood old (length out.old) result) }
    ensures enough { result ≡ NO_ROOM → length out.old < SENT_LIMIT }
{
    match handle.open(alloc) {
        Some(mut held) => {
            let code = held.stands(out, count);
            handle.close(held);
            code
        }
        None => {
            *count = 0;
            answer::NO_SHARD
        }
    }
}

/// The entry that bytes begin with, which is the next of the shard's own journal, is made again and compared. How many
/// of the bytes are its form comes into `size`. Where it isn't made again, the handle has no shard then.
#[unsafe(no_mangle)]
pub extern "C" fn media_shard_replay(
    alloc: Global,
    handle: &mut Handle,
    bytes: &[u8],
    size: &mut usize,
) -> u32
    ensures ok { result ≡ OK → Between (writer_in handle.old) (writer_in handle.new)
        (λ old new. HasReplayed old bytes.now new size.new) }
    ensures size { result ≢ OK → size.new ≡ 0 }
    ensures no_shard { result ≡ NO_SHARD → (writer_in handle.old ≡ None) × (writer_in handle.new ≡ None) }
    ensures why_not { result ≢ OK → result ≢ NO_SHARD → Of (writer_in handle.old)
        (λ old. StaysOrGone old (writer_in handle.new) bytes.now result) }
{
    replaying::replay(alloc, handle, bytes, size)
}

/// The entry that bytes begin with, of any shard's journal, comes into `entry`, and what it sent into `out`.
#[unsafe(no_mangle)]
pub extern "C" fn media_entry_read(
    alloc: Global,
    bytes: &[u8],
    entry: &mut PlainEntry,
    out: &mut [PlainAtEnd],
    count: &mut usize,
) -> u32
    ensures ok { result ≡ OK → HasRead bytes.now entry.new out.old out.new count.new }
    ensures unchanged { result ≢ OK → (entry.new ≡ entry.old) × (out.new ≡ out.old) × (count.new ≡ 0) }
    ensures why_not { result ≢ OK → WhyNotRead bytes.now (length out.old) result }
{
    entry::read_into(alloc, bytes, entry, out, count)
}

/// Whether the entry that bytes begin with, which a snapshot of its shard has, may be cut off the journal comes into
/// `may`, and how many of the bytes are its form into `size`. `taken` says for each channel end of the shard how many
/// signals the snapshot of the neighbour has taken.
#[unsafe(no_mangle)]
pub extern "C" fn media_entry_may_be_cut(
    alloc: Global,
    bytes: &[u8],
    taken: &[u64],
    may: &mut u8,
    size: &mut usize,
) -> u32
    ensures ok { result ≡ OK → HasJudged bytes.now taken.now may.new size.new }
    ensures not { result ≢ OK → (may.new ≡ 0) × (size.new ≡ 0) }
    ensures why_not { result ≢ OK → WhyNotJudged bytes.now result }
{
    entry::judge(alloc, bytes, taken, may, size)
}
