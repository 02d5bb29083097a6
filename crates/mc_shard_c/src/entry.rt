//! Entries as C reads them, and as they are replayed.

ghost use Rattle.std.specs.Prelude.{◌≡◌, ◌≢◌, length};
ghost use Rattle.mc_plain.specs.Views.{flag_number};
ghost use Rattle.mc_shard_c.specs.Entries.{goal_number, HasRead, WhyNotRead, plain_entry, plain_event, plain_taken, taken_number};
ghost use Rattle.mc_shard_c.specs.Saving.{HasJudged, SaysMayBeCut, WhyNotJudged};
ghost use Rattle.mc_shard_c.specs.declared.answer.TheConstants.{OK};

use crate::answer;
use crate::at_end::{PlainAsked, PlainAtEnd};
use crate::writing::give;
use mc_box::{Change, Event, MediaChange};
use mc_entry::{EntryFault, read_entry};
use mc_plain::asked::PlainEvent;
use mc_shard::{AtEnd, Entry, may_be_cut};
use mc_slot::Goal;
use std::alloc::Global;

/// An entry without what it sent: how many bytes it takes, the stamp of its turn, which box's it is, the event, which
/// request asked for it, and what it took, where `has_taken` is 1.
#[repr(C)]
#[derive(Clone, Copy)]
pub struct PlainEntry {
    pub size: usize,
    pub stamp: u64,
    pub who: u32,
    pub event: PlainEvent,
    pub asked: PlainAsked,
    pub has_taken: u8,
    pub taken: PlainAtEnd,
}

fn goal_number(goal: Goal) -> u8
    ensures { result ≡ goal_number goal }
{
    match goal {
        Goal::Open => 0,
        Goal::Close => 1,
        Goal::Hold => 2,
    }
}

fn plain_of(kind: u8, first: u8, second: u8) -> PlainEvent
    ensures { result ≡ record { kind = kind; first = first; second = second } }
{
    PlainEvent {
        kind,
        first,
        second,
    }
}

// The numbers of an event, and 7 for a taking.
fn plain_event(event: Event) -> PlainEvent
    ensures { result ≡ plain_event event }
{
    match event {
        Event::Take(slot) => plain_of(7, slot, 0),
        Event::Set(Change::End(slot, goal)) => plain_of(0, slot, goal_number(goal)),
        Event::Set(Change::Link(first, second)) => plain_of(1, first, second),
        Event::Media(MediaChange::Hear(slot, on)) => plain_of(2, slot, flag_number(on)),
        Event::Media(MediaChange::Talk(slot, on)) => plain_of(3, slot, flag_number(on)),
        Event::Tell(word) => plain_of(4, word, 0),
        Event::Retry(slot) => plain_of(5, slot, 0),
        Event::Shift => plain_of(6, 0, 0),
    }
}

fn flag_number(on: bool) -> u8
    ensures { result ≡ flag_number on }
{
    if on { 1 } else { 0 }
}

fn taken_number(taken: &Option<AtEnd>) -> u8
    ensures { result ≡ taken_number taken.now }
{
    match taken {
        Some(_) => 1,
        None => 0,
    }
}

// The numbers of what was taken, and zeros where nothing was.
fn plain_taken(taken: &Option<AtEnd>) -> PlainAtEnd
    ensures { result ≡ plain_taken taken.now }
{
    let mut plain = PlainAtEnd::none();
    if let Some(at) = taken {
        plain.set(at);
    }
    plain
}

impl PlainEntry {
    /// The numbers of an entry that takes so many bytes.
    pub fn of(entry: &Entry, size: usize) -> PlainEntry
        ensures { result ≡ plain_entry entry.now size }
    {
        PlainEntry {
            size,
            stamp: entry.stamp,
            who: entry.who,
            event: plain_event(entry.event),
            asked: PlainAsked::of(entry.asked),
            has_taken: taken_number(&entry.taken),
            taken: plain_taken(&entry.taken),
        }
    }
}

/// The entry that bytes begin with comes into `plain`, and what it sent into `out`. Answers a code.
pub fn read_into(
    alloc: Global,
    bytes: &[u8],
    plain: &mut PlainEntry,
    out: &mut [PlainAtEnd],
    count: &mut usize,
) -> u32
    ensures ok { result ≡ OK → HasRead bytes.now plain.new out.old out.new count.new }
    ensures unchanged { result ≢ OK → (plain.new ≡ plain.old) × (out.new ≡ out.old) × (count.new ≡ 0) }
    ensures why_not { result ≢ OK → WhyNotRead bytes.now (length out.old) result }
{
    *count = 0;
    match read_entry(alloc, bytes) {
        Ok((entry, size)) => {
            if out.len() < entry.sent.len() {
                return answer::NO_ROOM;
            }
            *plain = PlainEntry::of(&entry, size);
            *count = give(&entry.sent, out);
            answer::OK
        }
        Err(EntryFault::NoEntry) => answer::NO_ENTRY,
        Err(EntryFault::NoMemory) => answer::MEMORY,
    }
}

// 1 where an entry may be cut, and 0 where it may not.
fn cut_number(taken: &[u64], entry: &Entry) -> u8
    ensures { SaysMayBeCut result taken.now entry.now }
{
    if may_be_cut(taken, entry) { 1 } else { 0 }
}

/// Whether the entry that bytes begin with may be cut comes into `may`, and how many bytes it takes into `size`. Answers
/// a code.
pub fn judge(alloc: Global, bytes: &[u8], taken: &[u64], may: &mut u8, size: &mut usize) -> u32
    ensures ok { result ≡ OK → HasJudged bytes.now taken.now may.new size.new }
    ensures not { result ≢ OK → (may.new ≡ 0) × (size.new ≡ 0) }
    ensures why_not { result ≢ OK → WhyNotJudged bytes.now result }
{
    *may = 0;
    *size = 0;
    match read_entry(alloc, bytes) {
        Ok((entry, len)) => {
            *may = cut_number(taken, &entry);
            *size = len;
            answer::OK
        }
        Err(EntryFault::NoEntry) => answer::NO_ENTRY,
        Err(EntryFault::NoMemory) => answer::MEMORY,
    }
}
