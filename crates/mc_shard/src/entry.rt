// One entry of a journal.

use mc_box::Event;
use mc_lane::Lane;
use mc_signal::Signal;
use std::marker::Model;

/// A signal in its lane: how many signals were sent up to it, itself counted; the stamp of the turn that sent it; a
/// digest of all of them; and its tunnel.
#[derive(Clone, Copy, PartialEq, Eq, Debug)]
pub struct Numbered {
    pub number: u64,
    pub stamp: u64,
    pub digest: u64,
    pub tunnel: u8,
    pub signal: Signal,
}

/// A signal of the lane at one of a shard's channel ends. A shard numbers its ends from 0 on.
#[derive(Clone, Copy, PartialEq, Eq, Debug)]
pub struct AtEnd {
    pub end: u32,
    pub item: Numbered,
}

/// A request: who asks, by its number in the shard, from 0 on, and which of its requests it is, from 1 on.
#[derive(Clone, Copy, PartialEq, Eq, Debug)]
pub struct Asked {
    pub asker: u32,
    pub number: u64,
}

/// An entry of a journal, which is one turn: of which box, by its number in the shard, with which stamp, which event,
/// which request asked for it, what it took, and what it sent, in order.
#[derive(Debug, Drop)]
pub struct Entry {
    pub who: u32,
    pub stamp: u64,
    pub event: Event,
    pub asked: Option<Asked>,
    pub taken: Option<AtEnd>,
    pub sent: Lane<AtEnd>,
}

impl Model for Entry {
    ghost use Rattle.mc_shard.specs.Journals.{EntryState};

    ghost Value = { EntryState };

    ghost view = { λ entry. record {
      who = entry.who;
      stamp = entry.stamp;
      event = entry.event;
      asked = entry.asked;
      taken = entry.taken;
      sent = entry.sent.items;
    } };
}
