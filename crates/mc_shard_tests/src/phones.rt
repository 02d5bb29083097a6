// Phones, each in a shard of its own, and what they say to each other.

ghost use Rattle.std.specs.Prelude.{◌<◌};

use crate::fault::TestFault;
use mc_box::{Change, Event, Kind, MediaBox, Setup, SlotSetup};
use mc_shard::{AtEnd, Entry, Numbered, Shard, SlotPlaces, are_laid};
use mc_signal::{CodecList, Descriptor, Medium, Selector, Signal};
use mc_slot::Goal;
use std::alloc::{AllocError, Global};

/// Alice's number, which is the origin of her descriptors, too.
pub const ALICE: u32 = 0;

/// Bob's number.
pub const BOB: u32 = 1;

/// The end of alice's shard, of two, at which her slot is.
pub const ALICE_END: u32 = 0;

/// The end of bob's shard, of two, at which his slot is.
pub const BOB_END: u32 = 1;

/// The tunnel of both slots.
pub const TUNNEL: u8 = 2;

/// A shard with one phone, and its journal so far.
#[derive(Drop)]
pub struct Side {
    pub shard: Shard,
    pub journal: Vec<Entry>,
}

impl Side {
    /// The phone's slot gets a goal, which is asked for by one who knows of a turn with this stamp.
    pub fn ask(&mut self, alloc: Global, goal: Goal, known: u64) -> Result<(), TestFault> {
        let event = Event::Set(Change::End(0, goal));
        match self.shard.request(alloc, None, 0, event, known)? {
            Some(entry) => Ok(add(&mut self.journal, entry)?),
            None => Err(TestFault::Had),
        }
    }

    /// A signal arrives, and is taken.
    pub fn take(&mut self, alloc: Global, at: AtEnd) -> Result<(), TestFault> {
        match self.shard.arrive(alloc, at)? {
            Some(entry) => Ok(add(&mut self.journal, entry)?),
            None => Err(TestFault::Had),
        }
    }
}

/// One more item, last.
pub fn add<T: Drop>(list: &mut Vec<T>, item: T) -> Result<(), AllocError> {
    list.push(item)?;
    Ok(())
}

// The list of the one codec that both phones have.
fn codecs() -> CodecList {
    let mut codecs = CodecList::none();
    let _ = codecs.add(9);
    codecs
}

// A phone with one slot, of video.
fn phone(alloc: Global, number: u32) -> Result<MediaBox, AllocError>
    requires { number < 2 }
{
    let mut slots = Vec::new(alloc);
    slots.extend_from_slice(&[SlotSetup {
        origin: number,
        medium: Medium::Video,
        initiator: number == ALICE,
        address: None,
    }])?;
    let setup = Setup {
        kind: Kind::Device,
        number,
        codecs: codecs(),
        sends: codecs(),
        first_version: 1,
        slots,
        program: None,
    };
    MediaBox::new(alloc, setup)
}

// The place of one slot.
fn place(alloc: Global, end: u32) -> Result<SlotPlaces, AllocError> {
    let mut list = Vec::new(alloc);
    list.extend_from_slice(&[(end, TUNNEL)])?;
    Ok(SlotPlaces::new(list))
}

/// How many ask a shard.
pub const ASKERS: u32 = 2;

/// A shard of two ends, with one phone, whose slot is at this end.
pub fn shard(alloc: Global, number: u32, end: u32) -> Result<Shard, TestFault>
    requires { number < 2 }
{
    let mut boxes = Vec::new(alloc);
    add(&mut boxes, phone(alloc, number)?)?;
    let mut places = Vec::new(alloc);
    add(&mut places, place(alloc, end)?)?;
    let mut owners = Vec::new(alloc);
    owners.extend_from_slice(&[0, 0])?;
    if !are_laid(&boxes, &places, &owners) {
        return Err(TestFault::Unlaid);
    }
    Ok(Shard::new(alloc, boxes, places, owners, ASKERS)?)
}

/// A side of the call that made no turn yet.
pub fn new_side(alloc: Global, number: u32, end: u32) -> Result<Side, TestFault>
    requires { number < 2 }
{
    Ok(Side {
        shard: shard(alloc, number, end)?,
        journal: Vec::new(alloc),
    })
}

/// The first descriptor of a phone: its address is its number plus 1, and its port 5000.
pub fn own(number: u32) -> Descriptor
    requires { number < 2 }
{
    Descriptor {
        origin: number,
        version: 1,
        addr: number + 1,
        port: 5000,
        codecs: codecs(),
    }
}

/// What a phone chooses for the first descriptor of the other.
pub fn choice(number: u32, other: u32) -> Selector
    requires { number < 2 }
{
    Selector {
        origin: other,
        version: 1,
        addr: number + 1,
        port: 5000,
        codec: Some(9),
    }
}

/// A signal of the call at an end.
pub fn at(end: u32, number: u64, stamp: u64, digest: u64, signal: Signal) -> AtEnd {
    let item = Numbered {
        number,
        stamp,
        digest,
        tunnel: TUNNEL,
        signal,
    };
    AtEnd { end, item }
}

/// The first signal that an entry of a journal sent.
pub fn sent_in(journal: &[Entry], index: usize) -> Result<AtEnd, TestFault> {
    let Some(entry) = journal.get(index) else {
        return Err(TestFault::Had);
    };
    if entry.sent.len() == 0 {
        return Err(TestFault::Had);
    }
    Ok(entry.sent.get(0))
}

/// What was sent at the far end arrives at this one.
pub fn carried(end: u32, sent: AtEnd) -> AtEnd {
    AtEnd {
        end,
        item: sent.item,
    }
}
