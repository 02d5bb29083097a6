// The bytes of entries, written out by hand, field by field, little-endian.

use crate::calls::speak;
use crate::equal::{is_count, is_equal};
use crate::fault::TestFault;
use crate::phones::{ALICE, ALICE_END, BOB, BOB_END, add, at, new_side};
use mc_box::{Change, Event, MediaChange};
use mc_entry::write_entry;
use mc_lane::Lane;
use mc_shard::{Asked, AtEnd, Entry};
use mc_signal::{Selector, Signal};
use mc_slot::Goal;
use std::alloc::Global;
use std::process::Abort;

// The entry's bytes are these, after what the buffer had.
fn has_bytes(rt: &impl Abort, alloc: Global, entry: &Entry, want: &[u8]) -> Result<(), TestFault> {
    let mut out = Vec::new(alloc);
    add(&mut out, 200)?;
    assert!(rt; entry.sent.len() < 65536);
    write_entry(entry, &mut out)?;
    is_count(rt, out.len(), want.len().saturating_add(1));
    is_equal(rt, &out[0], &200);
    is_equal(rt, &&out[1..], &want);
    Ok(())
}

/// The bytes of the entry in which alice opens.
pub const OPENS: [u8; 74] = [
    3, 0, 0, 0, 0, 1, 0, 0, 0, 0, 0, 0, 0, // the form, the box, the stamp
    1, 0, 0, 0, 0, // slot 0 gets the goal open; no asker, and nothing is taken
    1, 0, // one signal is sent:
    0, 0, 0, 0, 1, 0, 0, 0, 0, 0, 0, 0, 1, 0, 0, 0, 0, 0, 0, 0, // end, number, stamp
    191, 121, 5, 108, 242, 21, 252, 240, 2, // digest, tunnel
    0, 1, 0, 0, 0, 0, 1, 0, 0, 0, 1, 0, 0, 0, 0x88, 0x13, 1, 9, 0, 0, 0, 0, 0, 0, 0, // an open for video
];

const TAKES: [u8; 128] = [
    3, 0, 0, 0, 0, 9, 0, 0, 0, 0, 0, 0, 0, // the form, the box, the stamp
    0, 0, 0, 0, 1, // slot 0 takes, and no asker asks
    0, 0, 0, 0, 1, 0, 0, 0, 0, 0, 0, 0, 8, 0, 0, 0, 0, 0, 0, 0, // end, number, stamp
    178, 59, 190, 155, 45, 188, 223, 17, 2, // digest, tunnel
    1, 0, 1, 0, 0, 0, 1, 0, 0, 0, 2, 0, 0, 0, 0x88, 0x13, 1, 9, 0, 0, 0, 0, 0, 0, 0, // an oack
    1, 0, // one signal is sent:
    0, 0, 0, 0, 2, 0, 0, 0, 0, 0, 0, 0, 9, 0, 0, 0, 0, 0, 0, 0, // end, number, stamp
    62, 155, 79, 43, 119, 230, 104, 243, 2, // digest, tunnel
    5, 0, 1, 0, 0, 0, 1, 0, 0, 0, 1, 0, 0, 0, 0x88, 0x13, 1, 9, 0, 0, 0, 0, 0, 0, 0, // a select
];

#[test]
fn entries_of_a_call_have_their_bytes(rt: HostRuntime) -> Result<(), TestFault> {
    let alloc = rt.alloc();
    let mut alice = new_side(alloc, ALICE, ALICE_END)?;
    let mut bob = new_side(alloc, BOB, BOB_END)?;
    speak(alloc, &mut alice, &mut bob)?;
    is_count(&rt, alice.journal.len(), 3);
    has_bytes(&rt, alloc, &alice.journal[0], &OPENS)?;
    has_bytes(&rt, alloc, &alice.journal[1], &TAKES)
}

// Each event has these three bytes, and the entry takes and sends nothing.
const EVENTS: [(Event, [u8; 3]); 12] = [
    (Event::Take(7), [0, 7, 0]),
    (Event::Set(Change::End(3, Goal::Open)), [1, 3, 0]),
    (Event::Set(Change::End(3, Goal::Close)), [1, 3, 1]),
    (Event::Set(Change::End(3, Goal::Hold)), [1, 3, 2]),
    (Event::Set(Change::Link(1, 4)), [2, 1, 4]),
    (Event::Media(MediaChange::Hear(2, false)), [3, 2, 0]),
    (Event::Media(MediaChange::Hear(2, true)), [3, 2, 1]),
    (Event::Media(MediaChange::Talk(5, false)), [4, 5, 0]),
    (Event::Media(MediaChange::Talk(5, true)), [4, 5, 1]),
    (Event::Tell(200), [5, 200, 0]),
    (Event::Retry(6), [6, 6, 0]),
    (Event::Shift, [7, 0, 0]),
];

// An entry of box 0x01020304, with a stamp of eight different bytes.
fn entry(event: Event, taken: Option<AtEnd>, sent: Lane<AtEnd>) -> Entry {
    Entry {
        who: 0x0102_0304,
        stamp: 0x0506_0708_090a_0b0c,
        event,
        asked: None,
        taken,
        sent,
    }
}

// The event's three bytes stand where they should.
fn has_event(rt: &impl Abort, alloc: Global, event: Event, code: [u8; 3]) -> Result<(), TestFault> {
    let [kind, first, second] = code;
    let want = [
        3, 4, 3, 2, 1, 12, 11, 10, 9, 8, 7, 6, 5, // the form, the box, the stamp
        kind, first, second, 0, 0, 0, 0, // the event; no asker, and nothing is taken or sent
    ];
    has_bytes(rt, alloc, &entry(event, None, Lane::new(alloc)), &want)
}

#[test]
fn events_have_their_bytes(rt: HostRuntime) -> Result<(), TestFault> {
    for row in &EVENTS {
        has_event(&rt, rt.alloc(), row.0, row.1)?;
    }
    Ok(())
}

const ASKED: [u8; 32] = [
    3, 4, 3, 2, 1, 12, 11, 10, 9, 8, 7, 6, 5, // the form, the box, the stamp
    5, 200, 0, 1, 4, 3, 2, 1, 8, 7, 6, 5, 4, 3, 2, 1, // a word; the asker, its number
    0, 0, 0, // nothing is taken or sent
];

#[test]
fn a_request_has_its_bytes(rt: HostRuntime) -> Result<(), TestFault> {
    let alloc = rt.alloc();
    let mut made = entry(Event::Tell(200), None, Lane::new(alloc));
    made.asked = Some(Asked {
        asker: 0x0102_0304,
        number: 0x0102_0304_0506_0708,
    });
    has_bytes(&rt, alloc, &made, &ASKED)
}

const ANSWERS: [u8; 182] = [
    3, 4, 3, 2, 1, 12, 11, 10, 9, 8, 7, 6, 5, // the form, the box, the stamp
    0, 0, 0, 0, 1, // slot 0 takes, and no asker asks
    6, 5, 0, 0, 1, 2, 0, 0, 0, 0, 0, 0, 3, 0, 0, 0, 0, 1, 0, 0, // end, number, stamp
    1, 2, 3, 4, 5, 6, 7, 8, 2, // digest, tunnel
    2, 0, 0, 0, 0, 0, 0, 0, 0, 0, 0, 0, 0, 0, 0, 0, 0, 0, 0, 0, 0, 0, 0, 0, 0, // a close
    2, 0, // two signals are sent:
    0, 0, 0, 0, 1, 0, 0, 0, 0, 0, 0, 0, 2, 0, 0, 0, 0, 0, 0, 0, // end, number, stamp
    0, 0, 0, 0, 0, 0, 0, 0, 2, // digest, tunnel
    3, 0, 0, 0, 0, 0, 0, 0, 0, 0, 0, 0, 0, 0, 0, 0, 0, 0, 0, 0, 0, 0, 0, 0, 0, // a closeack
    0, 0, 0, 0, 2, 0, 0, 0, 0, 0, 0, 0, 2, 0, 0, 0, 0, 0, 0, 0, // end, number, stamp
    255, 0, 0, 0, 0, 0, 0, 0, 2, // digest, tunnel
    5, 0, 7, 0, 0, 0, 3, 0, 0, 0, 8, 1, 0, 0, 1, 2, 0, 0, 0, 0, 0, 0, 0, 0, 0, // a select of no codec
];

// A selector without a codec.
fn mute() -> Selector {
    Selector {
        origin: 7,
        version: 3,
        addr: 264,
        port: 513,
        codec: None,
    }
}

#[test]
fn signals_without_media_have_their_bytes(rt: HostRuntime) -> Result<(), TestFault> {
    let alloc = rt.alloc();
    let taken = at(
        1286,
        513,
        0x0100_0000_0003,
        0x0807_0605_0403_0201,
        Signal::Close,
    );
    let mut sent = Lane::new(alloc);
    sent.reserve(2)?;
    sent.push(at(0, 1, 2, 0, Signal::Closeack));
    sent.push(at(0, 2, 2, 255, Signal::Select(mute())));
    let made = entry(Event::Take(0), Some(taken), sent);
    has_bytes(&rt, alloc, &made, &ANSWERS)
}
