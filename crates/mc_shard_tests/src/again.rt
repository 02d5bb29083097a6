// Entries read again from their bytes, and bytes that are no entry's.

use crate::bytes::OPENS;
use crate::calls::speak;
use crate::equal::{is_count, is_equal};
use crate::fault::TestFault;
use crate::phones::{ALICE, ALICE_END, BOB, BOB_END, add, new_side};
use mc_entry::{EntryFault, read_entry, write_entry};
use mc_shard::Entry;
use std::alloc::Global;
use std::process::Abort;

// The two entries are the same.
fn is_same(rt: &impl Abort, got: &Entry, want: &Entry) {
    is_equal(rt, &got.who, &want.who);
    is_equal(rt, &got.stamp, &want.stamp);
    is_equal(rt, &got.event, &want.event);
    is_equal(rt, &got.asked, &want.asked);
    is_equal(rt, &got.taken, &want.taken);
    is_count(rt, got.sent.len(), want.sent.len());
    for i in 0..want.sent.len() {
        is_equal(rt, &got.sent.get(i), &want.sent.get(i));
    }
}

// The bytes begin with this entry, which takes so many of them.
fn begins(
    rt: &impl Abort,
    alloc: Global,
    bytes: &[u8],
    entry: &Entry,
    len: usize,
) -> Result<(), TestFault> {
    let (again, used) = read_entry(alloc, bytes)?;
    is_equal(rt, &used, &len);
    is_same(rt, &again, entry);
    Ok(())
}

// The bytes begin with no entry; want of memory stops the test.
fn is_none(rt: &impl Abort, alloc: Global, bytes: &[u8]) -> Result<(), TestFault> {
    match read_entry(alloc, bytes) {
        Ok(found) => is_equal(rt, &Some(found.1), &None),
        Err(EntryFault::NoEntry) => {}
        Err(EntryFault::NoMemory) => return Err(TestFault::Read(EntryFault::NoMemory)),
    }
    Ok(())
}

/// An entry is read from its bytes, with others after them, and not from a front of them.
pub fn is_read(rt: &impl Abort, alloc: Global, entry: &Entry) -> Result<(), TestFault> {
    let mut bytes = Vec::new(alloc);
    assert!(rt; entry.sent.len() < 65536);
    write_entry(entry, &mut bytes)?;
    let len = bytes.len();
    add(&mut bytes, 1)?;
    begins(rt, alloc, &bytes, entry, len)?;
    for short in 0..len.min(bytes.len()) {
        is_none(rt, alloc, &bytes[..short])?;
    }
    Ok(())
}

#[test]
fn entries_of_a_call_are_read_again(rt: HostRuntime) -> Result<(), TestFault> {
    let alloc = rt.alloc();
    let mut alice = new_side(alloc, ALICE, ALICE_END)?;
    let mut bob = new_side(alloc, BOB, BOB_END)?;
    speak(alloc, &mut alice, &mut bob)?;
    for entry in &alice.journal {
        is_read(&rt, alloc, entry)?;
    }
    for entry in &bob.journal {
        is_read(&rt, alloc, entry)?;
    }
    Ok(())
}

// A byte of alice's first entry by its place, and what it can't be.
const BROKEN: [(usize, u8); 14] = [
    (0, 2), // another version of the form
    (13, 8), // no event
    (15, 3), // a fourth goal
    (16, 2), // neither 0 nor 1
    (17, 2), // neither
    (18, 2), // two signals, of which one is there
    (49, 6), // a seventh kind
    (49, 1), // an oack of video
    (50, 2), // a third medium
    (65, 9), // nine codecs
    (65, 0), // a codec of none
    (65, 3), // codec 0 twice
    (66, 64), // codec 64
    (67, 8), // a codec past the last
];

// With this byte in place of its own the entry isn't read.
fn breaks(rt: &impl Abort, alloc: Global, place: usize, byte: u8) -> Result<(), TestFault> {
    let mut bytes = OPENS;
    assert!(rt; place < bytes.len());
    bytes[place] = byte;
    is_none(rt, alloc, &bytes)
}

#[test]
fn bytes_of_no_entry_are_refused(rt: HostRuntime) -> Result<(), TestFault> {
    for row in &BROKEN {
        breaks(&rt, rt.alloc(), row.0, row.1)?;
    }
    Ok(())
}
