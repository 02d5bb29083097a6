// Shards that are written down in the middle of a call, and made again.

use crate::calls::{accept, alices_choice, bobs_choice, open, speak};
use crate::equal::is_equal;
use crate::fault::TestFault;
use crate::phones::{ALICE, ALICE_END, BOB, BOB_END, Side, add, carried, new_side, shard};
use mc_shard::Shard;
use mc_slot::Goal;
use mc_snapshot::{SnapshotFault, read_shard, write_shard};
use std::alloc::Global;
use std::process::Abort;

// What is written of a shard.
fn written(alloc: Global, shard: &Shard) -> Result<Vec<u8>, TestFault> {
    let mut bytes = Vec::new(alloc);
    write_shard(shard, &mut bytes)?;
    Ok(bytes)
}

// Both go on with shards that are made again of what was written of theirs.
fn begin_again(alloc: Global, alice: &mut Side, bob: &mut Side) -> Result<(), TestFault> {
    let bytes = written(alloc, &alice.shard)?;
    alice.shard = read_shard(alloc, &bytes)?;
    let bytes = written(alloc, &bob.shard)?;
    bob.shard = read_shard(alloc, &bytes)?;
    Ok(())
}

// As `speak`, with shards that are made again between any two turns.
fn speak_again(alloc: Global, alice: &mut Side, bob: &mut Side) -> Result<(), TestFault> {
    begin_again(alloc, alice, bob)?;
    alice.ask(alloc, Goal::Open, 0)?;
    begin_again(alloc, alice, bob)?;
    bob.ask(alloc, Goal::Hold, 6)?;
    begin_again(alloc, alice, bob)?;
    bob.take(alloc, carried(BOB_END, open()))?;
    begin_again(alloc, alice, bob)?;
    alice.take(alloc, carried(ALICE_END, accept()))?;
    begin_again(alloc, alice, bob)?;
    alice.take(alloc, carried(ALICE_END, bobs_choice()))?;
    begin_again(alloc, alice, bob)?;
    bob.take(alloc, carried(BOB_END, alices_choice()))?;
    begin_again(alloc, alice, bob)
}

// Both shards are written alike.
fn is_alike(rt: &impl Abort, alloc: Global, one: &Shard, other: &Shard) -> Result<(), TestFault> {
    let first = written(alloc, one)?;
    let second = written(alloc, other)?;
    is_equal(rt, &&first[..], &&second[..]);
    Ok(())
}

#[test]
fn a_call_goes_on_with_shards_made_again(rt: HostRuntime) -> Result<(), TestFault> {
    let alloc = rt.alloc();
    let mut alice = new_side(alloc, ALICE, ALICE_END)?;
    let mut bob = new_side(alloc, BOB, BOB_END)?;
    speak(alloc, &mut alice, &mut bob)?;
    let mut alice_again = new_side(alloc, ALICE, ALICE_END)?;
    let mut bob_again = new_side(alloc, BOB, BOB_END)?;
    speak_again(alloc, &mut alice_again, &mut bob_again)?;
    is_alike(&rt, alloc, &alice_again.shard, &alice.shard)?;
    is_alike(&rt, alloc, &bob_again.shard, &bob.shard)
}

// The bytes are no shard's; want of memory stops the test.
fn is_none(rt: &impl Abort, alloc: Global, bytes: &[u8]) -> Result<(), TestFault> {
    match read_shard(alloc, bytes) {
        Ok(found) => is_equal(rt, &Some(found.stamp()), &None),
        Err(SnapshotFault::NoShard) => {}
        Err(SnapshotFault::NoMemory) => return Err(TestFault::Snapshot(SnapshotFault::NoMemory)),
    }
    Ok(())
}

#[test]
fn a_part_of_a_snapshot_is_refused(rt: HostRuntime) -> Result<(), TestFault> {
    let alloc = rt.alloc();
    let alices = shard(alloc, ALICE, ALICE_END)?;
    let mut bytes = written(alloc, &alices)?;
    for short in 0..bytes.len() {
        is_none(&rt, alloc, &bytes[..short])?;
    }
    add(&mut bytes, 0)?;
    is_none(&rt, alloc, &bytes)
}

// A byte of what is written of alice's shard before its first turn, by its place, and what it can't be.
const BROKEN: [(usize, u8); 11] = [
    (0, 2), // another version of the form
    (8, 1), // a stamp past the last one
    (9, 2), // two boxes, of which one is there
    (17, 2), // a third kind of boxes
    (22, 9), // nine codecs
    (52, 1), // an opening slot that sent no descriptor
    (53, 2), // a third medium
    (54, 2), // neither 0 nor 1
    (55, 2), // neither
    (67, 1), // a link with a slot that isn't there
    (68, 3), // a fourth goal
];

// With this byte in place of its own the snapshot isn't read.
fn breaks(rt: &impl Abort, alloc: Global, place: usize, byte: u8) -> Result<(), TestFault> {
    let alices = shard(alloc, ALICE, ALICE_END)?;
    let mut bytes = written(alloc, &alices)?;
    assert!(rt; place < bytes.len());
    bytes[place] = byte;
    is_none(rt, alloc, &bytes)
}

#[test]
fn bytes_of_no_shard_are_refused(rt: HostRuntime) -> Result<(), TestFault> {
    for row in &BROKEN {
        breaks(&rt, rt.alloc(), row.0, row.1)?;
    }
    Ok(())
}
