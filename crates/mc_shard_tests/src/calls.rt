// A call between two shards, whose signals are carried by hand. By the rules of goals, stamps and numbers: alice's open
// has stamp 1. Bob holds with stamp 7, since his asker knows of 6, so he takes the open with 8, and accepts it. Alice
// takes that with 9, and answers; then his choice with 10. Bob takes her choice with 10.

use crate::equal::{is_count, is_equal};
use crate::fault::TestFault;
use crate::phones::{
    ALICE, ALICE_END, BOB, BOB_END, Side, at, carried, choice, new_side, own, shard,
};
use mc_box::{Change, Event};
use mc_shard::{AtEnd, Entry, Refused, Shard};
use mc_signal::{Descriptor, Medium, Sender, Signal};
use mc_slot::{Goal, Slot, SlotGoal, State};
use std::alloc::Global;
use std::process::Abort;

// The digests of the signals of the call: from 0 or the digest before it, for each of the words number, stamp, tunnel,
// kind, medium of an open, and fields, exclusive or with it, and then times 0x100_0000_01b3, modulo 2^64.
const OPEN: u64 = 0xf0fc_15f2_6c05_79bf;

const ACCEPT: u64 = 0x11df_bc2d_9bbe_3bb2;

const BOBS_CHOICE: u64 = 0xfa8b_be96_cc83_ed2a;

const ALICES_CHOICE: u64 = 0xf368_e677_2b4f_9b3e;

/// The signals of the call, at the ends of those who send them.
pub fn open() -> AtEnd {
    let signal = Signal::Open(Medium::Video, own(ALICE));
    at(ALICE_END, 1, 1, OPEN, signal)
}

pub fn accept() -> AtEnd {
    at(BOB_END, 1, 8, ACCEPT, Signal::Oack(own(BOB)))
}

pub fn bobs_choice() -> AtEnd {
    let signal = Signal::Select(choice(BOB, ALICE));
    at(BOB_END, 2, 8, BOBS_CHOICE, signal)
}

pub fn alices_choice() -> AtEnd {
    let signal = Signal::Select(choice(ALICE, BOB));
    at(ALICE_END, 2, 9, ALICES_CHOICE, signal)
}

// A slot's new goal.
fn set(goal: Goal) -> Event {
    Event::Set(Change::End(0, goal))
}

// The entry is this one of the first box.
fn is_entry(
    rt: &impl Abort,
    entry: &Entry,
    stamp: u64,
    event: Event,
    taken: Option<AtEnd>,
    sent: &[AtEnd],
) {
    is_equal(rt, &entry.who, &0);
    is_equal(rt, &entry.stamp, &stamp);
    is_equal(rt, &entry.event, &event);
    is_equal(rt, &entry.asked, &None);
    is_equal(rt, &entry.taken, &taken);
    is_count(rt, entry.sent.len(), sent.len());
    for i in 0..sent.len() {
        is_equal(rt, &entry.sent.get(i), &sent[i]);
    }
}

/// All that alice and bob do until nothing is under way.
pub fn speak(alloc: Global, alice: &mut Side, bob: &mut Side) -> Result<(), TestFault> {
    alice.ask(alloc, Goal::Open, 0)?;
    bob.ask(alloc, Goal::Hold, 6)?;
    bob.take(alloc, carried(BOB_END, open()))?;
    alice.take(alloc, carried(ALICE_END, accept()))?;
    alice.take(alloc, carried(ALICE_END, bobs_choice()))?;
    bob.take(alloc, carried(BOB_END, alices_choice()))
}

fn is_alices(rt: &impl Abort, journal: &[Entry]) {
    is_count(rt, journal.len(), 3);
    is_entry(rt, &journal[0], 1, set(Goal::Open), None, &[open()]);
    let first = carried(ALICE_END, accept());
    let takes = Event::Take(0);
    is_entry(rt, &journal[1], 9, takes, Some(first), &[alices_choice()]);
    let second = carried(ALICE_END, bobs_choice());
    is_entry(rt, &journal[2], 10, takes, Some(second), &[]);
}

fn is_bobs(rt: &impl Abort, journal: &[Entry]) {
    is_count(rt, journal.len(), 3);
    is_entry(rt, &journal[0], 7, set(Goal::Hold), None, &[]);
    let first = carried(BOB_END, open());
    let takes = Event::Take(0);
    let answers = [accept(), bobs_choice()];
    is_entry(rt, &journal[1], 8, takes, Some(first), &answers);
    let second = carried(BOB_END, alices_choice());
    is_entry(rt, &journal[2], 10, takes, Some(second), &[]);
}

// The one slot of a shard's one box, its goal, its descriptor and its sender.
fn shown(rt: &impl Abort, shard: &Shard) -> (Slot, SlotGoal, Descriptor, Sender) {
    let boxes = shard.boxes();
    is_count(rt, boxes.len(), 1);
    let phone = &boxes[0];
    is_count(rt, phone.slots().len(), 1);
    (
        phone.slots()[0],
        phone.goal(0),
        phone.own(0),
        phone.sender(0),
    )
}

// The phone's slot flows.
fn flows(rt: &impl Abort, shard: &Shard) {
    is_equal(rt, &shown(rt, shard).0.state, &State::Flowing);
    is_equal(rt, &shard.stamp(), &10);
}

#[test]
fn alice_and_bob_speak(rt: HostRuntime) -> Result<(), TestFault> {
    let alloc = rt.alloc();
    let mut alice = new_side(alloc, ALICE, ALICE_END)?;
    let mut bob = new_side(alloc, BOB, BOB_END)?;
    speak(alloc, &mut alice, &mut bob)?;
    is_alices(&rt, &alice.journal);
    is_bobs(&rt, &bob.journal);
    flows(&rt, &alice.shard);
    flows(&rt, &bob.shard);
    Ok(())
}

// A new shard, over which a journal is made again, is like the one that made it.
fn is_like(rt: &impl Abort, alloc: Global, new: Shard, old: &Side) -> Result<(), TestFault> {
    let again = new.replay(alloc, &old.journal)?;
    is_equal(rt, &shown(rt, &again), &shown(rt, &old.shard));
    is_equal(rt, &again.stamp(), &old.shard.stamp());
    Ok(())
}

#[test]
fn journals_lead_to_the_same_boxes(rt: HostRuntime) -> Result<(), TestFault> {
    let alloc = rt.alloc();
    let mut alice = new_side(alloc, ALICE, ALICE_END)?;
    let mut bob = new_side(alloc, BOB, BOB_END)?;
    speak(alloc, &mut alice, &mut bob)?;
    is_like(&rt, alloc, shard(alloc, ALICE, ALICE_END)?, &alice)?;
    is_like(&rt, alloc, shard(alloc, BOB, BOB_END)?, &bob)
}

// A journal isn't made again from its second entry on. Want of memory stops the test.
fn fails_at_second(
    rt: &impl Abort,
    alloc: Global,
    new: Shard,
    journal: &[Entry],
) -> Result<(), TestFault> {
    match new.replay(alloc, journal) {
        Ok(_) => is_equal(rt, &None, &Some(1)),
        Err(fault) => {
            if fault.why == Refused::NoMemory {
                return Err(TestFault::Replay(fault));
            }
            is_equal(rt, &Some(fault.index), &Some(1));
        }
    }
    Ok(())
}

#[test]
fn a_journal_of_another_order_or_phone_is_refused(rt: HostRuntime) -> Result<(), TestFault> {
    let alloc = rt.alloc();
    let mut alice = new_side(alloc, ALICE, ALICE_END)?;
    let mut bob = new_side(alloc, BOB, BOB_END)?;
    speak(alloc, &mut alice, &mut bob)?;
    is_count(&rt, alice.journal.len(), 3);
    alice.journal.swap(1, 2);
    fails_at_second(&rt, alloc, shard(alloc, ALICE, ALICE_END)?, &alice.journal)?;
    fails_at_second(&rt, alloc, shard(alloc, ALICE, BOB_END)?, &bob.journal)
}
