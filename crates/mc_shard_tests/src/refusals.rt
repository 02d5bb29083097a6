// What a shard doesn't take, and what it isn't asked for with success: each by its name, and nothing changes.

use crate::calls::{accept, bobs_choice, open, speak};
use crate::equal::is_equal;
use crate::fault::TestFault;
use crate::phones::{ALICE, ALICE_END, BOB, BOB_END, at, carried, new_side, own, sent_in};
use mc_box::{Event, MediaChange};
use mc_shard::{AtEnd, Refused, Shard};
use mc_signal::{Medium, Signal};
use mc_slot::Goal;
use std::alloc::Global;
use std::process::Abort;

// Why an arrival or a request makes no turn; none where it makes one.
fn why<T: Drop>(outcome: Result<T, Refused>) -> Option<Refused> {
    match outcome {
        Ok(_) => None,
        Err(why) => Some(why),
    }
}

// The signal isn't taken, for this reason.
fn refuses(rt: &impl Abort, alloc: Global, shard: &mut Shard, at: AtEnd, want: Refused) {
    let stamp = shard.stamp();
    is_equal(rt, &why(shard.arrive(alloc, at)), &Some(want));
    is_equal(rt, &shard.stamp(), &stamp);
}

// The request makes no turn, for this reason.
fn refuses_request(
    rt: &impl Abort,
    alloc: Global,
    shard: &mut Shard,
    who: u32,
    event: Event,
    known: u64,
    want: Refused,
) {
    let stamp = shard.stamp();
    is_equal(
        rt,
        &why(shard.request(alloc, None, who, event, known)),
        &Some(want),
    );
    is_equal(rt, &shard.stamp(), &stamp);
}

// The signal was taken already, and changes nothing.
fn had(rt: &impl Abort, alloc: Global, shard: &mut Shard, at: AtEnd) {
    let stamp = shard.stamp();
    let again = matches!(&shard.arrive(alloc, at), Ok(None));
    assert!(rt; again);
    is_equal(rt, &shard.stamp(), &stamp);
}

#[test]
fn a_signal_that_arrives_twice_is_dropped(rt: HostRuntime) -> Result<(), TestFault> {
    let alloc = rt.alloc();
    let mut alice = new_side(alloc, ALICE, ALICE_END)?;
    let mut bob = new_side(alloc, BOB, BOB_END)?;
    speak(alloc, &mut alice, &mut bob)?;
    had(
        &rt,
        alloc,
        &mut alice.shard,
        carried(ALICE_END, bobs_choice()),
    );
    had(&rt, alloc, &mut alice.shard, carried(ALICE_END, accept()));
    had(&rt, alloc, &mut bob.shard, carried(BOB_END, open()));
    Ok(())
}

// The open, but at another tunnel, of which its digest tells.
fn astray() -> AtEnd {
    let mut item = open().item;
    item.tunnel = 3;
    item.digest = 0x2e68_5be2_f9dc_735c;
    AtEnd { end: BOB_END, item }
}

#[test]
fn a_signal_that_is_not_the_next_is_refused(rt: HostRuntime) -> Result<(), TestFault> {
    let alloc = rt.alloc();
    let mut bob = new_side(alloc, BOB, BOB_END)?;
    let asks = Signal::Open(Medium::Video, own(ALICE));
    let early = at(BOB_END, 2, 1, 0, asks);
    let late = at(BOB_END, 1, 1 << 48, 0x9c8c_dcf0_3481_a75e, asks);
    let answers = Signal::Oack(own(ALICE));
    let unlawful = at(BOB_END, 1, 1, 0x4f43_7ca6_4ee5_2df7, answers);
    refuses(&rt, alloc, &mut bob.shard, early, Refused::Ahead);
    refuses(&rt, alloc, &mut bob.shard, astray(), Refused::NoTunnel);
    refuses(&rt, alloc, &mut bob.shard, open(), Refused::NoTunnel);
    refuses(
        &rt,
        alloc,
        &mut bob.shard,
        carried(2, open()),
        Refused::NoEnd,
    );
    refuses(&rt, alloc, &mut bob.shard, late, Refused::Stamp);
    refuses(&rt, alloc, &mut bob.shard, unlawful, Refused::Unlawful);
    Ok(())
}

// What alice opens with this stamp, and then closes.
fn opens_and_closes(alloc: Global, known: u64) -> Result<(AtEnd, AtEnd), TestFault> {
    let mut alice = new_side(alloc, ALICE, ALICE_END)?;
    alice.ask(alloc, Goal::Open, known)?;
    alice.ask(alloc, Goal::Close, 0)?;
    Ok((sent_in(&alice.journal, 0)?, sent_in(&alice.journal, 1)?))
}

#[test]
fn a_sender_that_lost_its_tail_is_refused(rt: HostRuntime) -> Result<(), TestFault> {
    let alloc = rt.alloc();
    let (first, next) = opens_and_closes(alloc, 0)?;
    let (lost, after_lost) = opens_and_closes(alloc, 4)?;
    let mut bob = new_side(alloc, BOB, BOB_END)?;
    bob.ask(alloc, Goal::Hold, 0)?;
    bob.take(alloc, carried(BOB_END, lost))?;
    had(&rt, alloc, &mut bob.shard, carried(BOB_END, first));
    let other = carried(BOB_END, next);
    refuses(&rt, alloc, &mut bob.shard, other, Refused::Digest);
    bob.take(alloc, carried(BOB_END, after_lost))
}

#[test]
fn a_request_that_cannot_be_is_refused(rt: HostRuntime) -> Result<(), TestFault> {
    let alloc = rt.alloc();
    let mut bob = new_side(alloc, BOB, BOB_END)?;
    let talk = Event::Media(MediaChange::Talk(0, false));
    refuses_request(&rt, alloc, &mut bob.shard, 1, talk, 0, Refused::NoBox);
    refuses_request(&rt, alloc, &mut bob.shard, 0, talk, 1 << 48, Refused::Stamp);
    refuses_request(
        &rt,
        alloc,
        &mut bob.shard,
        0,
        Event::Take(0),
        0,
        Refused::NotEnabled,
    );
    refuses_request(
        &rt,
        alloc,
        &mut bob.shard,
        0,
        Event::Retry(0),
        0,
        Refused::NotEnabled,
    );
    Ok(())
}
