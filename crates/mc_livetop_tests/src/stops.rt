// Live settles that stop at a Hear of a slot whose descriptor has the last version.

use crate::fault::TestFault;
use crate::phones::{settled, two_phones};
use crate::top::is_equal_at;
use mc_box::limit::LAST_VERSION;
use mc_box::{Event, MediaChange, Turn};
use mc_seq::{SettleFault, Stopped};
use mc_signal::Medium;
use std::alloc::Global;
use std::process::Abort;
use std::sync::Wait;
use std::thread::Threads;

// The second phone is to hear, and to talk.
const HEARS: Turn = Turn {
    who: 1,
    event: Event::Media(MediaChange::Hear(0, true)),
};

const TALKS: Turn = Turn {
    who: 1,
    event: Event::Media(MediaChange::Talk(0, true)),
};

// The second phone's first version, the commands before the one at which it stops, and all of them. Each Hear raises
// the version by one.
const STOPS: [(u32, &[Turn], &[Turn]); 3] = [
    (LAST_VERSION, &[], &[HEARS]),
    (LAST_VERSION, &[TALKS], &[TALKS, HEARS, TALKS]),
    (LAST_VERSION - 1, &[HEARS], &[HEARS, HEARS, TALKS]),
];

// It stopped at the second phone's slot, which is slot 1 of the network, and these turns were made until then.
fn is_stop(rt: &impl Abort, stop: &Stopped, made: &[Turn]) {
    is_equal_at(rt, &stop.at, &1, "the slot");
    is_equal_at(rt, &stop.place, &(1, 0), "its place");
    is_equal_at(rt, &stop.turns.as_slice(), &made, "the turns");
}

// A batch for which one operator asks stops at the last version, after these turns.
fn stops_at_last<R: Threads + Wait + Sync + Abort>(
    rt: &R,
    alloc: Global,
    first_version: u32,
    made: &[Turn],
    batch: &[Turn],
) -> Result<(), TestFault> {
    let world = two_phones(alloc, &[Medium::Audio], first_version)?;
    match settled(rt, alloc, 1, world, batch) {
        Err(SettleFault::VersionEnd(stop)) => {
            is_stop(rt, &stop, made);
            Ok(())
        }
        _ => Err(TestFault::Ended),
    }
}

#[test]
fn a_hear_at_the_last_version_stops_a_live_settle(rt: HostRuntime) -> Result<(), TestFault> {
    for (first_version, made, batch) in &STOPS {
        stops_at_last(&rt, rt.alloc(), *first_version, made, batch)?;
    }
    Ok(())
}
