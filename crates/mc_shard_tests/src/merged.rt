// The journals of a call compared, and merged into one run.

use crate::calls::speak;
use crate::equal::{is_count, is_equal};
use crate::fault::TestFault;
use crate::phones::{ALICE, ALICE_END, BOB, BOB_END, Side, add, new_side};
use mc_box::{Change, Event, Turn};
use mc_shard::Entry;
use mc_shard_merge::{
    JoinedEnds, MergeFault, Unjoined, Unnamed, WhyUnjoined, compare, merged_turns,
};
use mc_slot::Goal;
use std::alloc::{AllocError, Global};
use std::process::Abort;

// The two lanes of the call.
const THERE: JoinedEnds = JoinedEnds {
    from: ALICE,
    out: ALICE_END,
    to: BOB,
    into: BOB_END,
};

const BACK: JoinedEnds = JoinedEnds {
    from: BOB,
    out: BOB_END,
    to: ALICE,
    into: ALICE_END,
};

// The journals of the call: alice's first.
fn journals(alloc: Global) -> Result<Vec<Vec<Entry>>, TestFault> {
    let mut alice = new_side(alloc, ALICE, ALICE_END)?;
    let mut bob = new_side(alloc, BOB, BOB_END)?;
    speak(alloc, &mut alice, &mut bob)?;
    let mut journals = Vec::new(alloc);
    let Side { journal, .. } = alice;
    add(&mut journals, journal)?;
    let Side { journal, .. } = bob;
    add(&mut journals, journal)?;
    Ok(journals)
}

// Why the journals don't agree on one lane; none where they do.
fn why(journals: &[Vec<Entry>], ends: JoinedEnds) -> Option<WhyUnjoined> {
    match compare(journals, &[ends]) {
        Ok(()) => None,
        Err(fault) => Some(fault.why),
    }
}

#[test]
fn journals_of_a_call_agree(rt: HostRuntime) -> Result<(), TestFault> {
    let journals = journals(rt.alloc())?;
    let never = JoinedEnds {
        out: BOB_END,
        ..THERE
    };
    let astray = JoinedEnds {
        into: ALICE_END,
        ..THERE
    };
    let table = [
        (THERE, None),
        (BACK, None),
        // nothing was sent at this end, and bob's second entry takes
        (never, Some(WhyUnjoined::NotSent(1))),
        // nothing was taken at this one
        (astray, None),
        (JoinedEnds { from: 2, ..THERE }, Some(WhyUnjoined::NoShard)),
        (JoinedEnds { to: 2, ..THERE }, Some(WhyUnjoined::NoShard)),
    ];
    for (ends, want) in table {
        is_equal(&rt, &why(&journals, ends), &want);
    }
    let fault = Unjoined {
        place: 1,
        why: WhyUnjoined::NotSent(1),
    };
    is_equal(&rt, &compare(&journals, &[BACK, never]), &Err(fault));
    Ok(())
}

// Bob's third entry takes what alice's second sent.
#[test]
fn a_lost_entry_is_noticed(rt: HostRuntime) -> Result<(), TestFault> {
    let mut journals = journals(rt.alloc())?;
    is_count(&rt, journals.len(), 2);
    journals[0].truncate(1);
    let lost = Some(WhyUnjoined::NotSent(2));
    is_equal(&rt, &why(&journals, THERE), &lost);
    is_equal(&rt, &why(&journals, BACK), &None);
    Ok(())
}

fn names(alloc: Global, bobs: &[u32]) -> Result<Vec<Vec<u32>>, AllocError> {
    let mut names = Vec::new(alloc);
    let mut alices = Vec::new(alloc);
    alices.extend_from_slice(&[7])?;
    add(&mut names, alices)?;
    let mut list = Vec::new(alloc);
    list.extend_from_slice(bobs)?;
    add(&mut names, list)?;
    Ok(names)
}

// By their stamps: alice has 1, 9 and 10, and bob 7, 8 and 10.
#[test]
fn journals_of_a_call_are_one_run(rt: HostRuntime) -> Result<(), TestFault> {
    let alloc = rt.alloc();
    let journals = journals(alloc)?;
    let names = names(alloc, &[4])?;
    let turns = merged_turns(alloc, &journals, &names)?;
    let takes = Event::Take(0);
    let want = [
        (7, Event::Set(Change::End(0, Goal::Open))),
        (4, Event::Set(Change::End(0, Goal::Hold))),
        (4, takes),
        (7, takes),
        (4, takes),
        (7, takes),
    ];
    is_count(&rt, turns.len(), want.len());
    for i in 0..want.len() {
        let (who, event) = want[i];
        is_equal(&rt, &turns[i], &Turn { who, event });
    }
    Ok(())
}

#[test]
fn a_box_without_a_number_is_refused(rt: HostRuntime) -> Result<(), TestFault> {
    let alloc = rt.alloc();
    let journals = journals(alloc)?;
    let names = names(alloc, &[])?;
    match merged_turns(alloc, &journals, &names) {
        Ok(turns) => is_equal(&rt, &turns.len(), &0),
        Err(MergeFault::Unnamed(place)) => {
            is_equal(&rt, &place, &Unnamed { shard: 1, index: 0 });
        }
        Err(fault) => return Err(TestFault::Merge(fault)),
    }
    Ok(())
}
