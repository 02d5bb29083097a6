// Requests that askers make, some of them twice: each is made once.

use crate::again::is_read;
use crate::equal::{is_count, is_equal};
use crate::fault::TestFault;
use crate::phones::{ALICE, ALICE_END, add, shard};
use mc_box::{Change, Event};
use mc_shard::{Asked, Entry, Refused, Shard};
use mc_slot::Goal;
use std::alloc::Global;
use std::process::Abort;

// Who asks, with which number, and whether that makes an entry, or why it is refused.
type Row = (u32, u64, Result<bool, Refused>);

const FIRST: [Row; 9] = [
    (0, 1, Ok(true)),
    (0, 1, Ok(false)), // asked twice
    (0, 3, Err(Refused::Ahead)),
    (1, 2, Err(Refused::Ahead)),
    (1, 1, Ok(true)), // each asker has its own numbers
    (0, 2, Ok(true)),
    (0, 0, Ok(false)),
    (2, 1, Err(Refused::NoAsker)),
    (2, 0, Err(Refused::NoAsker)),
];

// The same askers, after the shard was made again from its journal.
const AFTER: [Row; 5] = [
    (0, 2, Ok(false)),
    (1, 1, Ok(false)),
    (1, 3, Err(Refused::Ahead)),
    (1, 2, Ok(true)),
    (0, 3, Ok(true)),
];

// A shard's answer to a row, whose entry the journal gets. Want of memory stops the test.
fn ask(
    rt: &impl Abort,
    alloc: Global,
    shard: &mut Shard,
    journal: &mut Vec<Entry>,
    row: Row,
) -> Result<(), TestFault> {
    let asked = Asked {
        asker: row.0,
        number: row.1,
    };
    let event = Event::Set(Change::End(0, Goal::Hold));
    match shard.request(alloc, Some(asked), 0, event, 0) {
        Ok(Some(entry)) => {
            is_equal(rt, &entry.asked, &Some(asked));
            is_equal(rt, &Ok(true), &row.2);
            add(journal, entry)?;
        }
        Ok(None) => is_equal(rt, &Ok(false), &row.2),
        Err(Refused::NoMemory) => return Err(TestFault::Refused(Refused::NoMemory)),
        Err(why) => is_equal(rt, &Err(why), &row.2),
    }
    Ok(())
}

#[test]
fn each_request_is_made_once(rt: HostRuntime) -> Result<(), TestFault> {
    let alloc = rt.alloc();
    let mut journal = Vec::new(alloc);
    let mut alice = shard(alloc, ALICE, ALICE_END)?;
    for row in &FIRST {
        ask(&rt, alloc, &mut alice, &mut journal, *row)?;
    }
    is_count(&rt, journal.len(), 3);
    is_read(&rt, alloc, &journal[0])?;
    let mut again = shard(alloc, ALICE, ALICE_END)?.replay(alloc, &journal)?;
    for row in &AFTER {
        ask(&rt, alloc, &mut again, &mut journal, *row)?;
    }
    is_equal(&rt, &again.stamp(), &5);
    Ok(())
}
