// Calls of two phones.

ghost use Rattle.two_phones.specs.Phones.{IsPhone};

use mc_box::{Change, Event};
use mc_io::OpenGate;
use mc_lane::Lane;
use mc_slot::Goal;
use mc_worker::{Logged, Stop, Worker};
use std::alloc::AllocError;

const OPENS: Event = Event::Set(Change::End(0, Goal::Open));

const HOLDS: Event = Event::Set(Change::End(0, Goal::Hold));

const CLOSES: Event = Event::Set(Change::End(0, Goal::Close));

// How many rounds a call may take: more than any needs.
const MOST_ROUNDS: u32 = 1_000;

/// Alice calls and Bob takes the call, and Alice hangs up, so many times. How many signals they took.
pub fn make_calls(alice: &mut Worker, bob: &mut Worker, times: u32) -> Result<u64, AllocError>
    requires { IsPhone alice.old × IsPhone bob.old }
{
    let mut took: u64 = 0;
    for _call in 0..times {
        took = took.saturating_add(call(alice, bob)?);
    }
    Ok(took)
}

// One call, from beginning to end. How many signals it took.
fn call(alice: &mut Worker, bob: &mut Worker) -> Result<u64, AllocError>
    requires { IsPhone alice.old × IsPhone bob.old }
    ensures { IsPhone alice.new × IsPhone bob.new }
{
    bob.add(HOLDS)?;
    alice.add(OPENS)?;
    let up = settle(alice, bob)?;
    alice.add(CLOSES)?;
    let down = settle(alice, bob)?;
    Ok(up.saturating_add(down))
}

// Both have rounds until neither has something to do. How many signals they took.
fn settle(alice: &mut Worker, bob: &mut Worker) -> Result<u64, AllocError>
    requires { IsPhone alice.old × IsPhone bob.old }
    ensures { IsPhone alice.new × IsPhone bob.new }
{
    let mut took: u64 = 0;
    for _round in 0..MOST_ROUNDS {
        let (first, second) = (turns_of(alice)?, turns_of(bob)?);
        took = took.saturating_add(u64::from(first.1) + u64::from(second.1));
        if first.0 == 0 && second.0 == 0 {
            break;
        }
    }
    Ok(took)
}

// A round from the stamp 0 on. How many turns it made, and how many signals it took.
fn turns_of(phone: &mut Worker) -> Result<(u32, u32), AllocError>
    requires { IsPhone phone.old }
    ensures { IsPhone phone.new }
{
    phone.stamp = 0;
    let end = phone.round(&OpenGate, false);
    forget(&mut phone.log, end.turns);
    match end.stop {
        Stop::NoMemory(wanting) => Err(wanting),
        _ => Ok((end.turns, end.took)),
    }
}

// Takes so many entries off a log.
fn forget(log: &mut Lane<Logged>, entries: u32) {
    for _ in 0..entries {
        log.pop();
    }
}
