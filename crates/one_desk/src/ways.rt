// What requests go through.

ghost use Rattle.std.specs.Prelude.{◌≡◌, ◌≤◌, [], length};
ghost use Rattle.mc_desk.specs.Desks.{IsOperatorOf, IsTakerOf, accepted_of};

use crossbeam_queue::ArrayQueue;
use mc_box::{Change, Event};
use mc_desk::{Desk, Operator, Request, Taker};
use mc_slot::Goal;
use std::alloc::AllocError;
use std::sync::Wait;

const OPENS: Option<Event> = Some(Event::Set(Change::End(0, Goal::Open)));

const ROOM: usize = 16;

/// Asks so many times at a desk of one operator, and takes each request. How many were taken.
pub fn through_desk<R: Wait + AllocGlobal>(rt: &R, times: u32) -> Result<u32, AllocError> {
    let (desk, mut operators, mut taker) = Desk::new(rt.alloc(), 1, ROOM)?;
    let Some(mut who) = operators.pop() else {
        unreachable!()
    };
    Ok(ask_and_take(rt, &desk, &mut who, &mut taker, times))
}

// The same with what is at hand.
fn ask_and_take<R: Wait>(
    rt: &R,
    desk: &Desk,
    who: &mut Operator,
    taker: &mut Taker,
    times: u32,
) -> u32
    requires operator { IsOperatorOf desk.now who.old }
    requires none { accepted_of who.old ≡ [] }
    requires taker { IsTakerOf desk.now taker.old }
{
    let mut took: u32 = 0;
    for _ in 0..times {
        let asked = desk.ask(rt, who, OPENS);
        if asked.is_ok() && desk.next(rt, taker).is_some() {
            took = took.saturating_add(1);
        }
    }
    took
}

/// Puts so many requests into a bare queue, and takes each. How many were taken.
pub fn through_queue<R: Wait + AllocGlobal>(rt: &R, times: u32) -> Result<u32, AllocError> {
    let queue = ArrayQueue::new(rt.alloc(), ROOM)?;
    let mut took: u32 = 0;
    for index in 0..times {
        let request = Request {
            operator: 0,
            index,
            event: OPENS,
        };
        if queue.push(rt, request).is_ok() && queue.pop(rt).is_some() {
            took = took.saturating_add(1);
        }
    }
    Ok(took)
}
