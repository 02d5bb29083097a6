// Desks of eight operators, each of which asks from a thread of its own.

ghost use Rattle.std.specs.Prelude.{◌≡◌, ◌+◌, ◌<◌, [], length, slice_index_or};
ghost use Rattle.std.specs.List.{All};
ghost use Rattle.mc_desk.specs.Desks.{AreOperatorsOf, AreSameOperators, IsOperatorOf, IsSameOperator};
ghost use Rattle.mc_desk.specs.Desks.{IsSameTaker, IsTakerOf, accepted_of};
ghost use Rattle.mc_desk.specs.declared.limit.TheConstants.{REQUEST_LIMIT};

use crate::equal::is_equal;
use crate::tally::Tally;
use mc_box::{Change, Event};
use mc_desk::{Desk, Operator, Request, Taker};
use mc_lane::Lane;
use mc_slot::Goal;
use std::alloc::AllocError;
use std::process::Abort;
use std::sync::Wait;
use std::thread;
use std::thread::{Threads, join_mut};

const OPENS: Option<Event> = Some(Event::Set(Change::End(0, Goal::Open)));

const OPERATORS: u32 = 8;

// Asks, and asks again while the desk is full.
fn ask_until_accepted<R: Wait>(rt: &R, desk: &Desk, who: &mut Operator, event: Option<Event>)
    requires operator { IsOperatorOf desk.now who.old }
    requires few { length (accepted_of who.old) < REQUEST_LIMIT }
    ensures same { IsSameOperator who.old who.new }
    ensures count { length (accepted_of who.new) ≡ length (accepted_of who.old) + 1 }
{
    for _ in rt.forever() {
        if desk.ask(rt, who, event).is_ok() {
            return;
        }
        thread::yield_now();
    }
    unreachable!()
}

// Asks so many times for an event, and then tells that it has ended.
fn ask_often<R: Wait>(rt: &R, desk: &Desk, who: &mut Operator, times: u16)
    requires operator { IsOperatorOf desk.now who.old }
    requires none { accepted_of who.old ≡ [] }
    ensures { IsSameOperator who.old who.new }
{
    for _ in 0..times {
        ask_until_accepted(rt, desk, who, OPENS);
    }
    ask_until_accepted(rt, desk, who, None);
}

// All of these operators do so, each on a thread of its own.
fn each_asks<R: Threads + Wait + Sync>(rt: &R, desk: &Desk, operators: &mut [Operator], times: u16)
    requires of { All (IsOperatorOf desk.now) operators.old }
    requires none { All (λ who. accepted_of who ≡ []) operators.old }
    ensures { AreSameOperators operators.old operators.new }
{
    thread::for_each_mut(
        rt,
        operators,
        OPERATORS as usize,
        &|_, who: &mut Operator|
            requires { IsOperatorOf desk.now who.now × (accepted_of who.now ≡ []) }
            ensures { IsSameOperator who.entry.now who.exit.now }
        { ask_often(rt, desk, who, times) },
    );
}

// All operators of the desk do so.
fn ask_beside<R: Threads + Wait + Sync>(rt: &R, desk: &Desk, operators: &mut [Operator], times: u16)
    requires operators { AreOperatorsOf desk.now operators.old }
    requires none { All (λ who. accepted_of who ≡ []) operators.old }
    ensures { AreOperatorsOf desk.now operators.new }
{
    each_asks(rt, desk, operators, times);
}

// Takes and counts requests until all operators have ended.
fn take_all<R: Wait + Abort>(rt: &R, desk: &Desk, taker: &mut Taker, tally: &mut Tally)
    requires { IsTakerOf desk.now taker.old }
    ensures { IsSameTaker taker.old taker.new }
{
    for _ in rt.forever() {
        match desk.next(rt, taker) {
            Some(request) => tally.count(rt, &request),
            None => thread::yield_now(),
        }
        if tally.ended == OPERATORS {
            return;
        }
    }
    unreachable!()
}

// The operators ask while the taker takes, on a thread of its own.
fn ask_and_take<R: Threads + Wait + Abort + Sync>(
    rt: &R,
    desk: &Desk,
    operators: &mut [Operator],
    taker: &mut Taker,
    times: u16,
) -> Tally
    requires operators { AreOperatorsOf desk.now operators.old }
    requires none { All (λ who. accepted_of who ≡ []) operators.old }
    requires taker { IsTakerOf desk.now taker.old }
    ensures operators { AreOperatorsOf desk.now operators.new }
    ensures taker { IsSameTaker taker.old taker.new }
{
    let mut tally = Tally::new();
    let (counts, asks) = (&mut tally, operators);
    join_mut(
        rt,
        &mut ||
            requires { IsTakerOf desk.now taker.now }
            ensures { IsSameTaker taker.entry.now taker.exit.now }
        { take_all(rt, desk, taker, counts) },
        &mut ||
            requires { AreOperatorsOf desk.now asks.now × All (λ who. accepted_of who ≡ []) asks.now }
            ensures { AreOperatorsOf desk.entry.now asks.exit.now }
        { ask_beside(rt, desk, asks, times) },
    );
    tally
}

// Eight operators ask so many times each on a desk with so much room, and all of it is taken.
fn all_is_taken<R: Threads + Wait + Abort + AllocGlobal + Sync>(
    rt: &R,
    room: usize,
    times: u16,
) -> Result<(), AllocError>
    requires { (0 < room) × (room < 1000) }
{
    let (desk, mut operators, mut taker) = Desk::new(rt.alloc(), OPERATORS, room)?;
    let tally = ask_and_take(rt, &desk, operators.as_mut_slice(), &mut taker, times);
    is_equal(rt, &tally.came, &[u32::from(times) + 1; 8]);
    let mut rest: Lane<Request> = Lane::new(rt.alloc());
    rest.reserve(room)?;
    let rest = desk.finish(rt, operators, taker, rest);
    is_equal(rt, &rest.len(), &0);
    Ok(())
}

#[test]
fn eight_threads_ask_while_one_takes(rt: HostRuntime) -> Result<(), AllocError> {
    all_is_taken(&rt, 64, 1_000)
}

#[test]
fn eight_threads_ask_where_there_is_room_for_one(rt: HostRuntime) -> Result<(), AllocError> {
    all_is_taken(&rt, 1, 100)
}
