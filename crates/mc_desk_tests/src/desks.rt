// Desks of one operator or two.

ghost use Rattle.std.specs.Prelude.{◌≡◌, ◌+◌, ◌≤◌, ◌∷◌, [], length};
ghost use Rattle.mc_desk.specs.Desks.{IsOperatorOf, IsSameOperator, IsSameTaker, IsTakerOf, accepted_of};

use crate::equal::is_equal;
use crate::tally::Tally;
use crate::two::{put_two, take_two};
use mc_box::{Change, Event};
use mc_desk::{Desk, Full, Operator, Request, Taker};
use mc_lane::Lane;
use mc_slot::Goal;
use std::alloc::AllocError;
use std::process::Abort;
use std::sync::Wait;
use std::thread;
use std::thread::Threads;

const OPENS: Option<Event> = Some(Event::Set(Change::End(0, Goal::Open)));

const CLOSES: Option<Event> = Some(Event::Set(Change::End(0, Goal::Close)));

const HOLDS: Option<Event> = Some(Event::Set(Change::End(0, Goal::Hold)));

// The operator asks, and this is the answer.
fn is_answered<R: Wait + Abort>(
    rt: &R,
    desk: &Desk,
    who: &mut Operator,
    event: Option<Event>,
    want: &Result<(), Full>,
)
    requires operator { IsOperatorOf desk.now who.old }
    requires few { length (accepted_of who.old) ≤ 4 }
    ensures same { IsSameOperator who.old who.new }
    ensures count { length (accepted_of who.new) ≤ length (accepted_of who.old) + 1 }
{
    is_equal(rt, &desk.ask(rt, who, event), want);
}

// One operator fills the desk, and the other one gets room once a request is taken.
fn two_ask<R: Wait + Abort>(
    rt: &R,
    desk: &Desk,
    first: &mut Operator,
    second: &mut Operator,
    taker: &mut Taker,
)
    requires operators { IsOperatorOf desk.now first.old × IsOperatorOf desk.now second.old }
    requires none { (accepted_of first.old ≡ []) × (accepted_of second.old ≡ []) }
    requires taker { IsTakerOf desk.now taker.old }
    ensures same { IsSameOperator first.old first.new × IsSameOperator second.old second.new }
    ensures taker { IsSameTaker taker.old taker.new }
{
    is_answered(rt, desk, first, OPENS, &Ok(()));
    is_answered(rt, desk, first, CLOSES, &Ok(()));
    is_answered(rt, desk, second, HOLDS, &Err(Full { event: HOLDS }));
    is_equal(
        rt,
        &desk.next(rt, taker),
        &Some(Request {
            operator: 0,
            index: 0,
            event: OPENS,
        }),
    );
    is_answered(rt, desk, second, HOLDS, &Ok(()));
}

// What is left when the first request is taken.
fn are_left(rt: &impl Abort, rest: &mut Lane<Request>) {
    is_equal(
        rt,
        &rest.pop(),
        &Some(Request {
            operator: 0,
            index: 1,
            event: CLOSES,
        }),
    );
    is_equal(
        rt,
        &rest.pop(),
        &Some(Request {
            operator: 1,
            index: 0,
            event: HOLDS,
        }),
    );
    is_equal(rt, &rest.pop(), &None);
}

#[test]
fn a_full_desk_refuses_until_one_is_taken(rt: HostRuntime) -> Result<(), AllocError> {
    let (desk, mut operators, mut taker) = Desk::new(rt.alloc(), 2, 2)?;
    let (mut first, mut second) = take_two(&mut operators);
    two_ask(&rt, &desk, &mut first, &mut second, &mut taker);
    put_two(&mut operators, first, second)?;
    let mut rest = Lane::new(rt.alloc());
    rest.reserve(2)?;
    let mut rest = desk.finish(&rt, operators, taker, rest);
    are_left(&rt, &mut rest);
    Ok(())
}

// The operator asks for an event, and tells that it has ended.
fn asks_and_ends<R: Wait + Abort>(rt: &R, desk: &Desk, who: Operator) -> Operator
    requires operator { IsOperatorOf desk.now who }
    requires none { accepted_of who ≡ [] }
    ensures { IsSameOperator who result }
{
    let mut who = who;
    is_answered(rt, desk, &mut who, OPENS, &Ok(()));
    is_answered(rt, desk, &mut who, None, &Ok(()));
    who
}

// Both at once, each in a thread of its own.
fn ask_beside<R: Threads + Wait + Abort + Sync>(
    rt: &R,
    desk: &Desk,
    first: Operator,
    second: Operator,
) -> (Operator, Operator)
    requires operators { IsOperatorOf desk.now first × IsOperatorOf desk.now second }
    requires none { (accepted_of first ≡ []) × (accepted_of second ≡ []) }
    ensures { IsSameOperator first result.0 × IsSameOperator second result.1 }
{
    thread::join(
        rt,
        move ||
            requires { IsOperatorOf desk.now first × (accepted_of first ≡ []) }
            ensures { IsSameOperator first result }
        { asks_and_ends(rt, desk, first) },
        move ||
            requires { IsOperatorOf desk.now second × (accepted_of second ≡ []) }
            ensures { IsSameOperator second result }
        { asks_and_ends(rt, desk, second) },
    )
}

// What is left, counted.
fn count_all(rt: &impl Abort, rest: &mut Lane<Request>) -> Tally {
    let mut tally = Tally::new();
    for _ in 0..rest.len() {
        if let Some(request) = rest.pop() {
            tally.count(rt, &request);
        }
    }
    tally
}

#[test]
fn all_of_the_room_is_left(rt: HostRuntime) -> Result<(), AllocError> {
    let (desk, mut operators, taker) = Desk::new(rt.alloc(), 2, 4)?;
    let (first, second) = take_two(&mut operators);
    let (first, second) = ask_beside(&rt, &desk, first, second);
    put_two(&mut operators, first, second)?;
    let mut rest = Lane::new(rt.alloc());
    rest.reserve(4)?;
    let mut rest = desk.finish(&rt, operators, taker, rest);
    let tally = count_all(&rt, &mut rest);
    is_equal(&rt, &tally.came, &[2, 2, 0, 0, 0, 0, 0, 0]);
    is_equal(&rt, &tally.ended, &2);
    Ok(())
}

// With room for one request there is none after each, until it is taken.
fn one_asks<R: Wait + Abort>(rt: &R, desk: &Desk, who: &mut Operator, taker: &mut Taker)
    requires operator { IsOperatorOf desk.now who.old }
    requires none { accepted_of who.old ≡ [] }
    requires taker { IsTakerOf desk.now taker.old }
    ensures { IsSameOperator who.old who.new × IsSameTaker taker.old taker.new }
{
    is_answered(rt, desk, who, OPENS, &Ok(()));
    is_answered(rt, desk, who, None, &Err(Full { event: None }));
    is_equal(
        rt,
        &desk.next(rt, taker),
        &Some(Request {
            operator: 0,
            index: 0,
            event: OPENS,
        }),
    );
    is_equal(rt, &desk.next(rt, taker), &None);
    is_answered(rt, desk, who, None, &Ok(()));
}

#[test]
fn there_is_room_for_one(rt: HostRuntime) -> Result<(), AllocError> {
    let (desk, mut operators, mut taker) = Desk::new(rt.alloc(), 1, 1)?;
    one_asks(&rt, &desk, &mut operators[0], &mut taker);
    let mut rest = Lane::new(rt.alloc());
    rest.reserve(1)?;
    let mut rest = desk.finish(&rt, operators, taker, rest);
    is_equal(
        &rt,
        &rest.pop(),
        &Some(Request {
            operator: 0,
            index: 1,
            event: None,
        }),
    );
    Ok(())
}
