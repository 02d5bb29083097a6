// What the passes of a desk know, and the rule that ties it to what lies there. No value of these types is made.

use crate::request::Request;
use crossbeam_queue::protocol::{Join, Lesson, Outcome, Protocol, Split};
use std::collections::LinkedList;

// An operator's pass asks: it knows the operator's number, whether that is the last one, and the requests that were
// accepted. The taker's pass takes: it knows the requests that it took, how many operators' passes were made and
// whether these are all, and what was accepted from the operators whose passes are back, by their numbers.
pub struct Log {
    pub asks: bool,
    pub number: u32,
    pub last: bool,
    pub accepted: LinkedList<Request>,
    pub takes: bool,
    pub taken: LinkedList<Request>,
    pub made: u32,
    pub complete: bool,
    pub known: LinkedList<LinkedList<Request>>,
}

// Of each operator, what was taken and what lies on the desk is what was accepted.
pub struct History;

impl Protocol<Request, Log> for History {
    ghost use Rattle.mc_desk.specs.Histories.{IsRecorded, new_taker};

    ghost holds = { IsRecorded };

    ghost first = { new_taker };
}

// An operator's request is accepted.
pub struct Asks;

impl Outcome<Request, Log> for Asks {
    ghost use Rattle.std.specs.Prelude.{◌≡◌};
    ghost use Rattle.mc_desk.specs.Histories.{with_accepted};

    ghost then = { λ v x w. w ≡ with_accepted v x };
}

impl Lesson<Request, Log> for Asks {
    ghost use Rattle.mc_desk.specs.Histories.{WasSeen};

    ghost fact = { WasSeen };
}

// The box takes a request.
pub struct TakesRequest;

impl Outcome<Request, Log> for TakesRequest {
    ghost use Rattle.mc_desk.specs.Histories.{HasTaken};

    ghost then = { HasTaken };
}

impl Lesson<Request, Log> for TakesRequest {
    ghost use Rattle.mc_desk.specs.Histories.{WasSeen};

    ghost fact = { WasSeen };
}

// What is left on the desk once all operators have ended.
pub struct Leaves;

impl Outcome<Request, Log> for Leaves {
    ghost use Rattle.mc_desk.specs.Histories.{HasTaken};

    ghost then = { HasTaken };
}

impl Lesson<Request, Log> for Leaves {
    ghost use Rattle.mc_desk.specs.Histories.{IsLeft};

    ghost fact = { IsLeft };
}

// The pass of an operator is made of the taker's, and others come after it.
pub struct NextOperator;

impl Split<Log> for NextOperator {
    ghost use Rattle.std.specs.Prelude.{false};
    ghost use Rattle.mc_desk.specs.Histories.{with_made, new_operator};

    ghost left = { λ v. with_made v false };

    ghost right = { λ v. new_operator v.made false };
}

// The pass of the last operator is made of the taker's.
pub struct LastOperator;

impl Split<Log> for LastOperator {
    ghost use Rattle.std.specs.Prelude.{true};
    ghost use Rattle.mc_desk.specs.Histories.{with_made, new_operator};

    ghost left = { λ v. with_made v true };

    ghost right = { λ v. new_operator v.made true };
}

// The pass of an operator that has ended is back.
pub struct OperatorEnded;

impl Join<Log> for OperatorEnded {
    ghost use Rattle.mc_desk.specs.Histories.{with_known, nobody};

    ghost both = { with_known };

    ghost spent = { nobody };
}
