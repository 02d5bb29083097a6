// The desk, its operators and its taker.

ghost use Rattle.std.specs.Prelude.{◌≡◌, [], length};
ghost use Rattle.crossbeam_queue.specs.Passes.{view};
ghost use Rattle.mc_desk.specs.Histories.{AreIndexed, Asking, Taking};

use crate::log::{
    Asks, History, LastOperator, Leaves, Log, NextOperator, OperatorEnded, TakesRequest,
};
use crate::request::Request;
use crossbeam_queue::{Pass, RuledArrayQueue};
use mc_box::Event;
use mc_lane::Lane;
use std::alloc::{AllocError, Global};
use std::sync::Wait;

/// A place where 1 to 8 operators put requests for one box, which takes them, the oldest first. It has room for a
/// number of requests that `Desk::new` is given. Threads share it by reference.
#[derive(Drop)]
pub struct Desk {
    queue: RuledArrayQueue<Request, Log, History>,
    operators: u32,
}

/// The right to ask at a desk as one of its operators, which are numbered from 0. One thread at a time has it. It
/// counts the requests that were accepted from this operator; their indices are 0, 1, 2 and so on.
#[derive(Drop)]
pub struct Operator {
    number: u32,
    next: u32,
    pass: Pass<Request, Log>,
    ghost at_rest: { pass.me.1 ≡ [] },
    ghost kind: { Asking (view pass) },
    ghost numbered: { (view pass).number ≡ number },
    ghost counted: { length (view pass).accepted ≡ next },
    ghost indexed: { AreIndexed (view pass).accepted },
}

/// The right to take from a desk what its operators asked for. One thread at a time has it.
#[derive(Drop)]
pub struct Taker {
    pass: Pass<Request, Log>,
    ghost at_rest: { pass.me.1 ≡ [] },
    ghost kind: { Taking (view pass) },
    ghost none_back: { (view pass).known ≡ [] },
}

/// There was no room on the desk, and nothing was accepted. It hands back what was asked for.
#[derive(Clone, Copy, PartialEq, Eq, Debug)]
pub struct Full {
    pub event: Option<Event>,
}

impl Desk {
    ghost use Rattle.std.specs.Prelude.{◌+◌, ◌∷◌, ◌++◌, ◌<◌, ◌≤◌, ◌==◌, false, true, map};
    ghost use Rattle.std.specs.Prelude.{IfErr, IfNone, IfOk, IfSome, MatchOption, OnErr, OnOk};
    ghost use Rattle.std.specs.List.{All, range_with_len};
    ghost use Rattle.crossbeam_queue.specs.Passes.{IsPassOf, IsSamePass, ruled_capacity};
    ghost use Rattle.mc_desk.specs.Histories.{IsHistory, IsLeft, new_operator, new_taker, taker_with};
    ghost use Rattle.mc_desk.specs.Histories.{with_all_known, with_made};
    ghost use Rattle.mc_desk.specs.Desks.{accepted_at, accepted_of, next_request, number_of, operator_count};
    ghost use Rattle.mc_desk.specs.Desks.{room_of, taken_by};
    ghost use Rattle.mc_desk.specs.Desks.{AreOperatorsOf, IsOperatorOf, IsSameOperator, IsSameTaker, IsTakerOf};
    ghost use Rattle.mc_desk.specs.Desks.{HasFilled, IsNextRequest, WasEmpty, WasFull};
    ghost use Rattle.mc_desk.specs.declared.limit.TheConstants.{OPERATOR_LIMIT, REQUEST_LIMIT, ROOM_LIMIT};

    /// An empty desk with so many operators, 1 to 8, in the order of their numbers, and its taker. It has room for 1
    /// to 1,024 requests. It fails only for want of memory.
    pub fn new(
        alloc: Global,
        operators: u32,
        room: usize,
    ) -> Result<(Desk, Vec<Operator>, Taker), AllocError>
        requires operators { (0 < operators) × (operators ≤ OPERATOR_LIMIT) }
        requires room { (0 < room) × (room ≤ ROOM_LIMIT) }
        ensures counts { IfOk result (λ made. (operator_count made.0 ≡ operators) × (room_of made.0 ≡ room)) }
        ensures operators { IfOk result (λ made. AreOperatorsOf made.0 made.1.items) }
        ensures accepted { IfOk result (λ made. All (λ who. accepted_of who ≡ []) made.1.items) }
        ensures taker { IfOk result (λ made. IsTakerOf made.0 made.2) }
        ensures taken { IfOk result (λ made. taken_by made.2 ≡ []) }
    {
        let (queue, mut pass) = RuledArrayQueue::ruled(alloc, room)?;
        let desk = Desk { queue, operators };
        let list = desk.deal(alloc, &mut pass)?;
        Ok((desk, list, Taker { pass }))
    }

    // All operators of a new desk, whose passes are made of the taker's.
    fn deal(
        &self,
        alloc: Global,
        taker: &mut Pass<Request, Log>,
    ) -> Result<Vec<Operator>, AllocError>
        requires queue { IsPassOf self.now.queue taker.old }
        requires taker { view taker.old ≡ new_taker }
        requires some { 0 < operator_count self.now }
        ensures queue { OnOk result (IsPassOf self.now.queue taker.new) }
        ensures taker { OnOk result (view taker.new ≡ taker_with (operator_count self.now) true) }
        ensures operators { IfOk result (λ list. AreOperatorsOf self.now list.items) }
        ensures accepted { IfOk result (λ list. All (λ who. accepted_of who ≡ []) list.items) }
    {
        let mut list = Vec::with_capacity(alloc, self.operators as usize)?;
        for number in 0..self.operators {
            let pass = self.next_pass(taker, number + 1 == self.operators);
            list.push(Operator {
                number,
                next: 0,
                pass,
            })?;
        }
        Ok(list)
    }

    // The pass of the next operator, which is the last one or not.
    fn next_pass(&self, taker: &mut Pass<Request, Log>, last: bool) -> Pass<Request, Log>
        requires queue { IsPassOf self.now.queue taker.old }
        requires taker { Taking (view taker.old) }
        requires more { (view taker.old).complete ≡ false }
        ensures queue { IsPassOf self.now.queue taker.new × IsPassOf self.now.queue result }
        ensures taker { view taker.new ≡ with_made (view taker.old) last }
        ensures operator { view result ≡ new_operator (view taker.old).made last }
    {
        if last {
            self.queue.another::<LastOperator>(taker)
        } else {
            self.queue.another::<NextOperator>(taker)
        }
    }

    /// Asks for an event; without one, it says that the operator has ended. Where there is room, the request stands
    /// after all others of this operator. Where the desk is full, nothing is accepted, and the event comes back; from
    /// a desk's only operator at least as many requests were then accepted as there is room for. It may wait for
    /// others that are in the middle of a call. An operator has at most 4,294,967,295 requests.
    pub fn ask<R: Wait>(&self, rt: &R, who: &mut Operator, event: Option<Event>) -> Result<(), Full>
        requires operator { IsOperatorOf self.now who.old }
        requires few { length (accepted_of who.old) < REQUEST_LIMIT }
        ensures same { IsSameOperator who.old who.new }
        ensures accepted { OnOk result (accepted_of who.new ≡ accepted_of who.old ++ next_request who.old event ∷ []) }
        ensures back { IfErr result (λ full. full.event ≡ event) }
        ensures kept { OnErr result (accepted_of who.new ≡ accepted_of who.old) }
        ensures indexed { AreIndexed (accepted_of who.new) }
        ensures full { OnErr result (WasFull self.now who.new) }
        ensures filled { OnErr result (HasFilled self.now who.new) }
    {
        let request = Request {
            operator: who.number,
            index: who.next,
            event,
        };
        match self.queue.push_as::<Asks, R>(rt, &mut who.pass, request) {
            Ok(()) => {
                who.next += 1;
                Ok(())
            }
            Err(back) => Err(Full { event: back.event }),
        }
    }

    /// Takes the oldest request, where there is one. Of its operator it is the one that comes after those that were
    /// taken. It may wait for others that are in the middle of a call.
    pub fn next<R: Wait>(&self, rt: &R, taker: &mut Taker) -> Option<Request>
        requires taker { IsTakerOf self.now taker.old }
        ensures same { IsSameTaker taker.old taker.new }
        ensures taken { MatchOption result (taken_by taker.new ≡ taken_by taker.old)
            (λ request. taken_by taker.new ≡ taken_by taker.old ++ request ∷ []) }
        ensures next { IfSome result (λ request. IsNextRequest self.now taker.old request) }
        ensures none { IfNone result (WasEmpty self.now taker.new) }
    {
        self.queue.pop_as::<TakesRequest, R>(rt, &mut taker.pass)
    }

    /// What is left on the desk, put into an empty lane with room for it, the oldest first. It wants all operators
    /// back, in the order of their numbers. Of each one, the requests that were taken and then those that are left
    /// are the ones that were accepted, in their order and each once. It takes no memory. It may wait, too.
    pub fn finish<R: Wait>(
        self,
        rt: &R,
        operators: Vec<Operator>,
        taker: Taker,
        rest: Lane<Request>,
    ) -> Lane<Request>
        requires operators { AreOperatorsOf self operators.items }
        requires taker { IsTakerOf self taker }
        requires rest { (rest.items ≡ []) × (room_of self ≤ rest.spare) }
        ensures { IsHistory (taken_by taker) result.items (accepted_at operators.items) }
    {
        let Taker { pass } = taker;
        let mut pass = pass;
        let mut rest = rest;
        self.gather(operators, &mut pass);
        self.drain(rt, &mut pass, &mut rest);
        rest
    }

    // The passes of all operators are back.
    fn gather(&self, operators: Vec<Operator>, taker: &mut Pass<Request, Log>)
        requires operators { AreOperatorsOf self.now operators.items }
        requires queue { IsPassOf self.now.queue taker.old }
        requires taker { Taking (view taker.old) }
        requires none { (view taker.old).known ≡ [] }
        ensures queue { IsPassOf self.now.queue taker.new }
        ensures view { view taker.new ≡ with_all_known (view taker.old) (map accepted_of operators.items) }
    {
        for operator in operators {
            let Operator { pass, .. } = operator;
            self.queue.absorb::<OperatorEnded>(taker, pass);
        }
    }

    // Takes all that is left, once no operator asks any more.
    fn drain<R: Wait>(&self, rt: &R, taker: &mut Pass<Request, Log>, rest: &mut Lane<Request>)
        requires queue { IsPassOf self.now.queue taker.old }
        requires taker { Taking (view taker.old) }
        requires back { length (view taker.old).known ≡ (view taker.old).made }
        requires rest { (rest.old.items ≡ []) × (room_of self.now ≤ rest.old.spare) }
        ensures { IsLeft (view taker.old) rest.new.items }
    {
        let count = self.queue.len_as::<Leaves, R>(rt, taker);
        for _ in 0..count {
            let Some(request) = self.queue.pop_as::<Leaves, R>(rt, taker) else {
                unreachable!()
            };
            rest.push(request);
        }
        self.queue.learn_as::<Leaves>(taker);
    }
}
