// What an operator asks of the boxes of a network.

ghost use Rattle.std.specs.Prelude.{◌≡◌, ◌≢◌, ◌+◌, ◌==◌, ◌<◌, ◌≤◌, ◌++◌, ◌∷◌, [], ℕ, None, Some, if◌then◌else◌, length, All};
ghost use Rattle.mc_desk.specs.Desks.{IsOperatorOf, IsSameOperator, accepted_of, next_request};
ghost use Rattle.mc_desk.specs.declared.limit.TheConstants.{REQUEST_LIMIT};
ghost use Rattle.mc_live.specs.Askers.{HasAsked, HasPasses, IsNewAsker, IsSameAsker, asked_at, asks_for};

use crate::asker::Asker;
use crate::limit::FIRST_OPERATOR_GATE;
use mc_box::{Event, Turn};
use mc_desk::{Desk, Operator};
use mc_io::Gate;
use std::sync::Wait;
use std::thread::yield_now;

/// Asks for the turns of a hand, one after the other, each at the desk of its box, and then says on each desk that the
/// operator has ended. Where a desk is full it asks again.
///
/// Before its k-th ask operator o tells the gate so, as `256 + o`; k counts from 1.
pub fn ask_all<R: Wait, G: Gate>(rt: &R, gate: &G, desks: &[Desk], hand: &[Turn], asker: &mut Asker)
    requires new { IsNewAsker desks.now asker.old }
    requires boxes { All (λ turn. turn.who < length desks.now) hand.now }
    requires few { length hand.now < REQUEST_LIMIT }
    ensures { HasAsked hand.now asker.old asker.new }
{
    ask_hand(rt, gate, desks, hand, asker);
    end_all(rt, gate, desks, hand, asker);
}

// Asks for the turns of a hand.
fn ask_hand<R: Wait, G: Gate>(rt: &R, gate: &G, desks: &[Desk], hand: &[Turn], asker: &mut Asker)
    requires new { IsNewAsker desks.now asker.old }
    requires boxes { All (λ turn. turn.who < length desks.now) hand.now }
    requires few { length hand.now < REQUEST_LIMIT }
    ensures passes { HasPasses desks.now asker.new }
    ensures same { IsSameAsker asker.old asker.new }
    ensures asked { (who : ℕ) → asked_at asker.new who ≡ asks_for who hand.now }
{
    for turn in hand {
        ask_at(rt, gate, desks, turn.who as usize, Some(turn.event), asker);
    }
}

// Says on each desk that the operator has ended, once it has asked for a hand.
fn end_all<R: Wait, G: Gate>(rt: &R, gate: &G, desks: &[Desk], hand: &[Turn], asker: &mut Asker)
    requires passes { HasPasses desks.now asker.old }
    requires asked { (who : ℕ) → asked_at asker.old who ≡ asks_for who hand.now }
    requires few { length hand.now < REQUEST_LIMIT }
    ensures same { IsSameAsker asker.old asker.new }
    ensures asked { (who : ℕ) → who < length desks.now → asked_at asker.new who ≡ asks_for who hand.now ++ None ∷ [] }
{
    for at in 0..desks.len() {
        ask_at(rt, gate, desks, at, None, asker);
    }
}

// Asks for an event at the desk of a box, or says there that the operator has ended.
fn ask_at<R: Wait, G: Gate>(
    rt: &R,
    gate: &G,
    desks: &[Desk],
    at: usize,
    event: Option<Event>,
    asker: &mut Asker,
)
    requires passes { HasPasses desks.now asker.old }
    requires there { at < length desks.now }
    requires few { length (asked_at asker.old at) < REQUEST_LIMIT }
    ensures passes { HasPasses desks.now asker.new }
    ensures same { IsSameAsker asker.old asker.new }
    ensures asked { (who : ℕ) → asked_at asker.new who
        ≡ asked_at asker.old who ++ (if who == at then event ∷ [] else []) }
{
    let number = asker.number;
    ask(
        rt,
        gate,
        number,
        &mut asker.asks,
        &desks[at],
        &mut asker.passes[at],
        event,
    );
}

// Asks at one desk until there is room.
fn ask<R: Wait, G: Gate>(
    rt: &R,
    gate: &G,
    number: u32,
    asks: &mut u32,
    desk: &Desk,
    who: &mut Operator,
    event: Option<Event>,
)
    requires operator { IsOperatorOf desk.now who.old }
    requires few { length (accepted_of who.old) < REQUEST_LIMIT }
    ensures same { IsSameOperator who.old who.new }
    ensures accepted { accepted_of who.new ≡ accepted_of who.old ++ next_request who.old event ∷ [] }
{
    for _ in rt.forever() {
        *asks = asks.saturating_add(1);
        gate.reached(FIRST_OPERATOR_GATE.saturating_add(number), *asks);
        match desk.ask(rt, who, event) {
            Ok(()) => return,
            Err(_full) => yield_now(),
        }
    }
    unreachable!()
}
