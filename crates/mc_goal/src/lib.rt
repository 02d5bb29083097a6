//! The turn of an end: what it sends by its goal, after something that concerns it.
#![tactic(auto)]

ghost use Rattle.std.specs.Prelude.{◌≡◌, ◌+◌, ◌≤◌, Some, IsSome, IsTrue, length, map};
ghost use Rattle.mc_slot.specs.EndTurn.{describe_newer, end_turn, live_turn, owes, select_newer};
ghost use Rattle.mc_slot.specs.Moves.{is_live, slot_send_all};
ghost use Rattle.mc_slot.specs.Sending.{Adds, HasPlaces, sends_of, pair_of};

use mc_signal::{Descriptor, Selector, Sender, Signal, choose};
use mc_slot::{Goal, Sends, Slot, State};

/// The turn of an end, pushed or not: sends what its goal lacks.
pub fn end_turn(
    slot: &mut Slot,
    no: u8,
    goal: Goal,
    push: bool,
    own: Descriptor,
    me: &Sender,
) -> Sends
    requires { IsTrue (is_live slot.old.state) → IsSome slot.old.got }
    ensures sends { sends_of result ≡ map (pair_of no) (end_turn goal slot.old push own me.now) }
    ensures after { slot_send_all slot.old (end_turn goal slot.old push own me.now) ≡ Some slot.new }
    ensures few { result.len ≤ 2 }
{
    let mut sends = Sends::none();
    send_end_turn(slot, no, goal, push, own, me, &mut sends);
    sends
}

/// The same turn, whose sendings come after those that are there.
pub fn send_end_turn(
    slot: &mut Slot,
    no: u8,
    goal: Goal,
    push: bool,
    own: Descriptor,
    me: &Sender,
    sends: &mut Sends,
)
    requires got { IsTrue (is_live slot.old.state) → IsSome slot.old.got }
    requires room { HasPlaces sends.old (length (end_turn goal slot.old push own me.now)) }
    ensures sends { Adds sends.old sends.new no (end_turn goal slot.old push own me.now) }
    ensures after { slot_send_all slot.old (end_turn goal slot.old push own me.now) ≡ Some slot.new }
    ensures len { sends.new.len ≡ sends.old.len + length (end_turn goal slot.old push own me.now) }
{
    match (slot.state, goal) {
        (State::Closed, Goal::Open) => {
            if push {
                let open = Signal::Open(slot.medium, own);
                slot.send(open);
                sends.push(no, open);
            }
        }
        (State::Closed | State::Closing, _) => {}
        (_, Goal::Close) => {
            slot.send(Signal::Close);
            sends.push(no, Signal::Close);
        }
        (State::Opening, _) => {}
        (State::Opened, _) => accept(slot, no, own, me, sends),
        (State::Flowing, _) => describe_anew(slot, no, own, me, sends),
    }
}

// An opened slot accepts, and answers the descriptor that it got.
fn accept(slot: &mut Slot, no: u8, own: Descriptor, me: &Sender, sends: &mut Sends)
    requires opened { slot.old.state ≡ State.Opened }
    requires got { IsSome slot.old.got }
    requires room { HasPlaces sends.old (length (live_turn slot.old.state slot.old own me.now)) }
    ensures sends { Adds sends.old sends.new no (live_turn slot.old.state slot.old own me.now) }
    ensures after { slot_send_all slot.old (live_turn slot.old.state slot.old own me.now) ≡ Some slot.new }
    ensures len { sends.new.len ≡ sends.old.len + length (live_turn slot.old.state slot.old own me.now) }
{
    if let Some(got) = slot.got {
        let select = Signal::Select(choose(got, me));
        slot.send(Signal::Oack(own));
        slot.send(select);
        sends.push(no, Signal::Oack(own));
        sends.push(no, select);
    }
}

// A flowing slot sends its descriptor and its selector, each where it differs from the last.
fn describe_anew(slot: &mut Slot, no: u8, own: Descriptor, me: &Sender, sends: &mut Sends)
    requires flowing { slot.old.state ≡ State.Flowing }
    requires got { IsSome slot.old.got }
    requires room { HasPlaces sends.old (length (live_turn slot.old.state slot.old own me.now)) }
    ensures sends { Adds sends.old sends.new no (live_turn slot.old.state slot.old own me.now) }
    ensures after { slot_send_all slot.old (live_turn slot.old.state slot.old own me.now) ≡ Some slot.new }
    ensures len { sends.new.len ≡ sends.old.len + length (live_turn slot.old.state slot.old own me.now) }
{
    if let Some(got) = slot.got {
        describe_newer(slot, no, own, sends);
        select_newer(slot, no, choose(got, me), sends);
    }
}

// A flowing slot sends its descriptor, where it differs from the last.
fn describe_newer(slot: &mut Slot, no: u8, own: Descriptor, sends: &mut Sends)
    requires flowing { slot.old.state ≡ State.Flowing }
    requires room { HasPlaces sends.old (length (describe_newer slot.old.sent own)) }
    ensures sends { Adds sends.old sends.new no (describe_newer slot.old.sent own) }
    ensures after { slot_send_all slot.old (describe_newer slot.old.sent own) ≡ Some slot.new }
    ensures len { sends.new.len ≡ sends.old.len + length (describe_newer slot.old.sent own) }
    ensures flowing { slot.new.state ≡ State.Flowing }
    ensures selector { slot.new.sel_out ≡ slot.old.sel_out }
{
    if slot.sent != Some(own) {
        slot.send(Signal::Describe(own));
        sends.push(no, Signal::Describe(own));
    }
}

// A flowing slot sends a selector, where it differs from the last.
fn select_newer(slot: &mut Slot, no: u8, choice: Selector, sends: &mut Sends)
    requires flowing { slot.old.state ≡ State.Flowing }
    requires room { HasPlaces sends.old (length (select_newer slot.old.sel_out choice)) }
    ensures sends { Adds sends.old sends.new no (select_newer slot.old.sel_out choice) }
    ensures after { slot_send_all slot.old (select_newer slot.old.sel_out choice) ≡ Some slot.new }
    ensures len { sends.new.len ≡ sends.old.len + length (select_newer slot.old.sel_out choice) }
{
    if slot.sel_out != Some(choice) {
        slot.send(Signal::Select(choice));
        sends.push(no, Signal::Select(choice));
    }
}

/// Whether a slot owes a retry: its goal is open, and it is closed.
pub fn owes(slot: &Slot, goal: Goal) -> bool
    ensures { result ≡ owes goal slot.now }
{
    goal == Goal::Open && slot.state == State::Closed
}
