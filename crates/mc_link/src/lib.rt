//! The turn of a link: what two linked slots send, after something that concerns one of them.
#![tactic(auto)]

ghost use Rattle.std.specs.Prelude.{◌≡◌, ◌+◌, ◌<◌, ◌++◌, [], ◌∷◌, Some, IsSome, IsTrue, length, map};
ghost use Rattle.std.specs.Option.{option_eq};
ghost use Rattle.mc_signal.specs.Same.{is_same_descriptor, is_same_selector};
ghost use Rattle.mc_link.specs.LinkTurn.{AddsBoth, NamesClosed, can_close, open_with, pass_descriptor, pass_selector, flow, lean, link_turn, sent_by_first, sent_by_second, with_number};
ghost use Rattle.mc_slot.specs.Moves.{is_live, slot_send, slot_send_all};
ghost use Rattle.mc_slot.specs.Sending.{Adds, HasPlaces, sends_of, pair_of};
ghost use Rattle.mc_slot.specs.declared.sends.TheConstants.{SENDS_LIMIT};

use mc_signal::{Descriptor, Selector, Signal, answers};
use mc_slot::{Sends, Slot, State};

pub mod laws;

/// One of the two slots of a link. The first is the one with the lower local number.
#[derive(Clone, Copy, PartialEq, Eq, Debug)]
pub enum Side {
    First,
    Second,
}

/// The turn of a link: passes on to each of its slots what the other has got.
///
/// `closed_by_far` names the slot that became closed in this turn because it took a close.
pub fn link_turn(a: &mut Slot, an: u8, b: &mut Slot, bn: u8, closed_by_far: Option<Side>) -> Sends
    requires order { an < bn }
    requires medium { a.old.medium ≡ b.old.medium }
    requires got_first { IsTrue (is_live a.old.state) → IsSome a.old.got }
    requires got_second { IsTrue (is_live b.old.state) → IsSome b.old.got }
    requires closed { NamesClosed closed_by_far a.old b.old }
    ensures sends { sends_of result ≡ map (with_number an bn) (link_turn a.old b.old closed_by_far) }
    ensures first { slot_send_all a.old (sent_by_first (link_turn a.old b.old closed_by_far)) ≡ Some a.new }
    ensures second { slot_send_all b.old (sent_by_second (link_turn a.old b.old closed_by_far)) ≡ Some b.new }
    ensures len { result.len ≡ length (link_turn a.old b.old closed_by_far) }
{
    let mut sends = Sends::none();
    send_link_turn(a, an, b, bn, closed_by_far, &mut sends);
    sends
}

/// The same turn, whose sendings come after those that are there.
pub fn send_link_turn(
    a: &mut Slot,
    an: u8,
    b: &mut Slot,
    bn: u8,
    closed_by_far: Option<Side>,
    sends: &mut Sends,
)
    requires order { an < bn }
    requires medium { a.old.medium ≡ b.old.medium }
    requires got_first { IsTrue (is_live a.old.state) → IsSome a.old.got }
    requires got_second { IsTrue (is_live b.old.state) → IsSome b.old.got }
    requires closed { NamesClosed closed_by_far a.old b.old }
    requires room { HasPlaces sends.old (length (link_turn a.old b.old closed_by_far)) }
    ensures sends { AddsBoth sends.old sends.new an bn (link_turn a.old b.old closed_by_far) }
    ensures first { slot_send_all a.old (sent_by_first (link_turn a.old b.old closed_by_far)) ≡ Some a.new }
    ensures second { slot_send_all b.old (sent_by_second (link_turn a.old b.old closed_by_far)) ≡ Some b.new }
    ensures len { sends.new.len ≡ sends.old.len + length (link_turn a.old b.old closed_by_far) }
{
    match closed_by_far {
        Some(Side::First) => {
            if can_close(b) {
                send_alone(b, bn, Signal::Close, sends)
            } else {
                lean(a, an, b, bn, sends)
            }
        }
        Some(Side::Second) => {
            if can_close(a) {
                send_alone(a, an, Signal::Close, sends)
            } else {
                lean(a, an, b, bn, sends)
            }
        }
        None => lean(a, an, b, bn, sends),
    }
}

// Whether the slot may send close.
fn can_close(slot: &Slot) -> bool
    ensures { result ≡ can_close slot.now.state }
{
    matches!(slot.state, State::Opening | State::Opened | State::Flowing)
}

// Sends one signal, and nothing else.
fn send_alone(slot: &mut Slot, no: u8, s: Signal, sends: &mut Sends)
    requires may { IsSome (slot_send slot.old s) }
    requires room { sends.old.len < SENDS_LIMIT }
    ensures sends { sends_of sends.new ≡ sends_of sends.old ++ pair_of no s ∷ [] }
    ensures after { slot_send slot.old s ≡ Some slot.new }
    ensures len { sends.new.len ≡ sends.old.len + 1 }
{
    slot.send(s);
    sends.push(no, s);
}

// Leans towards media: asks for them where one slot alone is live, and passes on what is new where both are.
fn lean(a: &mut Slot, an: u8, b: &mut Slot, bn: u8, sends: &mut Sends)
    requires got_first { IsTrue (is_live a.old.state) → IsSome a.old.got }
    requires got_second { IsTrue (is_live b.old.state) → IsSome b.old.got }
    requires room { HasPlaces sends.old (length (lean a.old b.old)) }
    ensures sends { AddsBoth sends.old sends.new an bn (lean a.old b.old) }
    ensures first { slot_send_all a.old (sent_by_first (lean a.old b.old)) ≡ Some a.new }
    ensures second { slot_send_all b.old (sent_by_second (lean a.old b.old)) ≡ Some b.new }
    ensures len { sends.new.len ≡ sends.old.len + length (lean a.old b.old) }
{
    match (a.state, b.state) {
        (State::Closed, State::Opened | State::Flowing) => open_with(a, an, b.got, sends),
        (State::Opened | State::Flowing, State::Closed) => open_with(b, bn, a.got, sends),
        (State::Opened | State::Flowing, State::Opened | State::Flowing) => {
            flow(a, an, b, bn, sends)
        }
        _ => {}
    }
}

// A closed slot asks for media, with the descriptor that the other slot got.
fn open_with(slot: &mut Slot, no: u8, got: Option<Descriptor>, sends: &mut Sends)
    requires closed { slot.old.state ≡ State.Closed }
    requires room { HasPlaces sends.old (length (open_with slot.old got)) }
    ensures sends { Adds sends.old sends.new no (open_with slot.old got) }
    ensures after { slot_send_all slot.old (open_with slot.old got) ≡ Some slot.new }
    ensures len { sends.new.len ≡ sends.old.len + length (open_with slot.old got) }
{
    if let Some(got) = got {
        send_alone(slot, no, Signal::Open(slot.medium, got), sends);
    }
}

// Two live slots pass on what is new: first the descriptors, then the selectors.
fn flow(a: &mut Slot, an: u8, b: &mut Slot, bn: u8, sends: &mut Sends)
    requires live_first { IsTrue (is_live a.old.state) }
    requires live_second { IsTrue (is_live b.old.state) }
    requires got_first { IsSome a.old.got }
    requires got_second { IsSome b.old.got }
    requires room { HasPlaces sends.old (length (flow a.old b.old)) }
    ensures sends { AddsBoth sends.old sends.new an bn (flow a.old b.old) }
    ensures first { slot_send_all a.old (sent_by_first (flow a.old b.old)) ≡ Some a.new }
    ensures second { slot_send_all b.old (sent_by_second (flow a.old b.old)) ≡ Some b.new }
    ensures len { sends.new.len ≡ sends.old.len + length (flow a.old b.old) }
{
    pass_descriptor(a, an, &b.got, sends);
    pass_descriptor(b, bn, &a.got, sends);
    pass_selector(a, an, &b.sel_in, sends);
    pass_selector(b, bn, &a.sel_in, sends);
}

// A live slot passes on the descriptor that the other slot got, where it is new.
fn pass_descriptor(slot: &mut Slot, no: u8, got: &Option<Descriptor>, sends: &mut Sends)
    requires live { IsTrue (is_live slot.old.state) }
    requires got { IsSome got.now }
    requires room { HasPlaces sends.old (length (pass_descriptor slot.old.state slot.old.sent got.now)) }
    ensures after { slot_send_all slot.old (pass_descriptor slot.old.state slot.old.sent got.now) ≡ Some slot.new }
    ensures flowing { slot.new.state ≡ State.Flowing }
    ensures got { slot.new.got ≡ slot.old.got }
    ensures sel_in { slot.new.sel_in ≡ slot.old.sel_in }
    ensures sel_out { slot.new.sel_out ≡ slot.old.sel_out }
    ensures sends { Adds sends.old sends.new no (pass_descriptor slot.old.state slot.old.sent got.now) }
    ensures len { sends.new.len ≡ sends.old.len + length (pass_descriptor slot.old.state slot.old.sent got.now) }
{
    if let Some(got) = got {
        if slot.state == State::Opened {
            send_alone(slot, no, Signal::Oack(*got), sends);
        } else if !is_sent(&slot.sent, got) {
            send_alone(slot, no, Signal::Describe(*got), sends);
        }
    }
}

// A flowing slot passes on the selector that the other slot got, where it answers this slot's descriptor and is new.
fn pass_selector(slot: &mut Slot, no: u8, heard: &Option<Selector>, sends: &mut Sends)
    requires flowing { slot.old.state ≡ State.Flowing }
    requires room { HasPlaces sends.old (length (pass_selector heard.now slot.old.got slot.old.sel_out)) }
    ensures after { slot_send_all slot.old (pass_selector heard.now slot.old.got slot.old.sel_out) ≡ Some slot.new }
    ensures sel_in { slot.new.sel_in ≡ slot.old.sel_in }
    ensures sends { Adds sends.old sends.new no (pass_selector heard.now slot.old.got slot.old.sel_out) }
    ensures len { sends.new.len ≡ sends.old.len + length (pass_selector heard.now slot.old.got slot.old.sel_out) }
{
    if let (Some(heard), Some(got)) = (heard, slot.got) {
        if answers(heard, &got) && !is_chosen(&slot.sel_out, heard) {
            send_alone(slot, no, Signal::Select(*heard), sends);
        }
    }
}

// Whether the last descriptor that was sent is this one. Inlined, it would have the copy beside it made field by
// field, and whoever reads that copy next, as a whole, would wait for it.
#[inline(never)]
fn is_sent(last: &Option<Descriptor>, got: &Descriptor) -> bool
    ensures { result ≡ option_eq is_same_descriptor last.now (Some got.now) }
{
    *last == Some(*got)
}

// Whether the last selector that was sent is this one, apart for the same cause.
#[inline(never)]
fn is_chosen(last: &Option<Selector>, heard: &Selector) -> bool
    ensures { result ≡ option_eq is_same_selector last.now (Some heard.now) }
{
    *last == Some(*heard)
}
