// The turns of a box's goals.

ghost use Rattle.std.specs.Prelude.{◌≡◌, ◌+◌, ◌<◌, ◌≤◌, length, Some, IsSome};
ghost use Rattle.mc_link.specs.LinkTurn.{NamesClosed, closed_side};
ghost use Rattle.mc_slot.specs.Moves.{slot_take};
ghost use Rattle.mc_slot.specs.Sending.{HasPlaces};
ghost use Rattle.mc_slot.specs.declared.SlotGoal.TheVariants.{End, Link};
ghost use Rattle.mc_slot.specs.declared.State.TheVariants.{Closed};
ghost use Rattle.mc_box.specs.BoxEvents.{end_step, goal_step, link_step, pair_length, pair_step, side_of, step_of, take_step, turn_length, turn_length_by};
ghost use Rattle.mc_box.specs.BoxSound.{box_state, AddsTo, IsSoundBox, IsWired};
ghost use Rattle.mc_box.specs.Boxes.{goal_at, slot_at};
ghost use Rattle.mc_box.specs.Goals.{most_signals};

use crate::parts::BoxParts;
use mc_goal::send_end_turn;
use mc_link::{Side, send_link_turn};
use mc_signal::Signal;
use mc_slot::{Cause, Goal, Sends, SlotGoal, cause_of};

impl BoxParts {
    // An end sends what its goal lacks.
    fn end_step(&mut self, local: u8, goal: Goal, cause: Cause, sends: &mut Sends)
        requires wired { IsWired (box_state self.old) }
        requires here { local < length self.old.slots.items }
        requires room { HasPlaces sends.old (turn_length_by (End goal) (box_state self.old) local cause) }
        ensures turn { AddsTo (end_step goal (box_state self.old) local cause) self.new sends.old sends.new }
        ensures len { sends.new.len ≡ sends.old.len + turn_length_by (End goal) (box_state self.old) local cause }
    {
        let own = self.own(local);
        let me = self.sender(local);
        let push = matches!(cause, Cause::Push);
        let slot = &mut self.slots[local as usize];
        send_end_turn(slot, local, goal, push, own, &me, sends);
    }

    // Two linked slots, the lower one first, pass on what each has of the other.
    fn pair_step(&mut self, low: u8, high: u8, closed: Option<Side>, sends: &mut Sends)
        requires wired { IsWired (box_state self.old) }
        requires order { low < high }
        requires here { high < length self.old.slots.items }
        requires medium { (slot_at (box_state self.old) low).medium ≡ (slot_at (box_state self.old) high).medium }
        requires closed { NamesClosed closed (slot_at (box_state self.old) low) (slot_at (box_state self.old) high) }
        requires room { HasPlaces sends.old (pair_length (box_state self.old) low high closed) }
        ensures turn { AddsTo (pair_step (box_state self.old) low high closed) self.new sends.old sends.new }
        ensures len { sends.new.len ≡ sends.old.len + pair_length (box_state self.old) low high closed }
    {
        let (lower, rest) = self.slots.split_at_mut(high as usize);
        let first = &mut lower[low as usize];
        let second = &mut rest[0];
        send_link_turn(first, low, second, high, closed, sends);
    }

    // A link has its turn, as seen from one of its slots.
    fn link_step(&mut self, local: u8, partner: u8, cause: Cause, sends: &mut Sends)
        requires wired { IsWired (box_state self.old) }
        requires here { local < length self.old.slots.items }
        requires linked { goal_at (box_state self.old) local ≡ Link partner }
        requires closed { cause ≡ Cause.Close → (slot_at (box_state self.old) local).state ≡ Closed }
        requires room { HasPlaces sends.old (turn_length_by (Link partner) (box_state self.old) local cause) }
        ensures turn { AddsTo (link_step (box_state self.old) local partner cause) self.new sends.old sends.new }
        ensures len { sends.new.len ≡ sends.old.len + turn_length_by (Link partner) (box_state self.old) local cause }
    {
        let side = closed_side(cause, side_of(local, partner));
        self.pair_step(local.min(partner), local.max(partner), side, sends);
    }

    // The goal that holds a slot has its turn, by what it follows, and its sendings come after those that are there.
    fn goal_step(&mut self, local: u8, cause: Cause, sends: &mut Sends)
        requires wired { IsWired (box_state self.old) }
        requires here { local < length self.old.slots.items }
        requires closed { cause ≡ Cause.Close → (slot_at (box_state self.old) local).state ≡ Closed }
        requires room { HasPlaces sends.old (turn_length (box_state self.old) local cause) }
        ensures turn { AddsTo (goal_step (box_state self.old) local cause) self.new sends.old sends.new }
        ensures len { sends.new.len ≡ sends.old.len + turn_length (box_state self.old) local cause }
    {
        match self.goals[local as usize] {
            SlotGoal::End(goal) => self.end_step(local, goal, cause, sends),
            SlotGoal::Link(partner) => self.link_step(local, partner, cause, sends),
        }
    }

    /// The turn of the goal that holds a slot, by what it follows.
    pub(crate) fn goal_turn(&mut self, local: u8, cause: Cause) -> Sends
        requires wired { IsWired (box_state self.old) }
        requires here { local < length self.old.slots.items }
        requires closed { cause ≡ Cause.Close → (slot_at (box_state self.old) local).state ≡ Closed }
        ensures turn { goal_step (box_state self.old) local cause ≡ Some (step_of result (box_state self.new)) }
        ensures few { result.len ≤ most_signals (goal_at (box_state self.old) local) }
    {
        let mut turn = Sends::none();
        self.goal_step(local, cause, &mut turn);
        turn
    }

    /// A slot takes a signal that is lawful for it, and the goal that holds it has its turn. What is sent comes after
    /// what is there.
    pub(crate) fn send_take(&mut self, local: u8, s: Signal, sends: &mut Sends)
        requires sound { IsSoundBox (box_state self.old) }
        requires here { local < length self.old.slots.items }
        requires lawful { IsSome (slot_take (slot_at (box_state self.old) local) s) }
        requires room { HasPlaces sends.old 3 }
        ensures step { AddsTo (take_step (box_state self.old) local s) self.new sends.old sends.new }
        ensures few { sends.new.len ≤ sends.old.len + 3 }
    {
        let slot = &mut self.slots[local as usize];
        let answer = slot.take(s);
        let cause = cause_of(&s, slot.state);
        sends.push_answer(local, answer);
        self.goal_step(local, cause, sends);
    }
}

// On which side of a link a slot stands.
fn side_of(local: u8, partner: u8) -> Side
    ensures { result ≡ side_of local partner }
{
    if local < partner {
        Side::First
    } else {
        Side::Second
    }
}

// The side of the slot, where a close has closed it.
fn closed_side(cause: Cause, side: Side) -> Option<Side>
    ensures { result ≡ closed_side cause side }
{
    match cause {
        Cause::Close => Some(side),
        Cause::Other | Cause::Push => None,
    }
}
