//! The program of a box that is to be made, as structs of numbers, each of which may say anything.

ghost use Rattle.std.specs.Prelude.{◌≡◌, ◌≢◌, ◌<◌, ◌≤◌, ◌∷◌, [], length, map, take, IfOk, IfSome, IsSome, IsTrue, Some};
ghost use Rattle.std.specs.List.{list_all};
ghost use Rattle.mc_box.specs.Boxes.{first_slot, FitsSlots};
ghost use Rattle.mc_plain.specs.Asked.{kind_of, setup_of};
ghost use Rattle.mc_plain.specs.Programs.{are_goals, end_goal_of, goals_named, guard_of, has_medium, is_goal_at, is_partner, is_program, is_rule, is_state, links_to, program_of, rule_of, rules_named, slot_goal_of, slot_state_of, state_of, states_of};

use crate::asked::PlainSlot;
use mc_rule::{Guard, ProgState, Program, RULE_LIMIT, Rule, STATE_LIMIT};
use mc_slot::{Goal, SlotGoal, State};
use std::alloc::{AllocError, Global};

/// The goal of a slot: 0 for open, 1 for close, 2 for hold, and 3 for a link with the slot `partner`.
#[repr(C)]
#[derive(Clone, Copy)]
pub struct PlainGoal {
    pub goal: u8,
    pub partner: u8,
}

/// A transition to the state `target`. By its guard: 0 waits until the slot `first` is in the state `second` (0 closed,
/// 1 opening, 2 opened, 3 flowing, 4 closing), and 1 until the box is told the word `first`.
#[repr(C)]
#[derive(Clone, Copy)]
pub struct PlainRule {
    pub guard: u8,
    pub first: u8,
    pub second: u8,
    pub target: u8,
}

/// A state of a program: the goals of the slots, by their numbers, and its transitions in order, which are the first
/// `count` of `rules`.
#[repr(C)]
#[derive(Clone, Copy)]
pub struct PlainState {
    pub count: u8,
    pub goals: [PlainGoal; 64],
    pub rules: [PlainRule; 16],
}

impl PlainGoal {
    // The goal that these numbers say.
    fn goal(&self) -> SlotGoal
        ensures { result ≡ slot_goal_of self.now }
    {
        match self.goal {
            0 => SlotGoal::End(Goal::Open),
            1 => SlotGoal::End(Goal::Close),
            3 => SlotGoal::Link(self.partner),
            _ => SlotGoal::End(Goal::Hold),
        }
    }

    // Whether it is a link with this slot.
    fn links_to(&self, local: usize) -> bool
        ensures { result ≡ links_to local (Some self.now) }
    {
        self.goal == 3 && self.partner as usize == local
    }
}

impl PlainRule {
    // The transition that these numbers say.
    fn rule(&self) -> Rule
        ensures { result ≡ rule_of self.now }
    {
        Rule {
            guard: self.guard(),
            target: u32::from(self.target),
        }
    }

    fn guard(&self) -> Guard
        ensures { result ≡ guard_of self.now }
    {
        if self.guard == 0 {
            Guard::SlotIs(self.first, slot_state(self.second))
        } else {
            Guard::Told(self.first)
        }
    }

    // Whether these numbers say a transition of a program of so many slots and states.
    fn is_rule(&self, slots: usize, states: usize) -> bool
        ensures { result ≡ is_rule slots states self.now }
    {
        (self.target as usize) < states
            && if self.guard == 0 {
                (self.first as usize) < slots && self.second < 5
            } else {
                self.guard == 1
            }
    }
}

fn slot_state(number: u8) -> State
    ensures { result ≡ slot_state_of number }
{
    match number {
        0 => State::Closed,
        1 => State::Opening,
        2 => State::Opened,
        3 => State::Flowing,
        _ => State::Closing,
    }
}

impl PlainState {
    // Whether these numbers say a state of a program of so many states.
    fn is_state(&self, slots: &[PlainSlot], states: usize) -> bool
        requires { length slots.now ≤ 64 }
        ensures { result ≡ is_state slots.now states self.now }
    {
        self.count as usize <= RULE_LIMIT
            && are_goals(slots, &self.goals[..slots.len()])
            && are_rules(&self.rules[..self.count as usize], slots.len(), states)
    }

    // The state that they say.
    fn state(&self, alloc: Global, slots: usize) -> Result<ProgState, AllocError>
        requires slots { slots ≤ 64 }
        requires rules { self.now.count ≤ 16 }
        ensures { IfOk result (λ made. made ≡ state_of slots self.now) }
    {
        Ok(ProgState {
            goals: slot_goals(alloc, &self.goals[..slots])?,
            rules: rules(alloc, &self.rules[..self.count as usize])?,
        })
    }
}

fn slot_goals(alloc: Global, goals: &[PlainGoal]) -> Result<Vec<SlotGoal>, AllocError>
    ensures { IfOk result (λ made. made.items ≡ map slot_goal_of goals.now) }
{
    goals.iter().map(|goal| goal.goal()).collect(alloc)
}

fn rules(alloc: Global, rules: &[PlainRule]) -> Result<Vec<Rule>, AllocError>
    ensures { IfOk result (λ made. made.items ≡ map rule_of rules.now) }
{
    rules.iter().map(|rule| rule.rule()).collect(alloc)
}

fn are_rules(rules: &[PlainRule], slots: usize, states: usize) -> bool
    ensures { result ≡ list_all (is_rule slots states) rules.now }
{
    rules.iter().all(|rule| rule.is_rule(slots, states))
}

// Whether each slot has a goal that it may have.
fn are_goals(slots: &[PlainSlot], goals: &[PlainGoal]) -> bool
    ensures { result ≡ are_goals slots.now goals.now }
{
    for local in 0..slots.len() {
        if !is_goal_at(slots, goals, local) {
            return false;
        }
    }
    true
}

fn is_goal_at(slots: &[PlainSlot], goals: &[PlainGoal], local: usize) -> bool
    ensures { result ≡ is_goal_at slots.now goals.now local }
{
    match (slots.get(local), goals.get(local)) {
        (Some(slot), Some(goal)) => {
            if goal.goal == 3 {
                is_partner(slots, goals, local, slot.medium, goal.partner)
            } else {
                goal.goal < 3
            }
        }
        _ => false,
    }
}

// Whether a slot may be the partner of the slot `local`, which has this medium.
fn is_partner(
    slots: &[PlainSlot],
    goals: &[PlainGoal],
    local: usize,
    medium: u8,
    partner: u8,
) -> bool
    ensures { result ≡ is_partner slots.now goals.now local medium partner }
{
    let partner = partner as usize;
    match (slots.get(partner), goals.get(partner)) {
        (Some(slot), Some(goal)) => {
            partner != local && slot.medium == medium && goal.links_to(local)
        }
        _ => false,
    }
}

/// Whether these numbers say a program of a box of this kind and these slots; without states they say none.
pub fn is_program(kind: u8, slots: &[PlainSlot], states: &[PlainState]) -> bool
    requires { length slots.now ≤ 64 }
    ensures { result ≡ is_program kind slots.now states.now }
{
    states.is_empty() || kind == 1 && states.len() <= STATE_LIMIT && are_states(slots, states)
}

fn are_states(slots: &[PlainSlot], states: &[PlainState]) -> bool
    requires { length slots.now ≤ 64 }
    ensures { result ≡ list_all (is_state slots.now (length states.now)) states.now }
{
    let count = states.len();
    states.iter().all(|state| state.is_state(slots, count))
}

/// The program that they say.
pub fn program_of(
    alloc: Global,
    kind: u8,
    slots: &[PlainSlot],
    states: &[PlainState],
) -> Result<Option<Program>, AllocError>
    requires slots { length slots.now ≤ 64 }
    requires says { IsTrue (is_program kind slots.now states.now) }
    ensures program { IfOk result (λ made. made ≡ program_of (length slots.now) states.now) }
    ensures fits { IfOk result (λ made. IfSome made
        (FitsSlots (kind_of kind) (map first_slot (map setup_of slots.now)))) }
{
    if states.is_empty() {
        return Ok(None);
    }
    let states = states_of(alloc, slots, states)?;
    Ok(Some(Program::new(states)))
}

fn states_of(
    alloc: Global,
    slots: &[PlainSlot],
    states: &[PlainState],
) -> Result<Vec<ProgState>, AllocError>
    requires slots { length slots.now ≤ 64 }
    requires says { IsTrue (list_all (is_state slots.now (length states.now)) states.now) }
    ensures { IfOk result (λ made. made.items ≡ states_of (length slots.now) states.now) }
{
    let mut made = Vec::new(alloc);
    for i in 0..states.len() {
        made.push(states[i].state(alloc, slots.len())?)?;
    }
    Ok(made)
}
