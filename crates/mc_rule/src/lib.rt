//! The program of a box: its states, and which transition is enabled.
#![tactic(auto)]

ghost use Rattle.std.specs.Prelude.{◌≡◌, ◌<◌, length, IfSome};
ghost use Rattle.mc_rule.specs.Programs.{IsProgram, enabled, first_that_holds, holds, shifted_by};

use mc_slot::{Slot, SlotGoal, State};
use std::marker::Model;

/// The most states of a program.
pub const STATE_LIMIT: usize = 64;

/// The most transitions of a state.
pub const RULE_LIMIT: usize = 16;

/// What a transition waits for.
#[derive(Clone, Copy, PartialEq, Eq, Debug)]
pub enum Guard {
    /// The slot with this local number is in this state.
    SlotIs(u8, State),
    /// The box was told this word, by its number, and hasn't used it.
    Told(u8),
}

/// A transition: what it waits for, and the number of the state that it leads to.
#[derive(Clone, Copy, PartialEq, Eq, Debug)]
pub struct Rule {
    pub guard: Guard,
    pub target: u32,
}

/// A state: the goal of each slot of the box, and the transitions in their order.
#[derive(Debug, Drop)]
pub struct ProgState {
    pub goals: Vec<SlotGoal>,
    pub rules: Vec<Rule>,
}

impl Model for ProgState {
    ghost use Rattle.mc_rule.specs.Programs.{ProgStateState};

    ghost Value = { ProgStateState };

    ghost view = { λ s. record { goals = s.goals.items; rules = s.rules.items } };
}

/// An enabled transition: the number of the state that it leads to, and whether it uses up the told word.
#[derive(Clone, Copy, PartialEq, Eq, Debug)]
pub struct Shifted {
    pub target: u32,
    pub spends: bool,
}

/// The program of a box: one to 64 states, each with a goal for every slot of the box and with up to 16 transitions.
/// Links are mutual, and transitions name slots and states that are there.
#[derive(Debug, Drop)]
pub struct Program {
    states: Vec<ProgState>,
}

impl Model for Program {
    ghost use Rattle.std.specs.Prelude.{List};
    ghost use Rattle.mc_rule.specs.Programs.{IsProgram, ProgStateState};

    ghost Value = { List ProgStateState };

    ghost view = { λ p. p.states.items };

    ghost invariant = { λ p. IsProgram p.states.items };
}

impl Program {
    /// A program of these states. It takes no memory.
    pub fn new(states: Vec<ProgState>) -> Program
        requires { IsProgram states.items }
        ensures { result ≡ states.items }
    {
        Program { states }
    }

    /// What every program keeps, for a caller to rest on.
    pub fn keeps(&self)
        ensures { IsProgram self.now }
    {
        let _ = &self.states;
    }

    /// The states, by their numbers.
    pub fn states(&self) -> &[ProgState]
        ensures { result.now ≡ self.now }
    {
        &self.states
    }

    /// The enabled transition of a box that is at this state, has these slots, and was told this word. At no state it
    /// is the one to the first state; else the first whose guard holds, and none comes exactly where none holds.
    pub fn enabled(&self, at: Option<u32>, slots: &[Slot], told: Option<u8>) -> Option<Shifted>
        requires at { IfSome at (λ state. state < length self.now) }
        ensures { result ≡ enabled self.now at slots.now told }
    {
        match at {
            None => Some(Shifted {
                target: 0,
                spends: false,
            }),
            Some(state) => {
                let rule = first_that_holds(&self.states[state as usize].rules, slots, told)?;
                Some(shifted_by(rule))
            }
        }
    }
}

// The first transition whose guard holds.
fn first_that_holds(rules: &[Rule], slots: &[Slot], told: Option<u8>) -> Option<Rule>
    ensures { result ≡ first_that_holds rules.now slots.now told }
{
    rules
        .iter()
        .copied()
        .find(|rule| holds(slots, told, rule.guard))
}

// Whether a guard holds.
fn holds(slots: &[Slot], told: Option<u8>, guard: Guard) -> bool
    ensures { result ≡ holds slots.now told guard }
{
    match guard {
        Guard::SlotIs(local, state) => match slots.get(local as usize) {
            Some(slot) => slot.state == state,
            None => false,
        },
        Guard::Told(word) => told == Some(word),
    }
}

// Where a transition leads.
fn shifted_by(rule: Rule) -> Shifted
    ensures { result ≡ shifted_by rule }
{
    Shifted {
        target: rule.target,
        spends: matches!(rule.guard, Guard::Told(_)),
    }
}
