// Programs of boxes, as they are drawn.

ghost use Rattle.std.specs.Prelude.{◌≡◌, ◌<◌, ◌≤◌, ℕ, All, length, Some, IfOk};
ghost use Rattle.std.specs.List.{slice_get};
ghost use Rattle.mc_rule.specs.Programs.{IsMutual, IsState, NamesSlot};

use crate::settles::below;
use mc_rule::{Guard, ProgState, Program, Rule};
use mc_slot::{Goal, SlotGoal, State};
use mc_text::Draws;
use std::alloc::{AllocError, Global};

/// A program of one to four states, for a feature with so many slots. Its guards are of both kinds.
pub fn drawn_program(alloc: Global, draws: &mut Draws, slots: u8) -> Result<Program, AllocError>
    requires some { 0 < slots }
    requires few { slots ≤ 64 }
{
    let count = 1 + below(draws, 4);
    let states = drawn_states(alloc, draws, slots, count)?;
    Ok(Program::new(states))
}

// So many states.
fn drawn_states(
    alloc: Global,
    draws: &mut Draws,
    slots: u8,
    count: u32,
) -> Result<Vec<ProgState>, AllocError>
    requires some { 0 < slots }
    requires states { 0 < count }
    ensures long { IfOk result (λ states. length states.items ≡ count) }
    ensures each { IfOk result (λ states. All (IsState slots count) states.items) }
{
    let mut states = Vec::new(alloc);
    for _state in 0..count {
        states.push(drawn_state(alloc, draws, slots, count)?)?;
    }
    Ok(states)
}

// A state of that many.
fn drawn_state(
    alloc: Global,
    draws: &mut Draws,
    slots: u8,
    count: u32,
) -> Result<ProgState, AllocError>
    requires some { 0 < slots }
    requires states { 0 < count }
    ensures { IfOk result (IsState slots count) }
{
    let goals = drawn_goals(alloc, draws, slots)?;
    let rules = drawn_rules(alloc, draws, slots, count)?;
    Ok(ProgState { goals, rules })
}

// One goal for all slots, but that the first two may be linked.
fn drawn_goals(alloc: Global, draws: &mut Draws, slots: u8) -> Result<Vec<SlotGoal>, AllocError>
    ensures long { IfOk result (λ goals. length goals.items ≡ slots) }
    ensures links { IfOk result (λ goals. (local : ℕ) → (goal : SlotGoal) → slice_get goals.items local ≡ Some goal
        → IsMutual goals.items local goal) }
{
    let goal = SlotGoal::End(drawn_goal(draws));
    let mut goals = vec![in alloc; goal; slots as usize]?;
    if 1 < slots && below(draws, 2) == 0 {
        goals[0] = SlotGoal::Link(1);
        goals[1] = SlotGoal::Link(0);
    }
    Ok(goals)
}

fn drawn_goal(draws: &mut Draws) -> Goal {
    match below(draws, 3) {
        0 => Goal::Open,
        1 => Goal::Hold,
        _ => Goal::Close,
    }
}

// Up to three transitions.
fn drawn_rules(
    alloc: Global,
    draws: &mut Draws,
    slots: u8,
    count: u32,
) -> Result<Vec<Rule>, AllocError>
    requires some { 0 < slots }
    requires states { 0 < count }
    ensures few { IfOk result (λ rules. length rules.items ≤ 16) }
    ensures targets { IfOk result (λ rules. All (λ rule. rule.target < count) rules.items) }
    ensures guards { IfOk result (λ rules. All (λ rule. NamesSlot slots rule.guard) rules.items) }
{
    let mut rules = Vec::new(alloc);
    let most = below(draws, 4);
    for _rule in 0..most {
        let guard = drawn_guard(draws, slots);
        let target = below(draws, count);
        rules.push(Rule { guard, target })?;
    }
    Ok(rules)
}

fn drawn_guard(draws: &mut Draws, slots: u8) -> Guard
    requires { 0 < slots }
    ensures { NamesSlot slots result }
{
    if below(draws, 3) == 0 {
        return Guard::Told(below(draws, 3) as u8);
    }
    let local = below(draws, u32::from(slots)) as u8;
    Guard::SlotIs(local, drawn_slot_state(draws))
}

fn drawn_slot_state(draws: &mut Draws) -> State {
    match below(draws, 5) {
        0 => State::Closed,
        1 => State::Opening,
        2 => State::Opened,
        3 => State::Flowing,
        _ => State::Closing,
    }
}

/// A program of two states for one slot, which is closed in both: each leads to the other where the slot is so.
pub fn flipping(alloc: Global, waits: State) -> Result<Program, AllocError> {
    let first = closed_until(alloc, waits, 1)?;
    let second = closed_until(alloc, waits, 0)?;
    let mut states = Vec::new(alloc);
    states.push(first)?;
    states.push(second)?;
    Ok(Program::new(states))
}

fn closed_until(alloc: Global, waits: State, target: u32) -> Result<ProgState, AllocError>
    requires { target < 2 }
    ensures { IfOk result (IsState 1 2) }
{
    let mut goals = Vec::new(alloc);
    goals.push(SlotGoal::End(Goal::Close))?;
    let mut rules = Vec::new(alloc);
    let guard = Guard::SlotIs(0, waits);
    rules.push(Rule { guard, target })?;
    Ok(ProgState { goals, rules })
}
