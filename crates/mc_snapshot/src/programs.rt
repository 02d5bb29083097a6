//! Whether states are a program's: for a program that is made again of what was written of one.

ghost use Rattle.std.specs.Prelude.{◌≡◌, ◌<◌, All, MatchBool, Some, length};
ghost use Rattle.std.specs.List.{slice_get};
ghost use Rattle.std.specs.Option.{MatchOption};
ghost use Rattle.mc_slot.specs.declared.SlotGoal.TheVariants.{Link};
ghost use Rattle.mc_rule.specs.Programs.{IsMutual, IsProgram, IsState, NamesSlot};
ghost use Rattle.mc_snapshot.specs.Programs.{AreMutual};

use mc_rule::{Guard, ProgState, Program, RULE_LIMIT, Rule, STATE_LIMIT};
use mc_slot::SlotGoal;

/// The program of these states; none where they are no program's: where there are none or too many, where the goals
/// of one are more or fewer than those of another, a link isn't mutual, there are too many transitions, or one names a
/// slot or a state that isn't there.
pub fn program_of(states: Vec<ProgState>) -> Option<Program>
    ensures { MatchOption result (IsProgram states.items → ⊥) (λ made. made ≡ states.items) }
{
    if is_program(&states) {
        Some(Program::new(states))
    } else {
        None
    }
}

// Whether they are a program's. The first of them tells how many slots there are.
fn is_program(states: &[ProgState]) -> bool
    ensures { MatchBool result (IsProgram states.now) (IsProgram states.now → ⊥) }
{
    if states.is_empty() || states.len() > STATE_LIMIT {
        return false;
    }
    let first = &states[0];
    are_states(states, first.goals.len())
}

fn are_states(states: &[ProgState], slots: usize) -> bool
    ensures { MatchBool result (All (IsState slots (length states.now)) states.now)
        (All (IsState slots (length states.now)) states.now → ⊥) }
{
    for at in 0..states.len() {
        if !is_state(&states[at], slots, states.len()) {
            return false;
        }
    }
    true
}

// Whether it is a state of a program of so many slots and states.
fn is_state(one: &ProgState, slots: usize, states: usize) -> bool
    ensures { MatchBool result (IsState slots states one.now) (IsState slots states one.now → ⊥) }
{
    if one.goals.len() != slots || one.rules.len() > RULE_LIMIT {
        return false;
    }
    are_mutual(&one.goals) && name_states(&one.rules, states) && name_slots(&one.rules, slots)
}

// Whether each link is mutual.
fn are_mutual(goals: &[SlotGoal]) -> bool
    ensures { MatchBool result (AreMutual goals.now) (AreMutual goals.now → ⊥) }
{
    for local in 0..goals.len() {
        if !is_mutual(goals, local, goals[local]) {
            return false;
        }
    }
    true
}

// Whether a goal of a slot is an end's, or a link with another slot whose goal is the link back.
fn is_mutual(goals: &[SlotGoal], local: usize, goal: SlotGoal) -> bool
    ensures { MatchBool result (IsMutual goals.now local goal) (IsMutual goals.now local goal → ⊥) }
{
    match goal {
        SlotGoal::End(_) => true,
        SlotGoal::Link(partner) => {
            partner as usize != local && leads_to(goals, partner as usize, local)
        }
    }
}

// Whether the goal of a slot that is there is a link with this one.
fn leads_to(goals: &[SlotGoal], partner: usize, local: usize) -> bool
    ensures { MatchBool result (slice_get goals.now partner ≡ Some (Link local))
        (slice_get goals.now partner ≡ Some (Link local) → ⊥) }
{
    match goals.get(partner) {
        Some(SlotGoal::Link(back)) => *back as usize == local,
        Some(SlotGoal::End(_)) | None => false,
    }
}

// Whether each transition leads to a state that is there.
fn name_states(rules: &[Rule], states: usize) -> bool
    ensures { MatchBool result (All (λ rule. rule.target < states) rules.now)
        (All (λ rule. rule.target < states) rules.now → ⊥) }
{
    for at in 0..rules.len() {
        if rules[at].target as usize >= states {
            return false;
        }
    }
    true
}

// Whether each guard names a slot that is there.
fn name_slots(rules: &[Rule], slots: usize) -> bool
    ensures { MatchBool result (All (λ rule. NamesSlot slots rule.guard) rules.now)
        (All (λ rule. NamesSlot slots rule.guard) rules.now → ⊥) }
{
    for at in 0..rules.len() {
        if !names_slot(rules[at].guard, slots) {
            return false;
        }
    }
    true
}

fn names_slot(guard: Guard, slots: usize) -> bool
    ensures { MatchBool result (NamesSlot slots guard) (NamesSlot slots guard → ⊥) }
{
    match guard {
        Guard::SlotIs(local, _) => (local as usize) < slots,
        Guard::Told(_) => true,
    }
}
