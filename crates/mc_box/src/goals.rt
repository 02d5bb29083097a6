// How goals change, and which of them have their turn then.

ghost use Rattle.std.specs.Prelude.{◌≡◌, ◌≤◌, ◌++◌, length, take};
ghost use Rattle.mc_box.specs.Goals.{goal_after, change_goals, has_turn, leads, without_link};
ghost use Rattle.mc_box.specs.declared.limit.TheConstants.{SLOT_LIMIT};

use crate::event::Change;
use mc_slot::{Goal, SlotGoal};

// What the goal of a slot becomes where a slot gets another goal with which it may have been linked.
fn without_link(local: u8, old: SlotGoal) -> SlotGoal
    ensures { result ≡ without_link local old }
{
    match old {
        SlotGoal::Link(partner) => {
            if partner == local {
                SlotGoal::End(Goal::Hold)
            } else {
                old
            }
        }
        SlotGoal::End(_) => old,
    }
}

/// What the goal of a slot becomes: an end gets its goal, two slots are linked, and each former partner of
/// these holds.
pub fn goal_after(change: Change, local: u8, old: SlotGoal) -> SlotGoal
    ensures { result ≡ goal_after change local old }
{
    match change {
        Change::End(slot, goal) => {
            if local == slot {
                SlotGoal::End(goal)
            } else {
                without_link(slot, old)
            }
        }
        Change::Link(first, second) => {
            if local == first {
                SlotGoal::Link(second)
            } else if local == second {
                SlotGoal::Link(first)
            } else {
                without_link(first, without_link(second, old))
            }
        }
    }
}

/// Changes all goals.
pub fn change_goals(goals: &mut [SlotGoal], change: Change)
    requires { length goals.old ≤ SLOT_LIMIT }
    ensures { goals.new ≡ change_goals goals.old change }
{
    for i in 0..goals.len() {
        goals[i] = goal_after(change, i as u8, goals[i]);
    }
}

// Whether the goal has its turn at this slot. A link has it at the lower of its two.
fn leads(local: u8, goal: SlotGoal) -> bool
    ensures { result ≡ leads local goal }
{
    match goal {
        SlotGoal::End(_) => true,
        SlotGoal::Link(partner) => local < partner,
    }
}

/// Whether a slot's goal, where goals have changed, has its turn at that slot.
pub fn has_turn(local: u8, old: SlotGoal, new: SlotGoal) -> bool
    ensures { result ≡ has_turn local old new }
{
    old != new && leads(local, new)
}
