//! Laws of the slot, over its definitions alone: each function's contract is the law's sentence.

ghost use Rattle.mc_slot.specs.Equality.{GoalEquality, SlotGoalEquality};
ghost use Rattle.mc_slot.specs.MoveTable.{SendsByTable, TakesByTable};

/// What a slot may send, as a function, is what the table of the slot says case by case.
pub fn sends_by_table()
    ensures { SendsByTable }
{}

/// What a slot takes, as a function, is what the table of the slot says case by case.
pub fn takes_by_table()
    ensures { TakesByTable }
{}

/// `==` on goals of ends says whether they are one and the same value.
pub fn goal_equality()
    ensures { GoalEquality }
{}

/// `==` on goals of slots says whether they are one and the same value.
pub fn slot_goal_equality()
    ensures { SlotGoalEquality }
{}
