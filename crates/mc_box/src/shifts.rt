// A box's program: which of its transitions is enabled, and where that leads.

ghost use Rattle.std.specs.Prelude.{◌≡◌, ◌<◌, if◌then◌else◌, length, Some};
ghost use Rattle.mc_box.specs.BoxEvents.{enabled_shift, kept_word, shift_goals, with_shift};
ghost use Rattle.mc_box.specs.BoxSound.{box_state, IsWired};
ghost use Rattle.mc_box.specs.Boxes.{goals_in, with_goals};

use crate::parts::BoxParts;
use mc_rule::{Program, Shifted};
use mc_slot::SlotGoal;

impl BoxParts {
    /// The enabled transition of the box's program.
    pub(crate) fn enabled_shift(&self) -> Option<Shifted>
        requires wired { IsWired (box_state self.now) }
        ensures { result ≡ enabled_shift (box_state self.now) }
    {
        match &self.program {
            Some(program) => program.enabled(self.at, &self.slots, self.told),
            None => None,
        }
    }

    /// The box goes to the state that an enabled transition leads to, and has its goals.
    pub(crate) fn shift(&mut self, shift: Shifted)
        requires wired { IsWired (box_state self.old) }
        requires enabled { enabled_shift (box_state self.old) ≡ Some shift }
        ensures { box_state self.new
            ≡ with_goals (with_shift (box_state self.old) shift) (shift_goals (box_state self.old) shift) }
    {
        self.at = Some(shift.target);
        self.told = kept_word(self.told, shift.spends);
        match &self.program {
            Some(program) => copy_goals(&mut self.goals, program, shift.target),
            None => unreachable!(),
        }
    }
}

// The told word, where a transition doesn't use it up.
fn kept_word(told: Option<u8>, spends: bool) -> Option<u8>
    ensures { result ≡ kept_word told spends }
{
    if spends { None } else { told }
}

// The goals of a state are copied.
fn copy_goals(goals: &mut [SlotGoal], program: &Program, at: u32)
    requires here { at < length program.now }
    requires size { length goals.old ≡ length (goals_in program.now at) }
    ensures { goals.new ≡ goals_in program.now at }
{
    let state = &program.states()[at as usize];
    goals.copy_from_slice(&state.goals);
}
