// The program that finished lines declare.

ghost use Rattle.std.specs.Prelude.{◌≡◌, IfOk, map};
ghost use Rattle.mc_program_lines.specs.Finished.{given_goal, program_of, state_of};
ghost use Rattle.mc_rule.specs.Programs.{IsProgram};

use crate::part::StatePart;
use crate::program::Block;
use mc_rule::{ProgState, Program};
use mc_slot::{Goal, SlotGoal};
use std::alloc::{AllocError, Global};

impl Block {
    /// The program that the lines declare, by the numbers of its states. It must be one: that of finished lines is.
    pub fn program(&self, alloc: Global) -> Result<Program, AllocError>
        requires { IsProgram (program_of self.now) }
        ensures { IfOk result (λ program. program ≡ program_of self.now) }
    {
        let mut states = Vec::new(alloc);
        for part in &self.parts {
            states.push(part.state(alloc)?)?;
        }
        Ok(Program::new(states))
    }
}

impl StatePart {
    /// The state that the part declares.
    pub fn state(&self, alloc: Global) -> Result<ProgState, AllocError>
        ensures { IfOk result (λ state. state ≡ state_of self.now) }
    {
        Ok(ProgState {
            goals: goals_of(alloc, &self.goals)?,
            rules: Vec::from_slice(alloc, &self.transitions)?,
        })
    }
}

// The goals of all slots.
fn goals_of(alloc: Global, given: &[Option<SlotGoal>]) -> Result<Vec<SlotGoal>, AllocError>
    ensures { IfOk result (λ goals. goals.items ≡ map given_goal given.now) }
{
    let mut goals = Vec::new(alloc);
    for goal in given {
        goals.push(goal.unwrap_or(SlotGoal::End(Goal::Close)))?;
    }
    Ok(goals)
}
