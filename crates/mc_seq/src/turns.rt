// Turns that are made, and written down.

ghost use Rattle.std.specs.Prelude.{◌≡◌, ◌++◌, [], ◌∷◌, Some, IsSome, OnErr, OnOk};
ghost use Rattle.mc_model.specs.Steps.{step};

use mc_box::Turn;
use mc_world::{Settled, StepFault};
use std::alloc::AllocError;

/// Makes a turn that can happen, and writes it down. It fails only for want of memory, and then the world and its turns
/// are as they were.
pub fn make(settled: &mut Settled, turn: Turn) -> Result<(), AllocError>
    requires { IsSome (step settled.old.world turn) }
    ensures made { OnOk result (step settled.old.world turn ≡ Some settled.new.world) }
    ensures logged { OnOk result (settled.new.turns.items ≡ settled.old.turns.items ++ turn ∷ []) }
    ensures kept { OnErr result ((settled.new.world ≡ settled.old.world)
        × (settled.new.turns.items ≡ settled.old.turns.items)) }
{
    settled.turns.push(turn)?;
    match settled.world.step(turn.who, turn.event) {
        Ok(()) => Ok(()),
        Err(StepFault::NoMemory(e)) => {
            settled.turns.pop();
            Err(e)
        }
        Err(StepFault::NotEnabled | StepFault::VersionEnd) => unreachable!(),
    }
}
