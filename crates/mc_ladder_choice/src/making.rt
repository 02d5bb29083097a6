// The turns of a journal, made again.

ghost use Rattle.std.specs.Prelude.{◌≡◌, ◌+◌, ◌<◌, ◌^◌, OnOk};
ghost use Rattle.mc_cause.specs.Carried.{AreOfSlots};
ghost use Rattle.mc_script.specs.declared.command.JournalLine.TheVariants.{Turn as Made};
ghost use Rattle.mc_ladder_choice.specs.Entries.{next_world, world_after};
ghost use Rattle.mc_ladder_choice.specs.Noted.{NotesLine};

use mc_box::Turn;
use mc_cause::Whys;
use mc_script::JournalLine;
use mc_world::{StepFault, World};
use std::alloc::AllocError;

/// Makes a turn. One that can't happen changes nothing.
pub fn make(world: &mut World, turn: Turn) -> Result<(), AllocError>
    ensures { OnOk result (world.new ≡ next_world world.old turn) }
{
    match world.step(turn.who, turn.event) {
        Ok(()) => Ok(()),
        Err(StepFault::NoMemory(wanting)) => Err(wanting),
        Err(StepFault::NotEnabled) => Ok(()),
        Err(StepFault::VersionEnd) => Ok(()),
    }
}

/// The same, and notes why slots are closed.
pub fn make_noted(world: &mut World, whys: &mut Whys, turn: Turn) -> Result<(), AllocError>
    requires few { whys.old.turns + 1 < 2 ^ 32 }
    requires slots { AreOfSlots world.old whys.old }
    ensures made { OnOk result (world.new ≡ next_world world.old turn) }
    ensures notes { OnOk result (NotesLine world.old world.new (Made turn) whys.old whys.new) }
{
    world.keeps();
    match world.step(turn.who, turn.event) {
        Ok(()) => {
            whys.note(world, turn);
            Ok(())
        }
        Err(StepFault::NoMemory(wanting)) => Err(wanting),
        Err(StepFault::NotEnabled) => Ok(()),
        Err(StepFault::VersionEnd) => Ok(()),
    }
}

/// Makes the turn of a line, if it has one, and notes why slots are closed.
pub fn pass(world: &mut World, whys: &mut Whys, line: &JournalLine) -> Result<(), AllocError>
    requires few { whys.old.turns + 1 < 2 ^ 32 }
    requires slots { AreOfSlots world.old whys.old }
    ensures made { OnOk result (world.new ≡ world_after world.old line.now) }
    ensures notes { OnOk result (NotesLine world.old world.new line.now whys.old whys.new) }
{
    match line {
        JournalLine::Turn(turn) => make_noted(world, whys, *turn),
        JournalLine::Settled => Ok(()),
    }
}
