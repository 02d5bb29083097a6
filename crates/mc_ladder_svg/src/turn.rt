// The row of a turn.

ghost use Rattle.std.specs.Prelude.{◌≡◌, ◌+◌, ◌<◌, ◌^◌, ◌++◌, OnOk};
ghost use Rattle.mc_cause.specs.Carried.{AreOfSlots};
ghost use Rattle.mc_ladder.specs.Rows.{next_world};
ghost use Rattle.mc_ladder_choice.specs.Noted.{NotesLine};
ghost use Rattle.mc_script.specs.declared.command.JournalLine.TheVariants.{Turn as Made};
ghost use Rattle.mc_ladder_svg.specs.Turns.{taken_row, turn_row};

use crate::arrow::put_take;
use crate::mark::put_command;
use crate::row::Row;
use mc_box::{Event, Turn};
use mc_cause::Whys;
use mc_ladder::{Taking, state_at, state_word, taking_of};
use mc_ladder_choice::make_noted;
use mc_program_lines::Block;
use mc_text::Names;
use mc_world::World;
use std::alloc::{AllocError, Global};

// Appends the row of what is taken, if anything is.
fn put_taken(
    alloc: Global,
    columns: &[u32],
    names: &Names,
    world: &World,
    taken: Option<Taking>,
    row: Row,
    out: &mut Vec<u8>,
) -> Result<(), AllocError>
    ensures { OnOk result (out.new.items ≡ out.old.items ++ taken_row columns.now names.now world.now taken row) }
{
    match taken {
        Some(taken) => put_take(alloc, columns, names, world, &taken, row, out),
        None => Ok(()),
    }
}

// Appends the row of a turn, makes the turn, and notes why slots are closed.
pub fn put_turn(
    alloc: Global,
    columns: &[u32],
    names: &Names,
    blocks: &[Block],
    world: &mut World,
    whys: &mut Whys,
    turn: Turn,
    row: Row,
    out: &mut Vec<u8>,
) -> Result<(), AllocError>
    requires few { whys.old.turns + 1 < 2 ^ 32 }
    requires slots { AreOfSlots world.old whys.old }
    ensures row { OnOk result (out.new.items
        ≡ out.old.items ++ turn_row columns.now names.now blocks.now world.old turn row) }
    ensures made { OnOk result (world.new ≡ next_world world.old turn) }
    ensures notes { OnOk result (NotesLine world.old world.new (Made turn) whys.old whys.new) }
{
    match turn.event {
        Event::Take(local) => {
            let taken = taking_of(world, turn.who, local);
            put_taken(alloc, columns, names, world, taken, row, out)?;
            make_noted(world, whys, turn)
        }
        Event::Shift => {
            make_noted(world, whys, turn)?;
            let state = state_word(blocks, turn.who, state_at(world, turn.who));
            put_command(alloc, columns, names, turn, state, row, out)
        }
        _ => {
            put_command(alloc, columns, names, turn, b"", row, out)?;
            make_noted(world, whys, turn)
        }
    }
}
