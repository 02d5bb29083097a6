// A row of the data: which cells a line of a journal changes.

ghost use Rattle.std.specs.Prelude.{◌≡◌, ◌+◌, ◌<◌, ◌^◌, ◌++◌, IfOk, OnOk};
ghost use Rattle.mc_ladder_choice.specs.Entries.{world_after};
ghost use Rattle.mc_program_lines.specs.Programs.{words_of};
ghost use Rattle.mc_ladder_page.specs.Cells.{cells_of};
ghost use Rattle.mc_ladder_page.specs.Data.{line_row, passed_after, row_by, row_name};

use crate::cell::cells_of;
use crate::change::put_changes;
use crate::quoted::put_bytes;
use mc_ladder_choice::make;
use mc_program_lines::Block;
use mc_script::JournalLine;
use mc_text::Names;
use mc_world::World;
use std::alloc::{AllocError, Global};

// How many turns and settles of a journal were passed.
#[derive(Clone, Copy)]
pub struct Passed {
    pub turns: u32,
    pub settles: u32,
}

impl Passed {
    // After one line more.
    pub fn after(self, line: &JournalLine) -> Passed
        requires turns { self.turns + 1 < 2 ^ 32 }
        requires settles { self.settles + 1 < 2 ^ 32 }
        ensures { result ≡ passed_after self line.now }
    {
        match line {
            JournalLine::Turn(_) => Passed {
                turns: self.turns + 1,
                settles: self.settles,
            },
            JournalLine::Settled => Passed {
                turns: self.turns,
                settles: self.settles + 1,
            },
        }
    }
}

// Appends the name of the row of a line.
fn put_row_name(
    alloc: Global,
    passed: Passed,
    line: &JournalLine,
    out: &mut Vec<u8>,
) -> Result<(), AllocError>
    requires turns { passed.turns + 1 < 2 ^ 32 }
    requires settles { passed.settles + 1 < 2 ^ 32 }
    ensures { OnOk result (out.new.items ≡ out.old.items ++ row_name passed line.now) }
{
    match line {
        JournalLine::Turn(_) => {
            let name = format!(in alloc; "\n,[\"turn-{}\"", passed.turns + 1)?;
            put_bytes(name.as_bytes(), out)
        }
        JournalLine::Settled => {
            let name = format!(in alloc; "\n,[\"settle-{}\"", passed.settles + 1)?;
            put_bytes(name.as_bytes(), out)
        }
    }
}

// Makes the turn of a line, if it has one.
fn make_line(world: &mut World, line: &JournalLine) -> Result<(), AllocError>
    ensures { OnOk result (world.new ≡ world_after world.old line.now) }
{
    match line {
        JournalLine::Turn(turn) => make(world, *turn),
        JournalLine::Settled => Ok(()),
    }
}

// Appends the row of a line that leads from some cells to others.
fn put_row_by(
    alloc: Global,
    passed: Passed,
    line: &JournalLine,
    old: &[Vec<u8>],
    new: &[Vec<u8>],
    out: &mut Vec<u8>,
) -> Result<(), AllocError>
    requires turns { passed.turns + 1 < 2 ^ 32 }
    requires settles { passed.settles + 1 < 2 ^ 32 }
    ensures { OnOk result (out.new.items
        ≡ out.old.items ++ row_by passed line.now (words_of old.now) (words_of new.now)) }
{
    put_row_name(alloc, passed, line, out)?;
    put_changes(alloc, old, new, out)?;
    put_bytes(b"]", out)
}

// Appends the row of a line, and makes its turn. Takes the cells of the world before, and answers those of the world
// after.
pub fn put_row(
    alloc: Global,
    names: &Names,
    blocks: &[Block],
    world: &mut World,
    passed: Passed,
    cells: &[Vec<u8>],
    line: &JournalLine,
    out: &mut Vec<u8>,
) -> Result<Vec<Vec<u8>>, AllocError>
    requires turns { passed.turns + 1 < 2 ^ 32 }
    requires settles { passed.settles + 1 < 2 ^ 32 }
    requires cells { words_of cells.now ≡ cells_of names.now blocks.now world.old }
    ensures row { OnOk result (out.new.items
        ≡ out.old.items ++ line_row names.now blocks.now world.old passed line.now) }
    ensures made { OnOk result (world.new ≡ world_after world.old line.now) }
    ensures cells { IfOk result (λ next. words_of next.items ≡ cells_of names.now blocks.now world.new) }
{
    make_line(world, line)?;
    let next = cells_of(alloc, names, blocks, world)?;
    put_row_by(alloc, passed, line, cells, &next, out)?;
    Ok(next)
}
