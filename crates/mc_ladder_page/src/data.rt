// The data of a page.

ghost use Rattle.std.specs.Prelude.{◌≡◌, ◌-◌, ◌<◌, ◌^◌, ◌++◌, length, OnOk};
ghost use Rattle.mc_program_lines.specs.Programs.{words_of};
ghost use Rattle.mc_ladder_page.specs.Cells.{cells_of};
ghost use Rattle.mc_ladder_page.specs.Data.{data_rows, first_row_by, none_passed, page_data};

use crate::cell::cells_of;
use crate::change::put_changes;
use crate::network::put_network;
use crate::quoted::put_bytes;
use crate::row::{Passed, put_row};
use mc_program_lines::Block;
use mc_script::JournalLine;
use mc_text::Names;
use mc_world::World;
use std::alloc::{AllocError, Global};

// Appends the row before the first turn, by the cells of the first world.
fn put_first_row(alloc: Global, cells: &[Vec<u8>], out: &mut Vec<u8>) -> Result<(), AllocError>
    ensures { OnOk result (out.new.items ≡ out.old.items ++ first_row_by (words_of cells.now)) }
{
    put_bytes(b"\"rows\":[[\"start\"", out)?;
    put_changes(alloc, &[], cells, out)?;
    put_bytes(b"]", out)
}

// Appends a row for each line of a journal, from its beginning on, in a world with these cells.
fn put_rows(
    alloc: Global,
    names: &Names,
    blocks: &[Block],
    world: &mut World,
    mut cells: Vec<Vec<u8>>,
    journal: &[JournalLine],
    out: &mut Vec<u8>,
) -> Result<(), AllocError>
    requires few { length journal.now < 2 ^ 32 - 1 }
    requires cells { words_of cells.items ≡ cells_of names.now blocks.now world.old }
    ensures { OnOk result (out.new.items
        ≡ out.old.items ++ data_rows names.now blocks.now world.old none_passed journal.now) }
{
    let mut passed = Passed {
        turns: 0,
        settles: 0,
    };
    for line in journal {
        cells = put_row(alloc, names, blocks, world, passed, &cells, line, out)?;
        passed = passed.after(line);
    }
    Ok(())
}

// Appends the data of the page of a journal.
pub fn put_data(
    alloc: Global,
    names: &Names,
    blocks: &[Block],
    world: &mut World,
    journal: &[JournalLine],
    out: &mut Vec<u8>,
) -> Result<(), AllocError>
    requires { length journal.now < 2 ^ 32 - 1 }
    ensures { OnOk result (out.new.items
        ≡ out.old.items ++ page_data names.now blocks.now world.old journal.now) }
{
    let cells = cells_of(alloc, names, blocks, world)?;
    put_network(alloc, names, world, out)?;
    put_first_row(alloc, &cells, out)?;
    put_rows(alloc, names, blocks, world, cells, journal, out)?;
    put_bytes(b"]}\n", out)
}
