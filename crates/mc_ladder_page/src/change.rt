// The difference of two worlds: the cells that are others after a turn than before it.

ghost use Rattle.std.specs.Prelude.{◌≡◌, ◌++◌, OnOk};
ghost use Rattle.mc_program_lines.specs.Programs.{words_of};
ghost use Rattle.mc_ladder_page.specs.Changes.{change_text, changes_between, changes_text, differs};

use crate::quoted::put_bytes;
use std::alloc::{AllocError, Global};

// Appends a change: the number of a cell, and the cell.
fn put_change(alloc: Global, at: usize, cell: &[u8], out: &mut Vec<u8>) -> Result<(), AllocError>
    ensures { OnOk result (out.new.items ≡ out.old.items ++ change_text (record { at = at; cell = cell.now })) }
{
    let opening = format!(in alloc; ",{at},")?;
    put_bytes(opening.as_bytes(), out)?;
    put_bytes(cell, out)
}

// Whether a list of cells has another cell at a number than this, or none.
fn differs(cells: &[Vec<u8>], at: usize, cell: &[u8]) -> bool
    ensures { result ≡ differs (words_of cells.now) at cell.now }
{
    match cells.get(at) {
        Some(old) => old.as_slice() != cell,
        None => true,
    }
}

// Appends the cells that are others than those of an older list, or stand behind its end.
pub fn put_changes(
    alloc: Global,
    old: &[Vec<u8>],
    new: &[Vec<u8>],
    out: &mut Vec<u8>,
) -> Result<(), AllocError>
    ensures { OnOk result (out.new.items
        ≡ out.old.items ++ changes_text (changes_between (words_of old.now) (words_of new.now))) }
{
    for (at, cell) in new.iter().enumerate() {
        if differs(old, at, cell) {
            put_change(alloc, at, cell, out)?;
        }
    }
    Ok(())
}
