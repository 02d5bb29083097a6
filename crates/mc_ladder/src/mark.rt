// A mark at the line of a box, with a word after it.

ghost use Rattle.std.specs.Prelude.{◌≡◌, ◌++◌, OnOk};
ghost use Rattle.mc_ladder.specs.Marks.{mark_column, mark_gap, mark_glyph, mark_lanes};

use crate::glyph::{Glyph, Style, put_cell, put_cells};
use crate::lanes::GAP;
use std::alloc::AllocError;

/// A column, and what stands on its line.
#[derive(Clone, Copy)]
pub struct Mark {
    pub at: usize,
    pub glyph: Glyph,
}

impl Mark {
    // What stands on the line of a column.
    fn glyph(self, column: usize) -> Glyph
        ensures { result ≡ mark_glyph self column }
    {
        if column == self.at {
            self.glyph
        } else {
            Glyph::Line
        }
    }
}

// Appends the gap to the right of a column.
fn put_gap(
    style: Style,
    mark: Mark,
    word: &[u8],
    column: usize,
    out: &mut Vec<u8>,
) -> Result<(), AllocError>
    ensures { OnOk result (out.new.items ≡ out.old.items ++ mark_gap style mark word.now column) }
{
    if column != mark.at {
        return put_cells(style, Glyph::Blank, GAP, out);
    }
    put_cell(style, Glyph::Blank, out)?;
    out.extend_from_slice(word)?;
    put_cells(
        style,
        Glyph::Blank,
        (GAP - 1).saturating_sub(word.len()),
        out,
    )
}

// Appends a column: the line of its box, and the gap to its right.
fn put_column(
    style: Style,
    mark: Mark,
    word: &[u8],
    column: usize,
    out: &mut Vec<u8>,
) -> Result<(), AllocError>
    ensures { OnOk result (out.new.items ≡ out.old.items ++ mark_column style mark word.now column) }
{
    put_cell(style, mark.glyph(column), out)?;
    put_gap(style, mark, word, column, out)
}

// Appends the lanes of a mark over so many columns.
pub fn put_mark(
    style: Style,
    columns: usize,
    mark: Mark,
    word: &[u8],
    out: &mut Vec<u8>,
) -> Result<(), AllocError>
    ensures { OnOk result (out.new.items ≡ out.old.items ++ mark_lanes style columns mark word.now) }
{
    for column in 0..columns {
        put_column(style, mark, word, column, out)?;
    }
    Ok(())
}
