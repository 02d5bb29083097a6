// The lines of the boxes, alone or under a rule.

ghost use Rattle.std.specs.Prelude.{◌≡◌, ◌+◌, ◌<◌, ◌^◌, ◌++◌, OnOk};
ghost use Rattle.mc_ladder.specs.Lanes.{bare_column, bare_lanes, rule_column, rule_gap, rule_lanes};

use crate::glyph::{Glyph, Style, put_cell, put_cells};
use std::alloc::AllocError;

// The cells before the line of the first box.
pub const MARGIN: usize = 14;

// The cells between the lines of two boxes.
pub const GAP: usize = 11;

// Appends the line of a box, and the gap to its right.
fn put_bare_column(style: Style, out: &mut Vec<u8>) -> Result<(), AllocError>
    ensures { OnOk result (out.new.items ≡ out.old.items ++ bare_column style) }
{
    put_cell(style, Glyph::Line, out)?;
    put_cells(style, Glyph::Blank, GAP, out)
}

// Appends the lines of so many boxes.
pub fn put_bare(style: Style, columns: usize, out: &mut Vec<u8>) -> Result<(), AllocError>
    ensures { OnOk result (out.new.items ≡ out.old.items ++ bare_lanes style columns) }
{
    for _column in 0..columns {
        put_bare_column(style, out)?;
    }
    Ok(())
}

// How many cells of a rule stand to the right of a column. After the last one the words are a cell away.
fn rule_gap(columns: usize, column: usize) -> usize
    requires { column + 1 < 2 ^ 64 }
    ensures { result ≡ rule_gap columns column }
{
    if column + 1 == columns { GAP - 1 } else { GAP }
}

// Appends a rule over the line of a box and the gap to its right.
fn put_rule_column(
    style: Style,
    columns: usize,
    column: usize,
    out: &mut Vec<u8>,
) -> Result<(), AllocError>
    requires { column + 1 < 2 ^ 64 }
    ensures { OnOk result (out.new.items ≡ out.old.items ++ rule_column style columns column) }
{
    put_cell(style, Glyph::Crossing, out)?;
    put_cells(style, Glyph::Dash, rule_gap(columns, column), out)
}

// Appends a rule over so many boxes, from the beginning of the line on.
pub fn put_rule(style: Style, columns: usize, out: &mut Vec<u8>) -> Result<(), AllocError>
    ensures { OnOk result (out.new.items ≡ out.old.items ++ rule_lanes style columns) }
{
    put_cells(style, Glyph::Dash, MARGIN, out)?;
    for column in 0..columns {
        put_rule_column(style, columns, column, out)?;
    }
    Ok(())
}
