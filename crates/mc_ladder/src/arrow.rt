// An arrow between the lines of two boxes, with a word beside the one that sends.

ghost use Rattle.std.specs.Prelude.{◌≡◌, ◌+◌, ◌<◌, ◌^◌, ◌++◌, OnOk};
ghost use Rattle.mc_ladder.specs.Arrows.{arrow_column, arrow_gap, arrow_glyph, arrow_lanes, begins_beside, covers, crosses, ends_beside, is_right, leg, tip, word_in_dashes};

use crate::glyph::{Glyph, Style, put_cell, put_cells};
use crate::lanes::GAP;
use std::alloc::AllocError;

/// The columns where an arrow begins and ends, and whether its signal is dropped.
#[derive(Clone, Copy)]
pub struct Arrow {
    pub from: usize,
    pub to: usize,
    pub dropped: bool,
}

impl Arrow {
    /// Whether it goes to the right.
    pub fn is_right(self) -> bool
        ensures { result ≡ is_right self }
    {
        self.from < self.to
    }

    // Whether it goes over the line of a column, between its beginning and its end.
    fn crosses(self, column: usize) -> bool
        ensures { result ≡ crosses self column }
    {
        (self.from < column && column < self.to) || (self.to < column && column < self.from)
    }

    // Whether it goes over the gap to the right of a column.
    fn covers(self, column: usize) -> bool
        ensures { result ≡ covers self column }
    {
        (self.from <= column && column < self.to) || (self.to <= column && column < self.from)
    }

    // Whether that gap is the one beside its beginning.
    fn begins_beside(self, column: usize) -> bool
        requires { column + 1 < 2 ^ 64 }
        ensures { result ≡ begins_beside self column }
    {
        if self.is_right() {
            column == self.from
        } else {
            column + 1 == self.from
        }
    }

    // Whether it is the one beside its end.
    fn ends_beside(self, column: usize) -> bool
        requires { column + 1 < 2 ^ 64 }
        ensures { result ≡ ends_beside self column }
    {
        if self.is_right() {
            column + 1 == self.to
        } else {
            column == self.to
        }
    }

    // What stands on the line of a column.
    fn glyph(self, column: usize) -> Glyph
        ensures { result ≡ arrow_glyph self column }
    {
        if column == self.from {
            if self.is_right() {
                Glyph::BeginsRight
            } else {
                Glyph::BeginsLeft
            }
        } else if self.crosses(column) {
            Glyph::Crossing
        } else {
            Glyph::Line
        }
    }

    // What stands in a gap at the side to which it goes.
    fn tip(self, column: usize) -> Glyph
        requires { column + 1 < 2 ^ 64 }
        ensures { result ≡ tip self column }
    {
        if !self.ends_beside(column) {
            Glyph::Dash
        } else if self.dropped {
            Glyph::Cross
        } else if self.is_right() {
            Glyph::HeadRight
        } else {
            Glyph::HeadLeft
        }
    }
}

// Appends a word between dashes, so many of them before it, ten cells in all.
fn put_in_dashes(
    style: Style,
    before: usize,
    word: &[u8],
    out: &mut Vec<u8>,
) -> Result<(), AllocError>
    ensures { OnOk result (out.new.items ≡ out.old.items ++ word_in_dashes style before word.now) }
{
    put_cells(style, Glyph::Dash, before, out)?;
    out.extend_from_slice(word)?;
    let after = (GAP - 1).saturating_sub(before).saturating_sub(word.len());
    put_cells(style, Glyph::Dash, after, out)
}

// Appends the gap to the right of a column.
fn put_gap(
    style: Style,
    arrow: Arrow,
    word: &[u8],
    column: usize,
    out: &mut Vec<u8>,
) -> Result<(), AllocError>
    requires { column + 1 < 2 ^ 64 }
    ensures { OnOk result (out.new.items ≡ out.old.items ++ arrow_gap style arrow word.now column) }
{
    if !arrow.covers(column) {
        return put_cells(style, Glyph::Blank, GAP, out);
    }
    let shown = if arrow.begins_beside(column) {
        word
    } else {
        b""
    };
    put_leg(style, arrow, shown, column, out)
}

// Appends a gap that it goes over, with this word in it.
fn put_leg(
    style: Style,
    arrow: Arrow,
    shown: &[u8],
    column: usize,
    out: &mut Vec<u8>,
) -> Result<(), AllocError>
    requires { column + 1 < 2 ^ 64 }
    ensures { OnOk result (out.new.items ≡ out.old.items ++ leg style arrow shown.now column) }
{
    if arrow.is_right() {
        put_in_dashes(style, GAP.saturating_sub(shown.len()) / 2, shown, out)?;
        put_cell(style, arrow.tip(column), out)
    } else {
        put_cell(style, arrow.tip(column), out)?;
        put_in_dashes(style, (GAP - 1).saturating_sub(shown.len()) / 2, shown, out)
    }
}

// Appends a column: the line of its box, and the gap to its right.
fn put_column(
    style: Style,
    arrow: Arrow,
    word: &[u8],
    column: usize,
    out: &mut Vec<u8>,
) -> Result<(), AllocError>
    requires { column + 1 < 2 ^ 64 }
    ensures { OnOk result (out.new.items ≡ out.old.items ++ arrow_column style arrow word.now column) }
{
    put_cell(style, arrow.glyph(column), out)?;
    put_gap(style, arrow, word, column, out)
}

// Appends the lanes of an arrow over so many columns.
pub fn put_arrow(
    style: Style,
    columns: usize,
    arrow: Arrow,
    word: &[u8],
    out: &mut Vec<u8>,
) -> Result<(), AllocError>
    ensures { OnOk result (out.new.items ≡ out.old.items ++ arrow_lanes style columns arrow word.now) }
{
    for column in 0..columns {
        put_column(style, arrow, word, column, out)?;
    }
    Ok(())
}
