// The heads of the columns: the names of the boxes, in one line or in two.

ghost use Rattle.std.specs.Prelude.{◌≡◌, ◌<◌, ◌≤◌, ◌++◌, ◌∷◌, [], length, OnOk};
ghost use Rattle.mc_ladder.specs.Heads.{goes_on, head, head_after, head_before, head_count, head_lead, head_line, head_text, heads, is_first, is_named, name_at};

use crate::frame::Frame;
use crate::glyph::{Glyph, Style, put_cell, put_cells};
use crate::lanes::{GAP, MARGIN};
use crate::place::box_word;
use mc_text::Names;
use std::alloc::AllocError;

// A line of heads: the only one, or the first or the second of two. The first of two has the names of columns 0, 2, 4
// and so on, the second those of the others.
#[derive(Clone, Copy)]
pub enum HeadLine {
    Only,
    First,
    Second,
}

impl HeadLine {
    // Whether the name of a column stands in it.
    fn is_named(self, column: usize) -> bool
        ensures { result ≡ is_named self column }
    {
        match self {
            HeadLine::Only => true,
            HeadLine::First => column % 2 == 0,
            HeadLine::Second => column % 2 == 1,
        }
    }

    // Whether the lines of the first line's boxes go on in it.
    fn goes_on(self) -> bool
        ensures { result ≡ goes_on self }
    {
        matches!(self, HeadLine::Second)
    }

    // Whether it is the first of two.
    fn is_first(self) -> bool
        ensures { result ≡ is_first self }
    {
        matches!(self, HeadLine::First)
    }

    // How many cells of a head stand before the cell of its column, by the bytes of its name.
    fn before(self, name: usize, column: usize) -> usize
        ensures before { result ≡ head_before self name column }
        ensures few { result ≤ name }
    {
        if self.is_named(column) { name / 2 } else { 0 }
    }

    // How many stand at that cell and after it.
    fn after(self, name: usize, column: usize) -> usize
        ensures { result ≡ head_after self name column }
    {
        if self.is_named(column) {
            name - name / 2
        } else if self.goes_on() {
            1
        } else {
            0
        }
    }

    // For how many columns it has heads, so that it ends with a name or a line.
    fn count(self, columns: usize) -> usize
        ensures count { result ≡ head_count self columns }
        ensures within { result ≤ columns }
    {
        if self.is_first() && columns % 2 == 0 {
            columns.saturating_sub(1)
        } else {
            columns
        }
    }
}

// The name of the box of a column.
fn name_at<'a>(names: &'a Names, columns: &[u32], column: usize) -> &'a [u8]
    requires { column < length columns.now }
    ensures { result.now ≡ name_at names.now columns.now column }
{
    box_word(names, columns[column])
}

// How many blanks stand before a head.
fn lead(line: HeadLine, names: &Names, columns: &[u32], column: usize) -> usize
    requires { column < length columns.now }
    ensures { result ≡ head_lead line names.now columns.now column }
{
    let before = line.before(name_at(names, columns, column).len(), column);
    if column == 0 {
        return MARGIN.saturating_sub(before);
    }
    let last = name_at(names, columns, column - 1).len();
    (GAP + 1)
        .saturating_sub(line.after(last, column - 1))
        .saturating_sub(before)
}

// Appends a head without its blanks.
fn put_head_text(
    style: Style,
    line: HeadLine,
    name: &[u8],
    column: usize,
    out: &mut Vec<u8>,
) -> Result<(), AllocError>
    ensures { OnOk result (out.new.items ≡ out.old.items ++ head_text style line name.now column) }
{
    if line.is_named(column) {
        out.extend_from_slice(name)
    } else if line.goes_on() {
        put_cell(style, Glyph::Line, out)
    } else {
        Ok(())
    }
}

// Appends a head.
fn put_head(
    style: Style,
    line: HeadLine,
    names: &Names,
    columns: &[u32],
    column: usize,
    out: &mut Vec<u8>,
) -> Result<(), AllocError>
    requires { column < length columns.now }
    ensures { OnOk result (out.new.items ≡ out.old.items ++ head style line names.now columns.now column) }
{
    put_cells(style, Glyph::Blank, lead(line, names, columns, column), out)?;
    put_head_text(style, line, name_at(names, columns, column), column, out)
}

// Appends a line of heads.
fn put_head_line(
    style: Style,
    line: HeadLine,
    names: &Names,
    columns: &[u32],
    out: &mut Vec<u8>,
) -> Result<(), AllocError>
    ensures { OnOk result (out.new.items ≡ out.old.items ++ head_line style line names.now columns.now) }
{
    for column in 0..line.count(columns.len()) {
        put_head(style, line, names, columns, column, out)?;
    }
    out.push(b'\n')?;
    Ok(())
}

// Appends the heads of all columns.
pub fn put_heads(frame: &Frame, names: &Names, out: &mut Vec<u8>) -> Result<(), AllocError>
    ensures { OnOk result (out.new.items ≡ out.old.items ++ heads frame.now names.now) }
{
    if !frame.long {
        return put_head_line(frame.style, HeadLine::Only, names, &frame.columns, out);
    }
    put_head_line(frame.style, HeadLine::First, names, &frame.columns, out)?;
    put_head_line(frame.style, HeadLine::Second, names, &frame.columns, out)
}
