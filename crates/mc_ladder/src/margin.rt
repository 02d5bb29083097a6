// What stands before the lanes: a turn's number, or nothing.

ghost use Rattle.std.specs.Prelude.{◌≡◌, ◌++◌, OnOk};
ghost use Rattle.mc_ladder.specs.Margins.{closing_mark, is_marked, number_field, numbered};

use crate::glyph::{Glyph, Style, put_cells};
use crate::lanes::MARGIN;
use std::alloc::{AllocError, Global};

// The cells in which the number of a turn stands at the right.
pub const NUMBER_CELLS: usize = 5;

/// The number of a turn, and whether a closed path that is drawn names it.
#[derive(Clone, Copy)]
pub struct Label {
    pub number: u32,
    pub closing: bool,
}

/// Whether a number is marked.
pub fn is_marked(marks: &[bool], number: u32) -> bool
    ensures { result ≡ is_marked marks.now number }
{
    match marks.get(number as usize) {
        Some(marked) => *marked,
        None => false,
    }
}

// What stands after the number of a turn that a closed path names.
fn closing_mark(closing: bool) -> &'static [u8]
    ensures { result.now ≡ closing_mark closing }
{
    if closing { b" *" } else { b"" }
}

// Appends digits at the right of their cells, a mark, and blanks up to the first column.
fn put_digits(style: Style, digits: &[u8], mark: &[u8], out: &mut Vec<u8>) -> Result<(), AllocError>
    ensures { OnOk result (out.new.items ≡ out.old.items ++ number_field style digits.now mark.now) }
{
    let before = NUMBER_CELLS.saturating_sub(digits.len());
    put_cells(style, Glyph::Blank, before, out)?;
    out.extend_from_slice(digits)?;
    out.extend_from_slice(mark)?;
    let after = MARGIN
        .saturating_sub(before)
        .saturating_sub(digits.len())
        .saturating_sub(mark.len());
    put_cells(style, Glyph::Blank, after, out)
}

// Appends the number of a turn, up to the first column.
pub fn put_number(
    alloc: Global,
    style: Style,
    label: Label,
    out: &mut Vec<u8>,
) -> Result<(), AllocError>
    ensures { OnOk result (out.new.items ≡ out.old.items ++ numbered style label) }
{
    let digits = format!(in alloc; "{}", label.number)?;
    put_digits(style, digits.as_bytes(), closing_mark(label.closing), out)
}
