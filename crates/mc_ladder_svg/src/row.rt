// What each turn's row has: its place and its number.

ghost use Rattle.std.specs.Prelude.{◌≡◌, ◌++◌, OnOk};
ghost use Rattle.mc_ladder_svg.specs.TurnRows.{closing_mark, row_end, row_number, row_place, row_start};

use crate::element::put_bytes;
use std::alloc::{AllocError, Global};

// The number of a turn, the height at which its row begins, and whether a closed path that is drawn names it.
#[derive(Clone, Copy)]
pub struct Row {
    pub number: u32,
    pub y: u128,
    pub closing: bool,
}

// What stands after the number of a turn that a closed path names.
fn closing_mark(closing: bool) -> &'static str
    ensures { result.now ≡ closing_mark closing }
{
    if closing {
        "<text class=\"cl h s\" x=\"55\" y=\"21\">*</text>"
    } else {
        ""
    }
}

// Appends the beginning of a row, up to the class of its colour.
pub fn put_row_start(
    alloc: Global,
    number: u32,
    class: &str,
    out: &mut Vec<u8>,
) -> Result<(), AllocError>
    ensures { OnOk result (out.new.items ≡ out.old.items ++ row_start number class.now) }
{
    let tag = format!(in alloc; "<g id=\"turn-{number}\" class=\"{class}")?;
    put_bytes(tag.as_bytes(), out)
}

// Appends the place of a row, up to its title.
pub fn put_row_place(alloc: Global, y: u128, out: &mut Vec<u8>) -> Result<(), AllocError>
    ensures { OnOk result (out.new.items ≡ out.old.items ++ row_place y) }
{
    let tag = format!(in alloc; "\" transform=\"translate(0,{y})\"><title>")?;
    put_bytes(tag.as_bytes(), out)
}

// Appends the end of a row, and its number.
fn put_row_number(alloc: Global, row: Row, out: &mut Vec<u8>) -> Result<(), AllocError>
    ensures { OnOk result (out.new.items ≡ out.old.items ++ row_number row) }
{
    let Row { number, y, .. } = row;
    let tag = format!(in alloc;
        "</g>\n<g transform=\"translate(0,{y})\"><text class=\"d e\" x=\"52\" y=\"21\">{number}</text>"
    )?;
    put_bytes(tag.as_bytes(), out)
}

// The same, and its mark.
pub fn put_row_end(alloc: Global, row: Row, out: &mut Vec<u8>) -> Result<(), AllocError>
    ensures { OnOk result (out.new.items ≡ out.old.items ++ row_end row) }
{
    put_row_number(alloc, row, out)?;
    put_bytes(closing_mark(row.closing).as_bytes(), out)?;
    put_bytes(b"</g>\n", out)
}
