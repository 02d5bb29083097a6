// Elements that several rows have.

ghost use Rattle.std.specs.Prelude.{◌≡◌, ◌≤◌, ◌<◌, ◌+◌, ◌^◌, ◌++◌, OnOk};
ghost use Rattle.std.specs.List.{flat_map, range_with_len};
ghost use Rattle.mc_ladder_svg.specs.Elements.{box_class, circle, text_at, text_beside, text_opening, upright, upright_each, uprights};

use crate::measure::{TextSide, x_of};
use std::alloc::{AllocError, Global};

// Appends bytes.
pub fn put_bytes(bytes: &[u8], out: &mut Vec<u8>) -> Result<(), AllocError>
    ensures { OnOk result (out.new.items ≡ out.old.items ++ bytes.now) }
{
    out.extend_from_slice(bytes)
}

// Appends what stands before the words of a text.
fn put_text_opening(
    alloc: Global,
    class: &str,
    x: u128,
    y: u32,
    out: &mut Vec<u8>,
) -> Result<(), AllocError>
    ensures { OnOk result (out.new.items ≡ out.old.items ++ text_opening class.now x y) }
{
    let opening = format!(in alloc; "<text class=\"{class}\" x=\"{x}\" y=\"{y}\">")?;
    put_bytes(opening.as_bytes(), out)
}

// Appends words at a place. Their class says how they look, and where their place is in them.
pub fn put_text(
    alloc: Global,
    class: &str,
    x: u128,
    y: u32,
    words: &[u8],
    out: &mut Vec<u8>,
) -> Result<(), AllocError>
    ensures { OnOk result (out.new.items ≡ out.old.items ++ text_at class.now x y words.now) }
{
    put_text_opening(alloc, class, x, y, out)?;
    put_bytes(words, out)?;
    put_bytes(b"</text>", out)
}

// Appends words beside a line, so far from it.
pub fn put_beside(
    alloc: Global,
    class: &str,
    side: TextSide,
    x: u128,
    y: u32,
    words: &[u8],
    out: &mut Vec<u8>,
) -> Result<(), AllocError>
    ensures { OnOk result (out.new.items ≡ out.old.items ++ text_beside class.now side x y words.now) }
{
    let class = format!(in alloc; "{class} {}", side.anchor())?;
    put_text(alloc, &class, x, y, words, out)
}

// Appends a circle.
pub fn put_circle(
    alloc: Global,
    class: &str,
    x: u128,
    y: u32,
    radius: u32,
    out: &mut Vec<u8>,
) -> Result<(), AllocError>
    ensures { OnOk result (out.new.items ≡ out.old.items ++ circle class.now x y radius) }
{
    let drawn = format!(in alloc;
        "<circle class=\"{class}\" cx=\"{x}\" cy=\"{y}\" r=\"{radius}\"/>"
    )?;
    put_bytes(drawn.as_bytes(), out)
}

// Appends the class by which a row tells that a column takes part in it.
pub fn put_box_class(alloc: Global, column: usize, out: &mut Vec<u8>) -> Result<(), AllocError>
    ensures { OnOk result (out.new.items ≡ out.old.items ++ box_class column) }
{
    let class = format!(in alloc; " b{column}")?;
    put_bytes(class.as_bytes(), out)
}

// Appends the line of a column, from one height to another.
fn put_upright(
    alloc: Global,
    column: usize,
    top: u32,
    bottom: u128,
    out: &mut Vec<u8>,
) -> Result<(), AllocError>
    ensures { OnOk result (out.new.items ≡ out.old.items ++ upright top bottom column) }
{
    let drawn = format!(in alloc; "M{} {top}V{bottom}", x_of(column))?;
    put_bytes(drawn.as_bytes(), out)
}

// Appends the lines of so many columns, as one path.
fn put_each_upright(
    alloc: Global,
    columns: usize,
    top: u32,
    bottom: u128,
    out: &mut Vec<u8>,
) -> Result<(), AllocError>
    ensures { OnOk result (out.new.items ≡ out.old.items ++ upright_each columns top bottom) }
{
    for column in 0..columns {
        put_upright(alloc, column, top, bottom, out)?;
    }
    Ok(())
}

// Appends the lines of so many columns.
pub fn put_uprights(
    alloc: Global,
    columns: usize,
    top: u32,
    bottom: u128,
    out: &mut Vec<u8>,
) -> Result<(), AllocError>
    ensures { OnOk result (out.new.items ≡ out.old.items ++ uprights columns top bottom) }
{
    put_bytes(b"<path class=\"v\" d=\"", out)?;
    put_each_upright(alloc, columns, top, bottom, out)?;
    put_bytes(b"\"/>", out)
}
