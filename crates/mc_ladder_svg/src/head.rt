// The heads of the columns: the name of each box over its line, with square corners for a device.

ghost use Rattle.std.specs.Prelude.{◌≡◌, ◌<◌, ◌++◌, length, OnOk};
ghost use Rattle.mc_ladder_svg.specs.Heads.{box_of, corner, frame, frame_at, head, head_of, heads, is_device_at, name_at};

use crate::element::{put_bytes, put_text};
use crate::measure::x_of;
use mc_box::Kind;
use mc_ladder::box_word;
use mc_text::Names;
use mc_world::World;
use std::alloc::{AllocError, Global};

// Whether a box is a device.
fn is_device_at(world: &World, who: u32) -> bool
    ensures { result ≡ is_device_at world.now who }
{
    match world.boxes().get(who as usize) {
        Some(home) => matches!(home.kind(), Kind::Device),
        None => false,
    }
}

// The radius of the corners of its head.
fn corner(device: bool) -> u32
    ensures { result ≡ corner device }
{
    if device { 3 } else { 13 }
}

// Appends the frame of a head, from its left edge on.
fn put_frame_at(
    alloc: Global,
    column: usize,
    left: u128,
    corner: u32,
    out: &mut Vec<u8>,
) -> Result<(), AllocError>
    ensures { OnOk result (out.new.items ≡ out.old.items ++ frame_at column left corner) }
{
    let drawn = format!(in alloc;
        "<g class=\"hd b{column}\" data-c=\"{column}\"><rect class=\"x\" x=\"{left}\" y=\"8\" width=\"128\" height=\"26\" rx=\"{corner}\"/>"
    )?;
    put_bytes(drawn.as_bytes(), out)
}

// Appends the frame of a head, in the middle of its column.
fn put_frame(alloc: Global, column: usize, corner: u32, out: &mut Vec<u8>) -> Result<(), AllocError>
    ensures { OnOk result (out.new.items ≡ out.old.items ++ frame column corner) }
{
    put_frame_at(alloc, column, x_of(column) - 64, corner, out)
}

// Appends the name of a box, over the line of its column.
fn put_name(
    alloc: Global,
    names: &Names,
    column: usize,
    who: u32,
    out: &mut Vec<u8>,
) -> Result<(), AllocError>
    ensures { OnOk result (out.new.items ≡ out.old.items ++ name_at names.now column who) }
{
    put_text(alloc, "m h", x_of(column), 25, box_word(names, who), out)
}

// Appends the head of a box, with corners of this radius.
fn put_head_of(
    alloc: Global,
    names: &Names,
    column: usize,
    who: u32,
    corner: u32,
    out: &mut Vec<u8>,
) -> Result<(), AllocError>
    ensures { OnOk result (out.new.items ≡ out.old.items ++ head_of names.now column who corner) }
{
    put_frame(alloc, column, corner, out)?;
    put_name(alloc, names, column, who, out)?;
    put_bytes(b"</g>\n", out)
}

// The box of a column.
fn box_of(columns: &[u32], column: usize) -> u32
    requires { column < length columns.now }
    ensures { result ≡ box_of columns.now column }
{
    columns[column]
}

// Appends the head of a column.
fn put_head(
    alloc: Global,
    names: &Names,
    world: &World,
    columns: &[u32],
    column: usize,
    out: &mut Vec<u8>,
) -> Result<(), AllocError>
    requires { column < length columns.now }
    ensures { OnOk result (out.new.items ≡ out.old.items ++ head names.now world.now columns.now column) }
{
    let who = box_of(columns, column);
    let corner = corner(is_device_at(world, who));
    put_head_of(alloc, names, column, who, corner, out)
}

// Appends the heads of all columns.
pub fn put_heads(
    alloc: Global,
    names: &Names,
    world: &World,
    columns: &[u32],
    out: &mut Vec<u8>,
) -> Result<(), AllocError>
    ensures { OnOk result (out.new.items ≡ out.old.items ++ heads names.now world.now columns.now) }
{
    for column in 0..columns.len() {
        put_head(alloc, names, world, columns, column, out)?;
    }
    Ok(())
}
