// The line of a path, from its left end to its right, over each box that it goes through.

ghost use Rattle.std.specs.Prelude.{◌≡◌, ◌≤◌, ◌<◌, ◌+◌, ◌*◌, ◌/◌, ◌^◌, ◌++◌, length, IfOk, OnOk};
ghost use Rattle.mc_ladder_svg.specs.Lines.{bend, column_at, ends_drawn, from_left, is_turned, left_end, left_of, leg_height, leg_line, legs, line_class, link_circle, links, right_end, right_of, route, step, stops_drawn};
ghost use Rattle.mc_model.specs.Worlds.{slot_count};

use crate::element::{put_bytes, put_circle};
use crate::measure::x_of;
use mc_ladder::{Ends, path_columns};
use mc_world::World;
use std::alloc::{AllocError, Global};

// The height of a leg that goes to the right, and of one that goes back.
pub const ONWARD: u32 = 18;

pub const BACK: u32 = 26;

// Whether the lower end of a path stands at the right.
pub fn is_turned(ends: Ends) -> bool
    ensures { result ≡ is_turned ends }
{
    ends.high < ends.low
}

// The column of the left end.
pub fn left_of(ends: Ends) -> usize
    ensures { result ≡ left_of ends }
{
    if is_turned(ends) { ends.high } else { ends.low }
}

// The column of the right end.
pub fn right_of(ends: Ends) -> usize
    ensures { result ≡ right_of ends }
{
    if is_turned(ends) { ends.low } else { ends.high }
}

// The columns of the slots of a path, from its left end on, where those from its lower end on are these.
fn from_left(ends: Ends, mut stops: Vec<usize>) -> Vec<usize>
    ensures { result.items ≡ from_left ends stops.items }
{
    if is_turned(ends) {
        stops.reverse();
    }
    stops
}

// The columns of the slots of a path from its left end on, by its lower end.
pub fn stops_drawn(
    alloc: Global,
    columns: &[u32],
    world: &World,
    low: u32,
    ends: Ends,
) -> Result<Vec<usize>, AllocError>
    ensures { IfOk result (λ stops. stops.items ≡ stops_drawn columns.now world.now low ends) }
{
    let stops = path_columns(alloc, columns, world, low)?;
    Ok(from_left(ends, stops))
}

// ---- its legs: one for each tunnel, between two slots

// The column of a slot.
fn column_at(stops: &[usize], place: usize) -> usize
    ensures { result ≡ column_at stops.now place }
{
    stops.get(place).copied().unwrap_or(0)
}

// The height of a leg.
fn leg_height(stops: &[usize], leg: usize) -> u32
    requires { 2 * leg + 1 < 2 ^ 64 }
    ensures height { result ≡ leg_height stops.now leg }
    ensures few { result ≤ BACK }
{
    if column_at(stops, 2 * leg) < column_at(stops, 2 * leg + 1) {
        ONWARD
    } else {
        BACK
    }
}

// Appends where the first leg begins, and an upright to any other that has another height than the one before.
fn put_bend(alloc: Global, stops: &[usize], leg: usize, out: &mut Vec<u8>) -> Result<(), AllocError>
    requires { 2 * leg + 1 < 2 ^ 64 }
    ensures { OnOk result (out.new.items ≡ out.old.items ++ bend stops.now leg) }
{
    let y = leg_height(stops, leg);
    if leg == 0 {
        let from = x_of(column_at(stops, 0));
        let start = format!(in alloc; "M{from} {y}")?;
        return put_bytes(start.as_bytes(), out);
    }
    if leg_height(stops, leg - 1) == y {
        return Ok(());
    }
    let upright = format!(in alloc; "V{y}")?;
    put_bytes(upright.as_bytes(), out)
}

// Appends the line of a leg.
fn put_leg(alloc: Global, stops: &[usize], leg: usize, out: &mut Vec<u8>) -> Result<(), AllocError>
    requires { 2 * leg + 1 < 2 ^ 64 }
    ensures { OnOk result (out.new.items ≡ out.old.items ++ leg_line stops.now leg) }
{
    let line = format!(in alloc; "H{}", x_of(column_at(stops, 2 * leg + 1)))?;
    put_bytes(line.as_bytes(), out)
}

// Appends a leg, from where the one before ends.
fn put_step(alloc: Global, stops: &[usize], leg: usize, out: &mut Vec<u8>) -> Result<(), AllocError>
    requires { 2 * leg + 1 < 2 ^ 64 }
    ensures { OnOk result (out.new.items ≡ out.old.items ++ step stops.now leg) }
{
    put_bend(alloc, stops, leg, out)?;
    put_leg(alloc, stops, leg, out)
}

// The beginning of a path's line: that of a flowing path is thick.
fn line_class(flowing: bool) -> &'static [u8]
    ensures { result.now ≡ line_class flowing }
{
    if flowing {
        b"<path class=\"k\" d=\""
    } else {
        b"<path class=\"q\" d=\""
    }
}

// Appends the beginning of a path's line.
fn put_line_start(flowing: bool, out: &mut Vec<u8>) -> Result<(), AllocError>
    ensures { OnOk result (out.new.items ≡ out.old.items ++ line_class flowing) }
{
    put_bytes(line_class(flowing), out)
}

// Appends the legs of a path.
fn put_legs(alloc: Global, stops: &[usize], out: &mut Vec<u8>) -> Result<(), AllocError>
    ensures { OnOk result (out.new.items ≡ out.old.items ++ legs stops.now) }
{
    for leg in 0..stops.len() / 2 {
        put_step(alloc, stops, leg, out)?;
    }
    Ok(())
}

// Appends the line of a path.
pub fn put_route(
    alloc: Global,
    flowing: bool,
    stops: &[usize],
    out: &mut Vec<u8>,
) -> Result<(), AllocError>
    ensures { OnOk result (out.new.items ≡ out.old.items ++ route flowing stops.now) }
{
    put_line_start(flowing, out)?;
    put_legs(alloc, stops, out)?;
    put_bytes(b"\"/>", out)
}

// ---- its boxes

// Appends a hollow dot where a box links a leg with the next.
fn put_link(alloc: Global, stops: &[usize], leg: usize, out: &mut Vec<u8>) -> Result<(), AllocError>
    requires { 2 * leg + 3 < 2 ^ 64 }
    ensures { OnOk result (out.new.items ≡ out.old.items ++ link_circle stops.now leg) }
{
    let x = x_of(column_at(stops, 2 * leg + 1));
    let y = (leg_height(stops, leg) + leg_height(stops, leg + 1)) / 2;
    put_circle(alloc, "x", x, y, 4, out)
}

// Appends the hollow dots of a path.
pub fn put_links(alloc: Global, stops: &[usize], out: &mut Vec<u8>) -> Result<(), AllocError>
    ensures { OnOk result (out.new.items ≡ out.old.items ++ links stops.now) }
{
    for leg in 0..(stops.len() / 2).saturating_sub(1) {
        put_link(alloc, stops, leg, out)?;
    }
    Ok(())
}

// Appends the full dot of the left end.
fn put_left_end(
    alloc: Global,
    ends: Ends,
    stops: &[usize],
    out: &mut Vec<u8>,
) -> Result<(), AllocError>
    ensures { OnOk result (out.new.items ≡ out.old.items ++ left_end ends stops.now) }
{
    put_circle(
        alloc,
        "f",
        x_of(left_of(ends)),
        leg_height(stops, 0),
        5,
        out,
    )
}

// Appends that of the right end.
fn put_right_end(
    alloc: Global,
    ends: Ends,
    stops: &[usize],
    out: &mut Vec<u8>,
) -> Result<(), AllocError>
    ensures { OnOk result (out.new.items ≡ out.old.items ++ right_end ends stops.now) }
{
    let last = (stops.len() / 2).saturating_sub(1);
    put_circle(
        alloc,
        "f",
        x_of(right_of(ends)),
        leg_height(stops, last),
        5,
        out,
    )
}

// Appends the full dots of a path's ends.
pub fn put_ends(
    alloc: Global,
    ends: Ends,
    stops: &[usize],
    out: &mut Vec<u8>,
) -> Result<(), AllocError>
    ensures { OnOk result (out.new.items ≡ out.old.items ++ ends_drawn ends stops.now) }
{
    put_left_end(alloc, ends, stops, out)?;
    put_right_end(alloc, ends, stops, out)
}
