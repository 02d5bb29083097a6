// The row of a Take: an arrow from the line of the box that sent to that of the box whose slot takes.

ghost use Rattle.std.specs.Prelude.{◌≡◌, ◌≤◌, ◌<◌, ◌+◌, ◌++◌, ◌^◌, OnOk};
ghost use Rattle.mc_ladder.specs.Placing.{place_word};
ghost use Rattle.mc_ladder_svg.specs.Arrows.{arrow_cross, arrow_dot, arrow_drawn, arrow_end, arrow_head, arrow_line, arrow_words, back, cross_at, head_shape, line_class, onward, slot_name_at, slot_names, take_by, take_opening, take_picture, take_row, take_title, tip};

use crate::element::{put_beside, put_box_class, put_bytes, put_circle, put_text};
use crate::measure::{COLUMN, TextSide, x_of};
use crate::row::{Row, put_row_end, put_row_place, put_row_start};
use crate::signal::{shown_words, signal_class};
use mc_ladder::{Arrow, Taking, arrow_of, place_of, place_word, put_signal, slot_word};
use mc_signal::Signal;
use mc_text::Names;
use mc_world::World;
use std::alloc::{AllocError, Global};

// How far from a line the line of an arrow ends, and the name of a slot stands.
pub const APART: u128 = 8;

// The side to which an arrow goes.
fn onward(arrow: Arrow) -> TextSide
    ensures { result ≡ onward arrow }
{
    if arrow.is_right() {
        TextSide::Right
    } else {
        TextSide::Left
    }
}

// The side from which it comes.
fn back(arrow: Arrow) -> TextSide
    ensures { result ≡ back arrow }
{
    onward(arrow).opposite()
}

// Where its line ends, before the line of the box.
fn tip(arrow: Arrow) -> u128
    ensures few { result < 2 ^ 73 }
    ensures least { 168 ≤ result }
    ensures tip { result ≡ tip arrow }
{
    back(arrow).beside(x_of(arrow.to), APART)
}

// ---- the arrow

// The class of its line: that of a dropped signal is dashed.
fn line_class(dropped: bool) -> &'static str
    ensures { result.now ≡ line_class dropped }
{
    if dropped { "l g" } else { "l" }
}

// Appends its line.
fn put_line(alloc: Global, arrow: Arrow, out: &mut Vec<u8>) -> Result<(), AllocError>
    ensures { OnOk result (out.new.items ≡ out.old.items ++ arrow_line arrow) }
{
    let class = line_class(arrow.dropped);
    let from = x_of(arrow.from);
    let drawn = format!(in alloc; "<path class=\"{class}\" d=\"M{from} 17H{}\"/>", tip(arrow))?;
    put_bytes(drawn.as_bytes(), out)
}

// The path of a head from its point on.
fn head_shape(side: TextSide) -> &'static str
    ensures { result.now ≡ head_shape side }
{
    match side {
        TextSide::Left => "l10-5v10z",
        TextSide::Right => "l-10-5v10z",
    }
}

// Appends a head, at the line of the box.
fn put_head(alloc: Global, arrow: Arrow, out: &mut Vec<u8>) -> Result<(), AllocError>
    ensures { OnOk result (out.new.items ≡ out.old.items ++ arrow_head arrow) }
{
    let to = x_of(arrow.to);
    let shape = head_shape(onward(arrow));
    let drawn = format!(in alloc; "<path class=\"f\" d=\"M{to} 17{shape}\"/>")?;
    put_bytes(drawn.as_bytes(), out)
}

// Appends a cross, from its left edge on.
fn put_cross_at(alloc: Global, left: u128, out: &mut Vec<u8>) -> Result<(), AllocError>
    ensures { OnOk result (out.new.items ≡ out.old.items ++ cross_at left) }
{
    let drawn = format!(in alloc; "<path class=\"l\" d=\"M{left} 12l10 10M{left} 22l10-10\"/>")?;
    put_bytes(drawn.as_bytes(), out)
}

// Appends a cross, where the line ends.
fn put_cross(alloc: Global, arrow: Arrow, out: &mut Vec<u8>) -> Result<(), AllocError>
    ensures { OnOk result (out.new.items ≡ out.old.items ++ arrow_cross arrow) }
{
    put_cross_at(alloc, tip(arrow) - 5, out)
}

// Appends its end: a cross where the signal is dropped, and else a head.
fn put_end(alloc: Global, arrow: Arrow, out: &mut Vec<u8>) -> Result<(), AllocError>
    ensures { OnOk result (out.new.items ≡ out.old.items ++ arrow_end arrow) }
{
    if arrow.dropped {
        put_cross(alloc, arrow, out)
    } else {
        put_head(alloc, arrow, out)
    }
}

// Appends the dot with which it begins.
fn put_dot(alloc: Global, arrow: Arrow, out: &mut Vec<u8>) -> Result<(), AllocError>
    ensures { OnOk result (out.new.items ≡ out.old.items ++ arrow_dot arrow) }
{
    put_circle(alloc, "f", x_of(arrow.from), 17, 3, out)
}

// Appends an arrow.
fn put_arrow(alloc: Global, arrow: Arrow, out: &mut Vec<u8>) -> Result<(), AllocError>
    ensures { OnOk result (out.new.items ≡ out.old.items ++ arrow_drawn arrow) }
{
    put_line(alloc, arrow, out)?;
    put_dot(alloc, arrow, out)?;
    put_end(alloc, arrow, out)
}

// ---- its words

// Appends the words of a signal, over the gap beside the box that sent.
fn put_words(
    alloc: Global,
    names: &Names,
    arrow: Arrow,
    signal: &Signal,
    out: &mut Vec<u8>,
) -> Result<(), AllocError>
    ensures { OnOk result (out.new.items ≡ out.old.items ++ arrow_words names.now arrow signal.now) }
{
    let words = shown_words(alloc, names, signal)?;
    let middle = onward(arrow).beside(x_of(arrow.from), COLUMN / 2);
    put_text(alloc, "m", middle, 10, &words, out)
}

// Appends the name of a slot beside the line of its box.
fn put_slot_name(
    alloc: Global,
    names: &Names,
    world: &World,
    slot: u32,
    side: TextSide,
    column: usize,
    out: &mut Vec<u8>,
) -> Result<(), AllocError>
    ensures { OnOk result (out.new.items ≡ out.old.items ++ slot_name_at names.now world.now slot side column) }
{
    let (who, local) = place_of(world, slot);
    let x = side.beside(x_of(column), APART);
    put_beside(alloc, "d", side, x, 21, slot_word(names, who, local), out)
}

// Appends the name of the slot that sent, after the beginning of the arrow.
fn put_near_name(
    alloc: Global,
    names: &Names,
    world: &World,
    arrow: Arrow,
    slot: u32,
    out: &mut Vec<u8>,
) -> Result<(), AllocError>
    ensures { OnOk result (out.new.items ≡ out.old.items ++ slot_name_at names.now world.now slot (back arrow) arrow.from) }
{
    put_slot_name(alloc, names, world, slot, back(arrow), arrow.from, out)
}

// Appends the name of the slot that takes, beyond its end.
fn put_far_name(
    alloc: Global,
    names: &Names,
    world: &World,
    arrow: Arrow,
    slot: u32,
    out: &mut Vec<u8>,
) -> Result<(), AllocError>
    ensures { OnOk result (out.new.items ≡ out.old.items ++ slot_name_at names.now world.now slot (onward arrow) arrow.to) }
{
    put_slot_name(alloc, names, world, slot, onward(arrow), arrow.to, out)
}

// Appends the names of both slots.
fn put_slot_names(
    alloc: Global,
    names: &Names,
    world: &World,
    arrow: Arrow,
    taken: &Taking,
    out: &mut Vec<u8>,
) -> Result<(), AllocError>
    ensures { OnOk result (out.new.items ≡ out.old.items ++ slot_names names.now world.now arrow taken.now) }
{
    put_near_name(alloc, names, world, arrow, taken.from, out)?;
    put_far_name(alloc, names, world, arrow, taken.slot, out)
}

// Appends a slot, as `box/slot`.
fn put_place(
    alloc: Global,
    names: &Names,
    world: &World,
    slot: u32,
    out: &mut Vec<u8>,
) -> Result<(), AllocError>
    ensures { OnOk result (out.new.items ≡ out.old.items ++ place_word names.now world.now slot) }
{
    let word = place_word(alloc, names, world, slot)?;
    put_bytes(&word, out)
}

// Appends the title of a row: both places, and the signal in full.
fn put_title(
    alloc: Global,
    names: &Names,
    world: &World,
    taken: &Taking,
    out: &mut Vec<u8>,
) -> Result<(), AllocError>
    ensures { OnOk result (out.new.items ≡ out.old.items ++ take_title names.now world.now taken.now) }
{
    put_place(alloc, names, world, taken.from, out)?;
    put_bytes(b" \xe2\x86\x92 ", out)?;
    put_place(alloc, names, world, taken.slot, out)?;
    put_signal(alloc, names, world, &taken.signal, taken.dropped, out)
}

// ---- the row

// Appends what stands before the title of a row.
fn put_opening(
    alloc: Global,
    arrow: Arrow,
    class: &str,
    row: Row,
    out: &mut Vec<u8>,
) -> Result<(), AllocError>
    ensures { OnOk result (out.new.items ≡ out.old.items ++ take_opening arrow class.now row) }
{
    put_row_start(alloc, row.number, class, out)?;
    put_box_class(alloc, arrow.from, out)?;
    put_box_class(alloc, arrow.to, out)?;
    put_row_place(alloc, row.y, out)
}

// Appends what stands after it.
fn put_picture(
    alloc: Global,
    names: &Names,
    world: &World,
    arrow: Arrow,
    taken: &Taking,
    out: &mut Vec<u8>,
) -> Result<(), AllocError>
    ensures { OnOk result (out.new.items ≡ out.old.items ++ take_picture names.now world.now arrow taken.now) }
{
    put_bytes(b"</title>", out)?;
    put_arrow(alloc, arrow, out)?;
    put_words(alloc, names, arrow, &taken.signal, out)?;
    put_slot_names(alloc, names, world, arrow, taken, out)
}

// Appends the row of a Take, with this arrow and of this class.
fn put_take_by(
    alloc: Global,
    names: &Names,
    world: &World,
    arrow: Arrow,
    class: &str,
    taken: &Taking,
    row: Row,
    out: &mut Vec<u8>,
) -> Result<(), AllocError>
    ensures { OnOk result (out.new.items ≡ out.old.items ++ take_by names.now world.now arrow class.now taken.now row) }
{
    put_opening(alloc, arrow, class, row, out)?;
    put_title(alloc, names, world, taken, out)?;
    put_picture(alloc, names, world, arrow, taken, out)?;
    put_row_end(alloc, row, out)
}

// Appends the row of a Take.
pub fn put_take(
    alloc: Global,
    columns: &[u32],
    names: &Names,
    world: &World,
    taken: &Taking,
    row: Row,
    out: &mut Vec<u8>,
) -> Result<(), AllocError>
    ensures { OnOk result (out.new.items ≡ out.old.items ++ take_row columns.now names.now world.now taken.now row) }
{
    let arrow = arrow_of(columns, world, taken);
    let class = signal_class(&taken.signal);
    put_take_by(alloc, names, world, arrow, class, taken, row, out)
}
