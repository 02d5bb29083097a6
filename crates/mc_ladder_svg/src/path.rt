// A path at a settle: its line, what its ends are for, and who hears what, or which turn closed it.

ghost use Rattle.std.specs.Prelude.{◌≡◌, ◌≤◌, ◌<◌, ◌+◌, ◌*◌, ◌^◌, ◌++◌, is_some, IfOk, OnOk};
ghost use Rattle.mc_ladder_svg.specs.Elements.{text_beside};
ghost use Rattle.mc_ladder_svg.specs.PathRows.{end_labels, end_labels_at, flow_label, flow_words, flow_x, goal_label, goal_words, hears_class, hears_words, high_labels, is_heard, low_labels, low_side, path_between, path_boxes, path_class, path_drawn, path_labels, path_opening, path_place, path_row, stop_class, told_label, why_words};

use crate::element::{put_beside, put_box_class, put_bytes, put_text};
use crate::mark::is_last;
use crate::measure::{COLUMN, PATH, TextSide, x_of};
use crate::route::{is_turned, left_of, put_ends, put_links, put_route, stops_drawn};
use mc_ladder::{Ends, codec_word, ends_of, flow_word, is_stop, medium_word, put_word, slot_word};
use mc_script::goal_word;
use mc_table::{why_at, why_word};
use mc_text::Names;
use mc_view::{EndView, PathView};
use mc_world::World;
use std::alloc::{AllocError, Global};

// ---- its ends

// The side of the line of its box at which the words of the lower end stand.
fn low_side(ends: Ends) -> TextSide
    ensures { result ≡ low_side ends }
{
    if is_turned(ends) {
        TextSide::Right
    } else {
        TextSide::Left
    }
}

// An end's slot and goal.
fn goal_words(alloc: Global, names: &Names, end: &EndView) -> Result<Vec<u8>, AllocError>
    ensures { IfOk result (λ words. words.items ≡ goal_words names.now end.now) }
{
    let mut words = Vec::from_slice(alloc, slot_word(names, end.who, end.local))?;
    put_word(goal_word(end.goal), &mut words)?;
    Ok(words)
}

// Appends them above the line of the path.
fn put_goal(
    alloc: Global,
    names: &Names,
    side: TextSide,
    x: u128,
    end: &EndView,
    out: &mut Vec<u8>,
) -> Result<(), AllocError>
    ensures { OnOk result (out.new.items ≡ out.old.items ++ goal_label names.now side x end.now) }
{
    let words = goal_words(alloc, names, end)?;
    put_beside(alloc, "o d", side, x, 10, &words, out)
}

// What an end hears.
fn hears_words(alloc: Global, names: &Names, end: &EndView) -> Result<Vec<u8>, AllocError>
    ensures { IfOk result (λ words. words.items ≡ hears_words names.now end.now) }
{
    let mut words = Vec::from_slice(alloc, b"hears")?;
    put_word(codec_word(names, end.hears), &mut words)?;
    Ok(words)
}

// The class of that: where an end hears nothing it has the colour of what is silent.
fn hears_class(heard: bool) -> &'static str
    ensures { result.now ≡ hears_class heard }
{
    if heard { "o" } else { "o d" }
}

// From which turn the close came by which an end became closed.
fn why_words(alloc: Global, whys: &[Option<u32>], end: &EndView) -> Result<Vec<u8>, AllocError>
    ensures { IfOk result (λ words. words.items ≡ why_words whys.now end.now) }
{
    let mut words = Vec::from_slice(alloc, b"why")?;
    let turn = why_word(alloc, why_at(whys, end.slot))?;
    put_word(&turn, &mut words)?;
    Ok(words)
}

// Appends what an end hears below the line of the path.
fn put_hears(
    alloc: Global,
    names: &Names,
    side: TextSide,
    x: u128,
    end: &EndView,
    out: &mut Vec<u8>,
) -> Result<(), AllocError>
    ensures { OnOk result (out.new.items
        ≡ out.old.items ++ text_beside (hears_class (is_some end.now.hears)) side x 39 (hears_words names.now end.now)) }
{
    let words = hears_words(alloc, names, end)?;
    let class = hears_class(end.hears.is_some());
    put_beside(alloc, class, side, x, 39, &words, out)
}

// Appends what is told of an end below the line of the path.
fn put_told(
    alloc: Global,
    names: &Names,
    flowing: bool,
    whys: &[Option<u32>],
    side: TextSide,
    x: u128,
    end: &EndView,
    out: &mut Vec<u8>,
) -> Result<(), AllocError>
    ensures { OnOk result (out.new.items ≡ out.old.items ++ told_label names.now flowing whys.now side x end.now) }
{
    if flowing {
        return put_hears(alloc, names, side, x, end, out);
    }
    let words = why_words(alloc, whys, end)?;
    put_beside(alloc, "o d", side, x, 39, &words, out)
}

// Appends the words of an end, from a place on.
fn put_end_at(
    alloc: Global,
    names: &Names,
    flowing: bool,
    whys: &[Option<u32>],
    side: TextSide,
    x: u128,
    end: &EndView,
    out: &mut Vec<u8>,
) -> Result<(), AllocError>
    ensures { OnOk result (out.new.items ≡ out.old.items ++ end_labels_at names.now flowing whys.now side x end.now) }
{
    put_goal(alloc, names, side, x, end, out)?;
    put_told(alloc, names, flowing, whys, side, x, end, out)
}

// Appends the words of an end, beside the line of its box.
fn put_end(
    alloc: Global,
    names: &Names,
    flowing: bool,
    whys: &[Option<u32>],
    side: TextSide,
    column: usize,
    end: &EndView,
    out: &mut Vec<u8>,
) -> Result<(), AllocError>
    ensures { OnOk result (out.new.items ≡ out.old.items ++ end_labels names.now flowing whys.now side column end.now) }
{
    let x = side.beside(x_of(column), 10);
    put_end_at(alloc, names, flowing, whys, side, x, end, out)
}

// ---- the whole path

// Where it is told whether a path flows: over the gap at the right of its left end. Where both ends stand in one column
// that has the words of the other end, and so it is the gap after that, or the one before in the last column.
fn flow_x(columns: usize, ends: Ends) -> u128
    ensures { result ≡ flow_x columns ends }
{
    let left = x_of(left_of(ends));
    if ends.low != ends.high {
        left + COLUMN / 2
    } else if is_last(columns, ends.low) {
        left.saturating_sub(COLUMN + COLUMN / 2)
    } else {
        left + (COLUMN + COLUMN / 2)
    }
}

// Whether a path flows, and its medium.
fn flow_words(alloc: Global, view: &PathView) -> Result<Vec<u8>, AllocError>
    ensures { IfOk result (λ words. words.items ≡ flow_words view.now) }
{
    let mut words = Vec::from_slice(alloc, flow_word(view.flowing))?;
    put_word(medium_word(view.medium), &mut words)?;
    Ok(words)
}

// Appends that.
fn put_flow(
    alloc: Global,
    columns: usize,
    ends: Ends,
    view: &PathView,
    out: &mut Vec<u8>,
) -> Result<(), AllocError>
    ensures { OnOk result (out.new.items ≡ out.old.items ++ flow_label columns ends view.now) }
{
    let words = flow_words(alloc, view)?;
    put_text(alloc, "o m", flow_x(columns, ends), 10, &words, out)
}

// Appends the words of the lower end.
fn put_low_end(
    alloc: Global,
    names: &Names,
    whys: &[Option<u32>],
    ends: Ends,
    end: &EndView,
    out: &mut Vec<u8>,
) -> Result<(), AllocError>
    ensures { OnOk result (out.new.items ≡ out.old.items ++ low_labels names.now whys.now ends end.now) }
{
    put_end(
        alloc,
        names,
        ends.flowing,
        whys,
        low_side(ends),
        ends.low,
        end,
        out,
    )
}

// Appends the words of the higher end, which stands at the other side.
fn put_high_end(
    alloc: Global,
    names: &Names,
    whys: &[Option<u32>],
    ends: Ends,
    end: &EndView,
    out: &mut Vec<u8>,
) -> Result<(), AllocError>
    ensures { OnOk result (out.new.items ≡ out.old.items ++ high_labels names.now whys.now ends end.now) }
{
    let side = low_side(ends).opposite();
    put_end(alloc, names, ends.flowing, whys, side, ends.high, end, out)
}

// Appends the words of a path.
fn put_labels(
    alloc: Global,
    columns: usize,
    names: &Names,
    whys: &[Option<u32>],
    ends: Ends,
    view: &PathView,
    out: &mut Vec<u8>,
) -> Result<(), AllocError>
    ensures { OnOk result (out.new.items ≡ out.old.items ++ path_labels columns names.now whys.now ends view.now) }
{
    put_low_end(alloc, names, whys, ends, &view.low, out)?;
    put_high_end(alloc, names, whys, ends, &view.high, out)?;
    put_flow(alloc, columns, ends, view, out)
}

// Appends the line of a path, and its dots.
fn put_drawn(
    alloc: Global,
    ends: Ends,
    stops: &[usize],
    out: &mut Vec<u8>,
) -> Result<(), AllocError>
    ensures { OnOk result (out.new.items ≡ out.old.items ++ path_drawn ends stops.now) }
{
    put_route(alloc, ends.flowing, stops, out)?;
    put_links(alloc, stops, out)?;
    put_ends(alloc, ends, stops, out)
}

// Whether somebody hears something on a path.
fn is_heard(view: &PathView) -> bool
    ensures { result ≡ is_heard view.now }
{
    view.low.hears.is_some() || view.high.hears.is_some()
}

// The beginning of a path's row: its colour tells whether somebody hears something.
fn path_class(heard: bool) -> &'static [u8]
    ensures { result.now ≡ path_class heard }
{
    if heard {
        b"<g class=\"fl"
    } else {
        b"<g class=\"si"
    }
}

// Appends the beginning of a path's row.
fn put_start(view: &PathView, out: &mut Vec<u8>) -> Result<(), AllocError>
    ensures { OnOk result (out.new.items ≡ out.old.items ++ path_class (is_heard view.now)) }
{
    put_bytes(path_class(is_heard(view)), out)
}

// Appends the class of a column, where a path stops there.
fn put_stop_class(
    alloc: Global,
    stops: &[usize],
    column: usize,
    out: &mut Vec<u8>,
) -> Result<(), AllocError>
    ensures { OnOk result (out.new.items ≡ out.old.items ++ stop_class stops.now column) }
{
    if is_stop(stops, column) {
        put_box_class(alloc, column, out)
    } else {
        Ok(())
    }
}

// Appends the classes of all columns at which a path stops.
fn put_boxes(
    alloc: Global,
    columns: usize,
    stops: &[usize],
    out: &mut Vec<u8>,
) -> Result<(), AllocError>
    ensures { OnOk result (out.new.items ≡ out.old.items ++ path_boxes columns stops.now) }
{
    for column in 0..columns {
        put_stop_class(alloc, stops, column, out)?;
    }
    Ok(())
}

// Appends the place of the path that has so many before it.
fn put_place(alloc: Global, before: usize, out: &mut Vec<u8>) -> Result<(), AllocError>
    ensures { OnOk result (out.new.items ≡ out.old.items ++ path_place before) }
{
    let y = 28 + PATH * before as u128;
    let tag = format!(in alloc; "\" transform=\"translate(0,{y})\">")?;
    put_bytes(tag.as_bytes(), out)
}

// Appends what stands before its line.
fn put_opening(
    alloc: Global,
    columns: usize,
    stops: &[usize],
    view: &PathView,
    before: usize,
    out: &mut Vec<u8>,
) -> Result<(), AllocError>
    ensures { OnOk result (out.new.items ≡ out.old.items ++ path_opening columns stops.now view.now before) }
{
    put_start(view, out)?;
    put_boxes(alloc, columns, stops, out)?;
    put_place(alloc, before, out)
}

// Appends a path by the columns of its ends and of its slots.
fn put_between(
    alloc: Global,
    columns: usize,
    names: &Names,
    whys: &[Option<u32>],
    ends: Ends,
    stops: &[usize],
    view: &PathView,
    before: usize,
    out: &mut Vec<u8>,
) -> Result<(), AllocError>
    ensures { OnOk result (out.new.items
        ≡ out.old.items ++ path_between columns names.now whys.now ends stops.now view.now before) }
{
    put_opening(alloc, columns, stops, view, before, out)?;
    put_drawn(alloc, ends, stops, out)?;
    put_labels(alloc, columns, names, whys, ends, view, out)?;
    put_bytes(b"</g>\n", out)
}

// Appends a path that has so many before it.
pub fn put_path(
    alloc: Global,
    columns: &[u32],
    names: &Names,
    world: &World,
    whys: &[Option<u32>],
    view: &PathView,
    before: usize,
    out: &mut Vec<u8>,
) -> Result<(), AllocError>
    ensures { OnOk result (out.new.items
        ≡ out.old.items ++ path_row columns.now names.now world.now whys.now view.now before) }
{
    let ends = ends_of(columns, view);
    let stops = stops_drawn(alloc, columns, world, view.low.slot, ends)?;
    put_between(
        alloc,
        columns.len(),
        names,
        whys,
        ends,
        &stops,
        view,
        before,
        out,
    )
}
