// A settle: between two rules, each path, and who hears what on it, or which turn closed it.

ghost use Rattle.std.specs.Prelude.{◌≡◌, ◌++◌, ◌∷◌, [], codes, IfOk, OnOk};
ghost use Rattle.std.specs.Fmt.{decimal};
ghost use Rattle.std.specs.List.{flat_map};
ghost use Rattle.mc_ladder.specs.Settling.{bare_row, end_rows, path_row, path_rows, route_lanes, rule_row, settle_rows, titled_rule};
ghost use Rattle.mc_table.specs.Shown.{end_word, hearing_line, view_line};
ghost use Rattle.mc_table.specs.Whys.{why_line};
ghost use Rattle.mc_table.specs.Words.{flow_word, line_of, medium_word};

use crate::frame::Frame;
use crate::glyph::{Glyph, Style, put_cells};
use crate::lanes::{MARGIN, put_bare, put_rule};
use crate::path::{ends_of, path_columns, put_path};
use crate::place::{codec_word, slot_place};
use mc_script::goal_word;
use mc_signal::Medium;
use mc_table::{put_line, why_at, why_word};
use mc_text::Names;
use mc_view::{EndView, PathView};
use mc_world::World;
use std::alloc::{AllocError, Global};

/// The word for whether a path flows.
pub fn flow_word(flowing: bool) -> &'static [u8]
    ensures { result.now ≡ flow_word flowing }
{
    if flowing { b"flowing" } else { b"closed" }
}

/// The word for a medium.
pub fn medium_word(medium: Medium) -> &'static [u8]
    ensures { result.now ≡ medium_word medium }
{
    match medium {
        Medium::Audio => b"audio",
        Medium::Video => b"video",
    }
}

// The word `box/slot` for an end.
fn end_word(alloc: Global, names: &Names, end: &EndView) -> Result<Vec<u8>, AllocError>
    ensures { IfOk result (λ word. word.items ≡ end_word names.now end.now) }
{
    slot_place(alloc, names, end.who, end.local)
}

// Appends the line of a path.
fn put_path_line(
    alloc: Global,
    names: &Names,
    view: &PathView,
    out: &mut Vec<u8>,
) -> Result<(), AllocError>
    ensures { OnOk result (out.new.items ≡ out.old.items ++ view_line names.now view.now) }
{
    let low = end_word(alloc, names, &view.low)?;
    let high = end_word(alloc, names, &view.high)?;
    let words = [
        low.as_slice(),
        high.as_slice(),
        goal_word(view.low.goal),
        goal_word(view.high.goal),
        flow_word(view.flowing),
        medium_word(view.medium),
    ];
    put_line(b"path", &words, out)
}

// Appends the line of what an end hears.
fn put_hears_line(
    alloc: Global,
    names: &Names,
    end: &EndView,
    out: &mut Vec<u8>,
) -> Result<(), AllocError>
    ensures { OnOk result (out.new.items ≡ out.old.items ++ hearing_line names.now end.now) }
{
    let word = end_word(alloc, names, end)?;
    put_line(
        b"hears",
        &[word.as_slice(), codec_word(names, end.hears)],
        out,
    )
}

// Appends the line that tells why an end's slot is closed.
fn put_why_line(
    alloc: Global,
    names: &Names,
    whys: &[Option<u32>],
    end: &EndView,
    out: &mut Vec<u8>,
) -> Result<(), AllocError>
    ensures { OnOk result (out.new.items ≡ out.old.items ++ why_line names.now whys.now end.now) }
{
    let place = end_word(alloc, names, end)?;
    let turn = why_word(alloc, why_at(whys, end.slot))?;
    put_line(b"why", &[place.as_slice(), turn.as_slice()], out)
}

// Appends a path over the columns.
fn put_route(
    alloc: Global,
    style: Style,
    columns: &[u32],
    world: &World,
    view: &PathView,
    out: &mut Vec<u8>,
) -> Result<(), AllocError>
    ensures { OnOk result (out.new.items ≡ out.old.items ++ route_lanes style columns.now world.now view.now) }
{
    let stops = path_columns(alloc, columns, world, view.low.slot)?;
    put_cells(style, Glyph::Blank, MARGIN, out)?;
    put_path(style, columns.len(), ends_of(columns, view), &stops, out)
}

// Appends the row of a path.
fn put_path_row(
    alloc: Global,
    style: Style,
    columns: &[u32],
    names: &Names,
    world: &World,
    view: &PathView,
    out: &mut Vec<u8>,
) -> Result<(), AllocError>
    ensures { OnOk result (out.new.items ≡ out.old.items ++ path_row style columns.now names.now world.now view.now) }
{
    put_route(alloc, style, columns, world, view, out)?;
    put_path_line(alloc, names, view, out)
}

// Appends a row with what an end hears.
fn put_hears_row(
    alloc: Global,
    frame: &Frame,
    names: &Names,
    end: &EndView,
    out: &mut Vec<u8>,
) -> Result<(), AllocError>
    ensures { OnOk result (out.new.items ≡ out.old.items ++ bare_row frame.now (hearing_line names.now end.now)) }
{
    put_cells(frame.style, Glyph::Blank, MARGIN, out)?;
    put_bare(frame.style, frame.columns.len(), out)?;
    put_hears_line(alloc, names, end, out)
}

// Appends a row with the turn that closed an end.
fn put_why_row(
    alloc: Global,
    frame: &Frame,
    names: &Names,
    whys: &[Option<u32>],
    end: &EndView,
    out: &mut Vec<u8>,
) -> Result<(), AllocError>
    ensures { OnOk result (out.new.items ≡ out.old.items ++ bare_row frame.now (why_line names.now whys.now end.now)) }
{
    put_cells(frame.style, Glyph::Blank, MARGIN, out)?;
    put_bare(frame.style, frame.columns.len(), out)?;
    put_why_line(alloc, names, whys, end, out)
}

// Appends the rows with what is told of both ends of a path.
fn put_end_rows(
    alloc: Global,
    frame: &Frame,
    names: &Names,
    whys: &[Option<u32>],
    view: &PathView,
    out: &mut Vec<u8>,
) -> Result<(), AllocError>
    ensures { OnOk result (out.new.items
        ≡ out.old.items ++ end_rows frame.now names.now view.now.flowing whys.now view.now) }
{
    if view.flowing {
        put_hears_row(alloc, frame, names, &view.low, out)?;
        put_hears_row(alloc, frame, names, &view.high, out)
    } else {
        put_why_row(alloc, frame, names, whys, &view.low, out)?;
        put_why_row(alloc, frame, names, whys, &view.high, out)
    }
}

// Appends the rows of a path.
fn put_path_rows(
    alloc: Global,
    frame: &Frame,
    names: &Names,
    world: &World,
    whys: &[Option<u32>],
    view: &PathView,
    out: &mut Vec<u8>,
) -> Result<(), AllocError>
    ensures { OnOk result (out.new.items
        ≡ out.old.items ++ path_rows frame.now names.now world.now whys.now view.now) }
{
    put_path_row(alloc, frame.style, &frame.columns, names, world, view, out)?;
    put_end_rows(alloc, frame, names, whys, view, out)
}

// Appends the rows of paths, in their order.
fn put_all_rows(
    alloc: Global,
    frame: &Frame,
    names: &Names,
    world: &World,
    whys: &[Option<u32>],
    views: &[PathView],
    out: &mut Vec<u8>,
) -> Result<(), AllocError>
    ensures { OnOk result (out.new.items
        ≡ out.old.items ++ flat_map (path_rows frame.now names.now world.now whys.now) views.now) }
{
    for view in views {
        put_path_rows(alloc, frame, names, world, whys, view, out)?;
    }
    Ok(())
}

// Appends a rule with the number of its settle.
fn put_title(alloc: Global, frame: &Frame, number: u32, out: &mut Vec<u8>) -> Result<(), AllocError>
    ensures { OnOk result (out.new.items ≡ out.old.items ++ titled_rule frame.now number) }
{
    let word = format!(in alloc; "{number}")?;
    put_rule(frame.style, frame.columns.len(), out)?;
    out.push(b' ')?;
    put_line(b"settle", &[word.as_bytes()], out)
}

// Appends a rule alone.
fn put_end(frame: &Frame, out: &mut Vec<u8>) -> Result<(), AllocError>
    ensures { OnOk result (out.new.items ≡ out.old.items ++ rule_row frame.now) }
{
    put_rule(frame.style, frame.columns.len(), out)?;
    out.push(b'\n')?;
    Ok(())
}

// Appends a settle: these paths between two rules.
pub fn put_settle(
    alloc: Global,
    frame: &Frame,
    names: &Names,
    world: &World,
    whys: &[Option<u32>],
    views: &[PathView],
    number: u32,
    out: &mut Vec<u8>,
) -> Result<(), AllocError>
    ensures { OnOk result (out.new.items
        ≡ out.old.items ++ settle_rows frame.now names.now world.now whys.now views.now number) }
{
    put_title(alloc, frame, number, out)?;
    put_all_rows(alloc, frame, names, world, whys, views, out)?;
    put_end(frame, out)
}
