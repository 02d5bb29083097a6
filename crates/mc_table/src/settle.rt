// The lines of a settle.
ghost use Rattle.std.specs.Prelude.{◌≡◌, ◌++◌, ◌∷◌, [], All, IfOk, OnOk, codes};
ghost use Rattle.std.specs.Fmt.{decimal};
ghost use Rattle.std.specs.List.{flat_map};
ghost use Rattle.mc_table.specs.Shown.{end_word, hearing_line, hearing_lines, print_settle, view_line, view_text};
ghost use Rattle.mc_table.specs.Shown.{IsNamedEnd, IsNamedView};
ghost use Rattle.mc_table.specs.Words.{line_of};

use crate::line::put_line;
use crate::words::{codec_word, goals_words, state_words};
use mc_text::Names;
use mc_view::{EndView, PathView};
use std::alloc::{AllocError, Global};

// The bytes for which room is asked for each path. A path's lines take some 40 to 70 where names are short.
const LINE_ROOM: usize = 64;

// Appends the word `box/slot` for an end.
fn put_end(names: &Names, end: &EndView, out: &mut Vec<u8>) -> Result<(), AllocError>
    requires { IsNamedEnd names.now end.now }
    ensures { OnOk result (out.new.items ≡ out.old.items ++ end_word names.now end.now) }
{
    out.extend_from_slice(names.box_name(end.who))?;
    out.push(b'/')?;
    out.extend_from_slice(names.slot_name(end.who, end.local))
}

// Appends what an end hears.
fn put_hears(names: &Names, end: &EndView, out: &mut Vec<u8>) -> Result<(), AllocError>
    requires { IsNamedEnd names.now end.now }
    ensures { OnOk result (out.new.items ≡ out.old.items ++ hearing_line names.now end.now) }
{
    out.extend_from_slice(b"hears ")?;
    put_end(names, end, out)?;
    out.push(b' ')?;
    out.extend_from_slice(codec_word(names, end.hears))?;
    out.push(b'\n')?;
    Ok(())
}

// Appends the line of a path: its two ends, their goals, its state and its medium.
fn put_path(names: &Names, view: &PathView, out: &mut Vec<u8>) -> Result<(), AllocError>
    requires { IsNamedView names.now view.now }
    ensures { OnOk result (out.new.items ≡ out.old.items ++ view_line names.now view.now) }
{
    out.extend_from_slice(b"path ")?;
    put_end(names, &view.low, out)?;
    out.push(b' ')?;
    put_end(names, &view.high, out)?;
    out.extend_from_slice(goals_words(view.low.goal, view.high.goal))?;
    out.extend_from_slice(state_words(view.flowing, view.medium))?;
    Ok(())
}

// Appends who hears what on a path, where it flows.
fn put_hearing(names: &Names, view: &PathView, out: &mut Vec<u8>) -> Result<(), AllocError>
    requires { IsNamedView names.now view.now }
    ensures { OnOk result (out.new.items ≡ out.old.items ++ hearing_lines view.now.flowing names.now view.now) }
{
    if !view.flowing {
        return Ok(());
    }
    put_hears(names, &view.low, out)?;
    put_hears(names, &view.high, out)
}

// Appends the lines of a path, and where it flows who hears what.
fn put_view(names: &Names, view: &PathView, out: &mut Vec<u8>) -> Result<(), AllocError>
    requires { IsNamedView names.now view.now }
    ensures { OnOk result (out.new.items ≡ out.old.items ++ view_text names.now view.now) }
{
    put_path(names, view, out)?;
    put_hearing(names, view, out)
}

// Appends the lines of paths, in their order.
fn put_views(names: &Names, views: &[PathView], out: &mut Vec<u8>) -> Result<(), AllocError>
    requires { All (IsNamedView names.now) views.now }
    ensures { OnOk result (out.new.items ≡ out.old.items ++ flat_map (view_text names.now) views.now) }
{
    for view in views {
        put_view(names, view, out)?;
    }
    Ok(())
}

// Appends the line of a settle's number.
fn put_number(alloc: Global, number: u32, out: &mut Vec<u8>) -> Result<(), AllocError>
    ensures { OnOk result (out.new.items ≡ out.old.items ++ line_of (codes "settle" ∷ decimal number ∷ [])) }
{
    let word = format!(in alloc; "{number}")?;
    put_line(b"settle", &[word.as_bytes()], out)
}

/// Appends the lines of a settle: its number, and then each path that is shown, in their order. Boxes, slots and heard
/// codecs have names. Room is asked once for a line of each path.
pub fn put_settle(
    alloc: Global,
    names: &Names,
    number: u32,
    views: &[PathView],
    out: &mut Vec<u8>,
) -> Result<(), AllocError>
    requires { All (IsNamedView names.now) views.now }
    ensures { OnOk result (out.new.items ≡ out.old.items ++ print_settle names.now number views.now) }
{
    out.reserve(views.len().saturating_mul(LINE_ROOM))?;
    put_number(alloc, number, out)?;
    put_views(names, views, out)
}

/// The lines of a settle, as a text of their own.
pub fn print_settle(
    alloc: Global,
    names: &Names,
    number: u32,
    views: &[PathView],
) -> Result<Vec<u8>, AllocError>
    requires { All (IsNamedView names.now) views.now }
    ensures { IfOk result (λ text. text.items ≡ print_settle names.now number views.now) }
{
    let mut text = Vec::new(alloc);
    put_settle(alloc, names, number, views, &mut text)?;
    Ok(text)
}
