// Why paths closed.
ghost use Rattle.std.specs.Prelude.{◌≡◌, ◌++◌, ◌∷◌, [], All, IfOk, None, OnOk, codes, slice_index_or};
ghost use Rattle.std.specs.List.{flat_map};
ghost use Rattle.mc_table.specs.Shown.{IsNamedEnd, IsNamedView, end_word};
ghost use Rattle.mc_table.specs.Whys.{print_whys, why_line, why_lines, why_word};

use crate::line::put_line;
use mc_text::Names;
use mc_view::{EndView, PathView};
use std::alloc::{AllocError, Global};

/// The word for a turn, or that there was none.
pub fn why_word(alloc: Global, why: Option<u32>) -> Result<Vec<u8>, AllocError>
    ensures { IfOk result (λ word. word.items ≡ why_word why) }
{
    let word = match why {
        Some(turn) => format!(in alloc; "{turn}")?,
        None => format!(in alloc; "never")?,
    };
    Ok(word.into_bytes())
}

// Appends why an end's slot is closed.
fn put_why(
    alloc: Global,
    names: &Names,
    end: &EndView,
    whys: &[Option<u32>],
    out: &mut Vec<u8>,
) -> Result<(), AllocError>
    requires { IsNamedEnd names.now end.now }
    ensures { OnOk result (out.new.items ≡ out.old.items ++ why_line names.now whys.now end.now) }
{
    let mut place = Vec::new(alloc);
    names.print_slot(end.who, end.local, &mut place)?;
    let why = why_word(alloc, why_at(whys, end.slot))?;
    put_line(b"why", &[place.as_slice(), why.as_slice()], out)
}

/// Why a slot is closed, by its number.
pub fn why_at(whys: &[Option<u32>], slot: u32) -> Option<u32>
    ensures { result ≡ slice_index_or whys.now slot None }
{
    match whys.get(slot as usize) {
        Some(why) => *why,
        None => None,
    }
}

// Appends why both ends of a path are closed, where it doesn't flow.
fn put_both(
    alloc: Global,
    names: &Names,
    view: &PathView,
    whys: &[Option<u32>],
    out: &mut Vec<u8>,
) -> Result<(), AllocError>
    requires { IsNamedView names.now view.now }
    ensures { OnOk result (out.new.items ≡ out.old.items ++ why_lines view.now.flowing names.now whys.now view.now) }
{
    if view.flowing {
        return Ok(());
    }
    put_why(alloc, names, &view.low, whys, out)?;
    put_why(alloc, names, &view.high, whys, out)
}

/// The lines that tell of each closed path why its two ends are closed, by the list that has, of each slot by its
/// number, the turn from which its last close came. Boxes and slots have names.
pub fn print_whys(
    alloc: Global,
    names: &Names,
    views: &[PathView],
    whys: &[Option<u32>],
) -> Result<Vec<u8>, AllocError>
    requires { All (IsNamedView names.now) views.now }
    ensures { IfOk result (λ text. text.items ≡ print_whys names.now views.now whys.now) }
{
    let mut text = Vec::new(alloc);
    for view in views {
        put_both(alloc, names, view, whys, &mut text)?;
    }
    Ok(text)
}
