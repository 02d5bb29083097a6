// The line that sums a settle up.
ghost use Rattle.std.specs.Prelude.{◌≡◌, ◌≤◌, IfOk, cond, is_some};
ghost use Rattle.mc_table.specs.Summaries.{closed_views, flowing_views, heard_ends, hearing_ends, print_summary};

use mc_view::{EndView, PathView};
use std::alloc::{AllocError, Global};

/// One line for a settle: its number, how many of the paths that are shown flow, how many are closed, and how many
/// ends hear a codec.
pub fn print_summary(alloc: Global, number: u32, views: &[PathView]) -> Result<Vec<u8>, AllocError>
    ensures { IfOk result (λ text. text.items ≡ print_summary number views.now) }
{
    let flowing = flowing_views(views);
    let closed = closed_views(views);
    let heard = hearing_ends(views);
    let line = format!(in alloc;
        "settle {number} flowing {flowing} closed {closed} heard {heard}\n"
    )?;
    Ok(line.into_bytes())
}

fn flowing_views(views: &[PathView]) -> usize
    ensures { result ≡ flowing_views views.now }
{
    views.iter().filter(|view| view.flowing).count()
}

fn closed_views(views: &[PathView]) -> usize
    ensures { result ≡ closed_views views.now }
{
    views.iter().filter(|view| !view.flowing).count()
}

// How many ends hear a codec.
fn hearing_ends(views: &[PathView]) -> u64
    ensures { result ≡ hearing_ends views.now }
{
    let mut count = 0;
    for view in views {
        count += heard_ends(view);
    }
    count
}

// How many of a path's two ends do.
fn heard_ends(view: &PathView) -> u64
    ensures count { result ≡ heard_ends view.now.flowing view.now.low.hears view.now.high.hears }
    ensures few { result ≤ 2 }
{
    if view.flowing {
        hears_codec(&view.low) + hears_codec(&view.high)
    } else {
        0
    }
}

// 1 where an end hears a codec, and else 0.
fn hears_codec(end: &EndView) -> u64
    ensures count { result ≡ cond (is_some end.now.hears) 1 0 }
    ensures few { result ≤ 1 }
{
    if end.hears.is_some() { 1 } else { 0 }
}
