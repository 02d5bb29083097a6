// A settle: each path, between two rules.

ghost use Rattle.std.specs.Prelude.{◌≡◌, ◌++◌, length, OnOk};
ghost use Rattle.mc_ladder_svg.specs.Settles.{block, block_tag, opening_by, paths_drawn, settle_block, settle_end, settle_opening};

use crate::element::{put_bytes, put_uprights};
use crate::measure::{FOOT, settle_height, width_of};
use crate::path::put_path;
use crate::row::Row;
use mc_text::Names;
use mc_view::PathView;
use mc_world::World;
use std::alloc::{AllocError, Global};

// Appends the beginning of a settle, with its number.
fn put_block_tag(alloc: Global, row: Row, out: &mut Vec<u8>) -> Result<(), AllocError>
    ensures { OnOk result (out.new.items ≡ out.old.items ++ block_tag row) }
{
    let Row { number, y, .. } = row;
    let tag = format!(in alloc;
        "<g id=\"settle-{number}\" class=\"se\" transform=\"translate(0,{y})\"><title>settle {number}</title>"
    )?;
    put_bytes(tag.as_bytes(), out)
}

// Appends the ground of a settle, and the rules above and below it.
fn put_block(alloc: Global, width: u128, bottom: u128, out: &mut Vec<u8>) -> Result<(), AllocError>
    ensures { OnOk result (out.new.items ≡ out.old.items ++ block width bottom) }
{
    let drawn = format!(in alloc;
        "<path class=\"u\" d=\"M0 6H{width}V{bottom}H0z\"/><path class=\"v\" d=\"M0 6H{width}M0 {bottom}H{width}\"/>"
    )?;
    put_bytes(drawn.as_bytes(), out)
}

// Appends what stands before the first path of a settle of this size.
fn put_opening_by(
    alloc: Global,
    columns: usize,
    width: u128,
    bottom: u128,
    row: Row,
    out: &mut Vec<u8>,
) -> Result<(), AllocError>
    ensures { OnOk result (out.new.items ≡ out.old.items ++ opening_by columns width bottom row) }
{
    put_block_tag(alloc, row, out)?;
    put_block(alloc, width, bottom, out)?;
    put_uprights(alloc, columns, 6, bottom, out)?;
    put_bytes(b"\n", out)
}

// Appends what stands before the first of these paths.
fn put_opening(
    alloc: Global,
    columns: &[u32],
    views: &[PathView],
    row: Row,
    out: &mut Vec<u8>,
) -> Result<(), AllocError>
    ensures { OnOk result (out.new.items ≡ out.old.items ++ settle_opening (length columns.now) (length views.now) row) }
{
    let bottom = settle_height(views.len()) - FOOT;
    put_opening_by(
        alloc,
        columns.len(),
        width_of(columns.len()),
        bottom,
        row,
        out,
    )
}

// Appends the paths, in their order.
fn put_paths(
    alloc: Global,
    columns: &[u32],
    names: &Names,
    world: &World,
    whys: &[Option<u32>],
    views: &[PathView],
    out: &mut Vec<u8>,
) -> Result<(), AllocError>
    ensures { OnOk result (out.new.items
        ≡ out.old.items ++ paths_drawn columns.now names.now world.now whys.now 0 views.now) }
{
    for (before, view) in views.iter().enumerate() {
        put_path(alloc, columns, names, world, whys, view, before, out)?;
    }
    Ok(())
}

// Appends what stands after the last path.
fn put_end(alloc: Global, row: Row, out: &mut Vec<u8>) -> Result<(), AllocError>
    ensures { OnOk result (out.new.items ≡ out.old.items ++ settle_end row) }
{
    let Row { number, y, .. } = row;
    let tag = format!(in alloc;
        "</g>\n<g transform=\"translate(0,{y})\"><text class=\"h\" x=\"6\" y=\"22\">settle {number}</text></g>\n"
    )?;
    put_bytes(tag.as_bytes(), out)
}

// Appends a settle with these paths.
pub fn put_settle(
    alloc: Global,
    columns: &[u32],
    names: &Names,
    world: &World,
    whys: &[Option<u32>],
    views: &[PathView],
    row: Row,
    out: &mut Vec<u8>,
) -> Result<(), AllocError>
    ensures { OnOk result (out.new.items
        ≡ out.old.items ++ settle_block columns.now names.now world.now whys.now views.now row) }
{
    put_opening(alloc, columns, views, row, out)?;
    put_paths(alloc, columns, names, world, whys, views, out)?;
    put_end(alloc, row, out)
}
