// The lanes of a path: from its one end to its other, over each box that it goes through.

ghost use Rattle.std.specs.Prelude.{◌≡◌, ◌++◌, map, IfOk, OnOk};
ghost use Rattle.mc_ladder.specs.Columns.{column_of};
ghost use Rattle.mc_ladder.specs.Routes.{ends_of, goes_over, is_between, is_stop, path_cell, path_column, path_columns, path_gap, path_glyph, path_lanes, stops_after, stops_before};

use crate::column::column_of;
use crate::glyph::{Glyph, Style, put_cell, put_cells};
use crate::lanes::GAP;
use mc_ladder_choice::path_boxes;
use mc_view::PathView;
use mc_world::World;
use std::alloc::{AllocError, Global};

/// The columns of a path's two ends, and whether it flows.
#[derive(Clone, Copy)]
pub struct Ends {
    pub low: usize,
    pub high: usize,
    pub flowing: bool,
}

impl Ends {
    // What a path is drawn with between the lines of boxes.
    fn cell(self) -> Glyph
        ensures { result ≡ path_cell self }
    {
        if self.flowing {
            Glyph::Double
        } else {
            Glyph::Dot
        }
    }

    // What stands on the line of a column, of a path that stops at these columns.
    fn glyph(self, stops: &[usize], column: usize) -> Glyph
        ensures { result ≡ path_glyph self stops.now column }
    {
        if column == self.low || column == self.high {
            Glyph::End
        } else if is_stop(stops, column) {
            Glyph::Through
        } else if self.flowing && is_between(stops, column) {
            Glyph::DoubleCrossing
        } else {
            Glyph::Line
        }
    }
}

/// The columns of the ends of a path.
pub fn ends_of(columns: &[u32], view: &PathView) -> Ends
    ensures { result ≡ ends_of columns.now view.now }
{
    Ends {
        low: column_of(columns, view.low.who),
        high: column_of(columns, view.high.who),
        flowing: view.flowing,
    }
}

/// Whether a path stops at a column.
pub fn is_stop(stops: &[usize], column: usize) -> bool
    ensures { result ≡ is_stop stops.now column }
{
    stops.iter().any(|stop| *stop == column)
}

// Whether a path stops before a column.
fn stops_before(stops: &[usize], column: usize) -> bool
    ensures { result ≡ stops_before stops.now column }
{
    stops.iter().any(|stop| *stop < column)
}

// Whether it stops after one.
fn stops_after(stops: &[usize], column: usize) -> bool
    ensures { result ≡ stops_after stops.now column }
{
    stops.iter().any(|stop| column < *stop)
}

// Whether a path goes over the line of a column without a stop there, or with one.
fn is_between(stops: &[usize], column: usize) -> bool
    ensures { result ≡ is_between stops.now column }
{
    stops_before(stops, column) && stops_after(stops, column)
}

// Whether a path goes over the gap to the right of a column.
fn goes_over(stops: &[usize], column: usize) -> bool
    ensures { result ≡ goes_over stops.now column }
{
    (stops_before(stops, column) || is_stop(stops, column)) && stops_after(stops, column)
}

// ---- the columns

/// The columns at which a path stops, by its lower end.
pub fn path_columns(
    alloc: Global,
    columns: &[u32],
    world: &World,
    low: u32,
) -> Result<Vec<usize>, AllocError>
    ensures { IfOk result (λ stops. stops.items ≡ path_columns columns.now world.now low) }
{
    let boxes = path_boxes(alloc, world, low)?;
    stops_of(alloc, columns, &boxes)
}

// The columns of these boxes.
fn stops_of(alloc: Global, columns: &[u32], boxes: &[u32]) -> Result<Vec<usize>, AllocError>
    ensures { IfOk result (λ stops. stops.items ≡ map (column_of columns.now) boxes.now) }
{
    let mut stops = Vec::new(alloc);
    for who in boxes {
        stops.push(column_of(columns, *who))?;
    }
    Ok(stops)
}

// ---- the lanes

// Appends the gap to the right of a column.
fn put_gap(
    style: Style,
    ends: Ends,
    stops: &[usize],
    column: usize,
    out: &mut Vec<u8>,
) -> Result<(), AllocError>
    ensures { OnOk result (out.new.items ≡ out.old.items ++ path_gap style ends stops.now column) }
{
    if goes_over(stops, column) {
        put_cells(style, ends.cell(), GAP, out)
    } else {
        put_cells(style, Glyph::Blank, GAP, out)
    }
}

// Appends a column: the line of its box, and the gap to its right.
fn put_column(
    style: Style,
    ends: Ends,
    stops: &[usize],
    column: usize,
    out: &mut Vec<u8>,
) -> Result<(), AllocError>
    ensures { OnOk result (out.new.items ≡ out.old.items ++ path_column style ends stops.now column) }
{
    put_cell(style, ends.glyph(stops, column), out)?;
    put_gap(style, ends, stops, column, out)
}

// Appends the lanes of a path over so many columns.
pub fn put_path(
    style: Style,
    columns: usize,
    ends: Ends,
    stops: &[usize],
    out: &mut Vec<u8>,
) -> Result<(), AllocError>
    ensures { OnOk result (out.new.items ≡ out.old.items ++ path_lanes style columns ends stops.now) }
{
    for column in 0..columns {
        put_column(style, ends, stops, column, out)?;
    }
    Ok(())
}
