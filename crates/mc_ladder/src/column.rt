// The columns of a ladder: a box for each.

ghost use Rattle.std.specs.Prelude.{◌≡◌, ◌++◌, ◌==◌, if◌then◌else◌, [], ◌∷◌, filter, position, IfOk, OnOk};
ghost use Rattle.mc_ladder.specs.Columns.{channel_boxes, column_of, columns_among, columns_of, drawn_columns, is_among, with_all_new, with_each_box};

use mc_ladder_choice::{Choice, Survey, add_new, is_among};
use mc_text::Names;
use mc_world::World;
use std::alloc::{AllocError, Global};

// The boxes that channels join, in the order in which these name them first.
fn joined_boxes(alloc: Global, world: &World) -> Result<Vec<u32>, AllocError>
    ensures { IfOk result (λ columns. columns.items ≡ with_all_new [] (channel_boxes world.now)) }
{
    world.keeps();
    let mut columns = Vec::new(alloc);
    for slot in 0..world.slot_count() {
        add_new(world.place(slot as u32).0, &mut columns)?;
    }
    Ok(columns)
}

// Each box that has no column yet gets one, in the order of the boxes.
fn add_others(names: &Names, columns: &mut Vec<u32>) -> Result<(), AllocError>
    ensures { OnOk result (columns.new.items ≡ with_each_box names.now columns.old.items) }
{
    for who in 0..names.box_count() {
        add_new(who as u32, columns)?;
    }
    Ok(())
}

/// The boxes in the order of their columns: that in which channels name them first, and then those without a channel.
pub fn columns_of(alloc: Global, names: &Names, world: &World) -> Result<Vec<u32>, AllocError>
    ensures { IfOk result (λ columns. columns.items ≡ columns_of names.now world.now) }
{
    let mut columns = joined_boxes(alloc, world)?;
    add_others(names, &mut columns)?;
    Ok(columns)
}

// Appends a column whose box is among these.
fn add_found(boxes: &[u32], who: u32, columns: &mut Vec<u32>) -> Result<(), AllocError>
    ensures { OnOk result (columns.new.items
        ≡ columns.old.items ++ (if is_among boxes.now who then who ∷ [] else [])) }
{
    if is_among(boxes, who) {
        columns.push(who)?;
    }
    Ok(())
}

// The columns whose boxes are among these.
fn columns_found(alloc: Global, boxes: &[u32], columns: &[u32]) -> Result<Vec<u32>, AllocError>
    ensures { IfOk result (λ kept. kept.items ≡ filter (λ who. is_among boxes.now who) columns.now) }
{
    let mut kept = Vec::new(alloc);
    for who in columns {
        add_found(boxes, *who, &mut kept)?;
    }
    Ok(kept)
}

/// The boxes that are drawn, in the order of their columns: all, or, where boxes are asked for, these and those that take
/// part in what is drawn with them.
pub fn drawn_columns(
    alloc: Global,
    choice: &Choice,
    found: &Survey,
    names: &Names,
    world: &World,
) -> Result<Vec<u32>, AllocError>
    ensures { IfOk result (λ columns. columns.items
        ≡ drawn_columns choice.now found.now names.now world.now) }
{
    let columns = columns_of(alloc, names, world)?;
    if choice.is_of_all_boxes() {
        return Ok(columns);
    }
    columns_found(alloc, &found.boxes, &columns)
}

// The place of a box among the columns.
fn place_among(columns: &[u32], who: u32) -> Option<usize>
    ensures { result ≡ position (λ other. other == who) columns.now }
{
    columns.iter().position(|other| *other == who)
}

/// The column of a box; the first where it has none.
pub fn column_of(columns: &[u32], who: u32) -> usize
    ensures { result ≡ column_of columns.now who }
{
    place_among(columns, who).unwrap_or(0)
}
