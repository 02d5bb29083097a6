// Which turns closed paths name.

ghost use Rattle.std.specs.Prelude.{◌≡◌, [], false, if◌then◌else◌, IfOk, OnOk};
ghost use Rattle.std.specs.List.{cons_option, flat_map};
ghost use Rattle.mc_ladder_choice.specs.Closings.{AddsMarks, line_closings, marks_of, path_closings, view_closings};

use crate::choice::Choice;
use mc_cause::Whys;
use mc_script::JournalLine;
use mc_table::why_at;
use mc_view::PathView;
use mc_world::World;
use std::alloc::{AllocError, Global};

// No marks, of so many numbers.
pub fn unmarked(alloc: Global, count: usize) -> Result<Vec<bool>, AllocError>
    ensures { IfOk result (λ marks. marks.items ≡ marks_of count []) }
{
    let mut marks = Vec::new(alloc);
    for _done in 0..count {
        marks.push(false)?;
    }
    Ok(marks)
}

// Marks a turn by its number, if there is one.
fn mark(turn: Option<u32>, marks: &mut Vec<bool>)
    ensures { AddsMarks (cons_option turn []) marks.old.items marks.new.items }
{
    if let Some(turn) = turn {
        if (turn as usize) < marks.len() {
            marks[turn as usize] = true;
        }
    }
}

// Marks the turns that the ends of a closed path name.
fn mark_ends(whys: &[Option<u32>], view: &PathView, marks: &mut Vec<bool>)
    ensures { AddsMarks (path_closings whys.now false view.now) marks.old.items marks.new.items }
{
    mark(why_at(whys, view.low.slot), marks);
    mark(why_at(whys, view.high.slot), marks);
}

// Marks the turns that a path names.
fn mark_path(whys: &[Option<u32>], view: &PathView, marks: &mut Vec<bool>)
    ensures { AddsMarks (view_closings whys.now view.now) marks.old.items marks.new.items }
{
    if !view.flowing {
        mark_ends(whys, view, marks);
    }
}

// Marks those that these paths name.
fn mark_paths(whys: &[Option<u32>], views: &[PathView], marks: &mut Vec<bool>)
    ensures { AddsMarks (flat_map (view_closings whys.now) views.now) marks.old.items marks.new.items }
{
    for view in views {
        mark_path(whys, view, marks);
    }
}

// Marks those that the paths name that are drawn for a line.
fn mark_line(
    alloc: Global,
    choice: &Choice,
    world: &World,
    whys: &Whys,
    line: &JournalLine,
    marks: &mut Vec<bool>,
) -> Result<(), AllocError>
    ensures { OnOk result (AddsMarks (line_closings choice.now world.now whys.now.whys line.now) marks.old.items marks.new.items) }
{
    match line {
        JournalLine::Turn(_) => Ok(()),
        JournalLine::Settled => {
            let views = choice.shown_paths(alloc, world)?;
            let all = whys.all(alloc)?;
            mark_paths(&all, &views, marks);
            Ok(())
        }
    }
}

// The same, if the line is drawn.
pub fn mark_taken(
    alloc: Global,
    takes: bool,
    choice: &Choice,
    world: &World,
    whys: &Whys,
    line: &JournalLine,
    marks: &mut Vec<bool>,
) -> Result<(), AllocError>
    ensures { OnOk result (AddsMarks
        (if takes then line_closings choice.now world.now whys.now.whys line.now else []) marks.old.items marks.new.items) }
{
    if takes {
        mark_line(alloc, choice, world, whys, line, marks)
    } else {
        Ok(())
    }
}
