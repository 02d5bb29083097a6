// What is found of the lines that are drawn, before anything is.

ghost use Rattle.std.specs.Prelude.{◌≡◌, ◌-◌, ◌+◌, ◌<◌, ◌^◌, ◌&&◌, if◌then◌else◌, [], length, IfOk, OnOk};
ghost use Rattle.std.specs.List.{flat_map};
ghost use Rattle.mc_cause.specs.CauseLaws.{NoneCloses};
ghost use Rattle.mc_ladder_choice.specs.Boxes.{path_boxes, with_all_new};
ghost use Rattle.mc_ladder_choice.specs.Choices.{is_chosen, is_of_all_boxes};
ghost use Rattle.mc_ladder_choice.specs.Surveys.{drawn_boxes, is_turn, line_boxes, survey_of};

use crate::boxes::{add_all_new, path_boxes, turn_boxes};
use crate::choice::Choice;
use crate::closings::{mark_taken, unmarked};
use crate::count::Count;
use crate::making::pass;
use mc_cause::Whys;
use mc_script::JournalLine;
use mc_view::PathView;
use mc_world::World;
use std::alloc::{AllocError, Global};
use std::marker::Model;

/// How many turns of a journal are drawn, and how many it has; the boxes that are asked for, and after them those that take
/// part in what is drawn with them; and of each turn, by its number from 1, whether a closed path that is drawn names it.
#[derive(Drop)]
pub struct Survey {
    pub drawn: u32,
    pub turns: u32,
    pub boxes: Vec<u32>,
    pub closings: Vec<bool>,
}

impl Model for Survey {
    ghost use Rattle.mc_ladder_choice.specs.Surveys.{SurveyState};

    ghost Value = { SurveyState };

    ghost view = { λ s. record {
      drawn = s.drawn;
      turns = s.turns;
      boxes = s.boxes.items;
      closings = s.closings.items;
    } };
}

// Whether a line is a turn.
fn is_turn(line: &JournalLine) -> bool
    ensures { result ≡ is_turn line.now }
{
    matches!(line, JournalLine::Turn(_))
}

// How many turns are drawn for a line: one or none.
fn drawn_by(takes: bool, line: &JournalLine) -> u32
    ensures { result ≡ (if takes && is_turn line.now then 1 else 0) }
{
    if takes && is_turn(line) { 1 } else { 0 }
}

// Adds the boxes of these paths.
fn add_path_boxes(
    alloc: Global,
    world: &World,
    views: &[PathView],
    boxes: &mut Vec<u32>,
) -> Result<(), AllocError>
    ensures { OnOk result (boxes.new.items
        ≡ with_all_new boxes.old.items (flat_map (λ view. path_boxes world.now view.low.slot) views.now)) }
{
    for view in views {
        add_boxes_of(alloc, world, view, boxes)?;
    }
    Ok(())
}

// Adds the boxes of a path.
fn add_boxes_of(
    alloc: Global,
    world: &World,
    view: &PathView,
    boxes: &mut Vec<u32>,
) -> Result<(), AllocError>
    ensures { OnOk result (boxes.new.items ≡ with_all_new boxes.old.items (path_boxes world.now view.now.low.slot)) }
{
    let more = path_boxes(alloc, world, view.low.slot)?;
    add_all_new(&more, boxes)
}

// Adds the boxes that take part in what is drawn for a line.
fn add_line_boxes(
    alloc: Global,
    choice: &Choice,
    world: &World,
    line: &JournalLine,
    boxes: &mut Vec<u32>,
) -> Result<(), AllocError>
    ensures { OnOk result (boxes.new.items
        ≡ with_all_new boxes.old.items (line_boxes choice.now world.now line.now)) }
{
    match line {
        JournalLine::Turn(turn) => {
            let more = turn_boxes(alloc, world, *turn)?;
            add_all_new(&more, boxes)
        }
        JournalLine::Settled => {
            let views = choice.shown_paths(alloc, world)?;
            add_path_boxes(alloc, world, &views, boxes)
        }
    }
}

// The same, where boxes are asked for.
fn add_drawn_boxes(
    alloc: Global,
    choice: &Choice,
    world: &World,
    line: &JournalLine,
    boxes: &mut Vec<u32>,
) -> Result<(), AllocError>
    ensures { OnOk result (boxes.new.items
        ≡ with_all_new boxes.old.items (drawn_boxes choice.now world.now line.now)) }
{
    if choice.is_of_all_boxes() {
        return Ok(());
    }
    add_line_boxes(alloc, choice, world, line, boxes)
}

// The same, if the line is drawn.
fn add_taken_boxes(
    alloc: Global,
    takes: bool,
    choice: &Choice,
    world: &World,
    line: &JournalLine,
    boxes: &mut Vec<u32>,
) -> Result<(), AllocError>
    ensures { OnOk result (boxes.new.items ≡ with_all_new boxes.old.items
        (if takes then drawn_boxes choice.now world.now line.now else [])) }
{
    if takes {
        add_drawn_boxes(alloc, choice, world, line, boxes)
    } else {
        Ok(())
    }
}

/// Looks through a journal, from the first world of a network on, for what is drawn of it. No slot of the world waits for a
/// closeack, as in each first world.
pub fn look_through(
    alloc: Global,
    choice: &Choice,
    world: &mut World,
    journal: &[JournalLine],
) -> Result<Survey, AllocError>
    requires few { length journal.now < 2 ^ 32 - 1 }
    requires none { NoneCloses world.old }
    ensures { IfOk result (λ found. found ≡ survey_of choice.now world.old journal.now) }
{
    let mut count = Count::new();
    let mut drawn = 0;
    let mut boxes = Vec::from_slice(alloc, &choice.boxes)?;
    let mut closings = unmarked(alloc, journal.len() + 1)?;
    let mut whys = Whys::new(alloc, world)?;
    for line in journal {
        let takes = choice.takes(alloc, world, count, line)?;
        drawn += drawn_by(takes, line);
        add_taken_boxes(alloc, takes, choice, world, line, &mut boxes)?;
        mark_taken(alloc, takes, choice, world, &whys, line, &mut closings)?;
        pass(world, &mut whys, line)?;
        count = count.after(line);
    }
    Ok(Survey {
        drawn,
        turns: count.turns,
        boxes,
        closings,
    })
}
