// What of a journal is drawn.

ghost use Rattle.std.specs.Prelude.{◌≡◌, ◌+◌, ◌<◌, ◌^◌, ◌++◌, if◌then◌else◌, [], ◌∷◌, filter, IfOk, OnOk};
ghost use Rattle.std.specs.List.{list_any};
ghost use Rattle.mc_ladder_choice.specs.Boxes.{is_among};
ghost use Rattle.mc_ladder_choice.specs.Choices.{concerns, is_of_all_boxes, is_whole, is_within, shown_paths, takes, takes_line, takes_path};

use crate::boxes::{is_among, path_boxes, turn_boxes};
use crate::count::Count;
use mc_path::paths;
use mc_script::JournalLine;
use mc_view::PathView;
use mc_world::World;
use std::alloc::{AllocError, Global};
use std::marker::Model;

/// Settles of a journal, by their numbers from 1: from one to another, both of them included.
#[derive(Clone, Copy)]
pub struct Span {
    pub first: u32,
    pub last: u32,
}

/// What of a journal is drawn: the turns and paths of all settles, or of some; and of all boxes where none are named, or
/// else those in which one of these takes part.
#[derive(Drop)]
pub struct Choice {
    pub settles: Option<Span>,
    pub boxes: Vec<u32>,
}

impl Model for Choice {
    ghost use Rattle.mc_ladder_choice.specs.Choices.{ChoiceState};

    ghost Value = { ChoiceState };

    ghost view = { λ c. record { settles = c.settles; boxes = c.boxes.items } };
}

impl Choice {
    // Whether no box is asked for.
    pub fn is_of_all_boxes(&self) -> bool
        ensures { result ≡ is_of_all_boxes self.now }
    {
        self.boxes.is_empty()
    }

    /// Whether all of a journal is drawn, whichever it is.
    pub fn is_whole(&self) -> bool
        ensures { result ≡ is_whole self.now }
    {
        self.settles.is_none() && self.is_of_all_boxes()
    }

    // Whether one of these boxes is asked for.
    fn concerns(&self, boxes: &[u32]) -> bool
        ensures { result ≡ concerns self.now boxes.now }
    {
        self.is_of_all_boxes() || is_any_among(&self.boxes, boxes)
    }

    // Whether a line of a settle that is drawn is.
    fn takes_line(
        &self,
        alloc: Global,
        world: &World,
        line: &JournalLine,
    ) -> Result<bool, AllocError>
        ensures { IfOk result (λ takes. takes ≡ takes_line self.now world.now line.now) }
    {
        match line {
            JournalLine::Turn(turn) => {
                let boxes = turn_boxes(alloc, world, *turn)?;
                Ok(self.concerns(&boxes))
            }
            JournalLine::Settled => Ok(true),
        }
    }

    /// Whether a line is drawn.
    pub fn takes(
        &self,
        alloc: Global,
        world: &World,
        count: Count,
        line: &JournalLine,
    ) -> Result<bool, AllocError>
        requires { count.settles + 1 < 2 ^ 32 }
        ensures { IfOk result (λ drawn. drawn ≡ takes self.now world.now count line.now) }
    {
        if !is_within(self.settles, count.settles + 1) {
            return Ok(false);
        }
        self.takes_line(alloc, world, line)
    }

    // Whether a path is drawn.
    fn takes_path(&self, alloc: Global, world: &World, view: &PathView) -> Result<bool, AllocError>
        ensures { IfOk result (λ takes. takes ≡ takes_path self.now world.now view.now) }
    {
        let boxes = path_boxes(alloc, world, view.low.slot)?;
        Ok(self.concerns(&boxes))
    }

    // Appends a path that is drawn.
    fn add_shown(
        &self,
        alloc: Global,
        world: &World,
        view: &PathView,
        shown: &mut Vec<PathView>,
    ) -> Result<(), AllocError>
        ensures { OnOk result (shown.new.items ≡ shown.old.items
            ++ (if takes_path self.now world.now view.now then view.now ∷ [] else [])) }
    {
        if self.takes_path(alloc, world, view)? {
            shown.push(*view)?;
        }
        Ok(())
    }

    // Those of these paths that are drawn.
    fn shown_among(
        &self,
        alloc: Global,
        world: &World,
        views: &[PathView],
    ) -> Result<Vec<PathView>, AllocError>
        ensures { IfOk result (λ shown. shown.items ≡ filter (takes_path self.now world.now) views.now) }
    {
        let mut shown = Vec::new(alloc);
        for view in views {
            self.add_shown(alloc, world, view, &mut shown)?;
        }
        Ok(shown)
    }

    /// The paths of a world that are drawn at a settle.
    pub fn shown_paths(&self, alloc: Global, world: &World) -> Result<Vec<PathView>, AllocError>
        ensures { IfOk result (λ shown. shown.items ≡ shown_paths self.now world.now) }
    {
        let views = paths(alloc, world)?;
        if self.is_of_all_boxes() {
            return Ok(views);
        }
        self.shown_among(alloc, world, &views)
    }
}

// Whether one of these boxes is asked for.
fn is_any_among(wanted: &[u32], boxes: &[u32]) -> bool
    ensures { result ≡ list_any (λ who. is_among wanted.now who) boxes.now }
{
    boxes.iter().any(|who| is_among(wanted, *who))
}

// Whether a settle of this number is among these.
fn is_within(settles: Option<Span>, number: u32) -> bool
    ensures { result ≡ is_within settles number }
{
    match settles {
        Some(span) => span.first <= number && number <= span.last,
        None => true,
    }
}
