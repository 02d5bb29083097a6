// What can happen to a box.

use mc_signal::Medium;
use mc_slot::Goal;
use std::marker::Model;

/// What a box is: a device, whose slots are the ends of calls, or a feature between devices.
#[derive(Clone, Copy, PartialEq, Eq, Debug)]
pub enum Kind {
    Device,
    Feature,
}

/// A new goal of a box's slots, by their local numbers.
#[derive(Clone, Copy, PartialEq, Eq, Debug)]
pub enum Change {
    /// The slot becomes an end with this goal.
    End(u8, Goal),
    /// The two slots are linked.
    Link(u8, u8),
}

/// Whether a device's slot hears, or talks, from now on.
#[derive(Clone, Copy, PartialEq, Eq, Debug)]
pub enum MediaChange {
    Hear(u8, bool),
    Talk(u8, bool),
}

/// One event of one box. Slots are given by their local numbers.
#[derive(Clone, Copy, PartialEq, Eq, Debug)]
pub enum Event {
    /// The slot takes the signal at the front of its lane.
    Take(u8),
    /// Goals change.
    Set(Change),
    /// A media flag is set.
    Media(MediaChange),
    /// The box's program is told this word, by its number.
    Tell(u8),
    /// The slot asks again for media that it was refused.
    Retry(u8),
    /// The box's program goes to its next state.
    Shift,
}

/// An event, and the number of the box that it happens to.
#[derive(Clone, Copy, PartialEq, Eq, Debug)]
pub struct Turn {
    pub who: u32,
    pub event: Event,
}

/// What commands need to know of a box: its kind, the media of its slots, and whether it has a program.
#[derive(Debug, Drop)]
pub struct BoxShape {
    pub kind: Kind,
    pub media: Vec<Medium>,
    pub programmed: bool,
}

impl Model for BoxShape {
    ghost use Rattle.mc_box.specs.BoxShapes.{BoxShapeState};

    ghost Value = { BoxShapeState };

    ghost view = { λ s. record { kind = s.kind; media = s.media.items; programmed = s.programmed } };
}

/// The shapes of all boxes, in the order of their numbers.
#[derive(Debug, Drop)]
pub struct Shape {
    pub boxes: Vec<BoxShape>,
}

impl Model for Shape {
    ghost use Rattle.std.specs.Prelude.{List};
    ghost use Rattle.mc_box.specs.BoxShapes.{BoxShapeState};

    ghost Value = { List BoxShapeState };

    ghost view = { λ s. s.boxes.items };
}
