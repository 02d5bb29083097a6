// What a box that runs freely keeps beside its worker.

ghost use Rattle.mc_live.specs.Courses.{HasBegun};

use mc_box::Event;
use mc_desk::Request;
use mc_lane::Lane;
use mc_worker::Stop;
use std::alloc::{AllocError, Global};

/// Whether a box makes further rounds, or why it makes none.
#[derive(Debug, Drop)]
pub enum Pace {
    /// It makes rounds.
    Runs,
    /// It has made as many turns as a box makes.
    Finished,
    /// A round has ended for another reason than that nothing was left, or that it had made its turns.
    Stopped(Stop),
    /// It was asked for an event that it can't make.
    Unfit,
    /// Memory was wanting.
    Refused(AllocError),
}

/// How far a box has come that runs freely.
#[derive(Drop)]
pub struct Course {
    /// What it was asked, in order.
    pub taken: Vec<Request>,
    /// What it was asked from the first event on that it can't make.
    pub kept: Lane<Event>,
    /// How many turns it has made.
    pub turns: u32,
    /// How many operators have ended.
    pub ended: u64,
    pub pace: Pace,
}

impl Course {
    /// The beginning: nothing was asked, and no turn was made.
    pub fn new(alloc: Global) -> Course
        ensures { HasBegun result }
    {
        Course {
            taken: Vec::new(alloc),
            kept: Lane::new(alloc),
            turns: 0,
            ended: 0,
            pace: Pace::Runs,
        }
    }
}
