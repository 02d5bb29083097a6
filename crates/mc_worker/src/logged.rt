// What a log keeps of a turn.

use mc_box::Event;

/// An event that a box has made, and the stamp of its turn.
#[derive(Clone, Copy, PartialEq, Eq, Debug)]
pub struct Logged {
    pub stamp: u32,
    pub event: Event,
}
