// What a part writes down of its turns.

ghost use Rattle.std.specs.Prelude.{◌<◌, ◌^◌};

use mc_box::{Event, Turn};
use mc_lane::Lane;

/// An event that a box of a part has made, by the box's number in the part, and the stamp of its turn.
#[derive(Clone, Copy, PartialEq, Eq, Debug)]
pub struct Made {
    pub stamp: u32,
    pub who: u32,
    pub event: Event,
}

/// A part's turns, oldest first, the number that each of its boxes has in the world, and the time at which its clock
/// begins: an entry was made so much later as its stamp is. Parts that are joined by a channel have one clock.
///
/// The turns of all entries may be written down, by the world's numbers; else there are none.
#[derive(Drop)]
pub struct PartLog {
    pub made: Lane<Made>,
    pub turns: Vec<Turn>,
    pub numbers: Vec<u32>,
    pub clock: u64,
    pub ghost early: { clock < 2 ^ 63 },
}
