// How a part's run ends.

use mc_world::{PutFault, StepFault};
use std::alloc::AllocError;

/// How a part's run ends where nothing stops it. All its commands are made then, and no box of it can shift that
/// hasn't made all its Shifts of the settle.
#[derive(Clone, Copy, PartialEq, Eq, Debug)]
pub enum Ended {
    /// Nothing waits at any of its boxes.
    Rest,
    /// It has looked at its rings as often as it may.
    Late,
}

/// What stops a part. Boxes have their numbers in the part.
#[derive(Debug, Drop)]
pub enum PartStop {
    NoMemory(AllocError),
    /// Its log has as many turns as it may.
    Spent,
    /// The next command is a Hear of this box and slot, whose descriptor has the last version.
    VersionEnd(u32, u8),
    /// The next command, of this box, can't happen.
    Unable(u32),
    /// At this box and slot a signal waits that the slot must not take.
    Strange(u32, u8),
    /// The ring of this port has an item first that is for no slot of the channel, or has a stamp above the limit.
    Stray(usize),
}

impl From<AllocError> for PartStop {
    ghost use Rattle.std.specs.Prelude.{◌≡◌};
    ghost use Rattle.mc_part.specs.declared.stop.PartStop.TheVariants.{NoMemory};

    ghost from_gives = { λ e stop. stop ≡ NoMemory e };

    fn from(e: AllocError) -> Self {
        PartStop::NoMemory(e)
    }
}
