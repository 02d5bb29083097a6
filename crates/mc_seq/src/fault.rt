// Why a settle stops.

ghost use Rattle.std.specs.Prelude.{◌≡◌};
ghost use Rattle.mc_seq.specs.declared.fault.SettleFault.TheVariants.{NoMemory};

use mc_box::Turn;
use std::alloc::AllocError;

/// The slot at which a settle stopped, with its box and its local number there, and the turns until then.
#[derive(Debug, Drop)]
pub struct Stopped {
    pub at: u32,
    pub place: (u32, u8),
    pub turns: Vec<Turn>,
}

/// The box at which a settle stopped, and the turns until then.
#[derive(Debug, Drop)]
pub struct StoppedBox {
    pub at: u32,
    pub turns: Vec<Turn>,
}

/// Why a batch isn't settled.
#[derive(Debug, Drop)]
pub enum SettleFault {
    /// The next command of a box is a Hear of a slot whose descriptor has the last version.
    VersionEnd(Stopped),
    /// The batch is used up, and this is the least slot on a ring then; a Shift may have made the ring, too.
    Ring(Stopped),
    /// The batch is used up and nothing is under way, but programs don't come to rest: this is the least box that has
    /// made all its Shifts of this settle and has one more enabled.
    Restless(StoppedBox),
    NoMemory(AllocError),
}

impl From<AllocError> for SettleFault {
    ghost from_gives = { λ e fault. fault ≡ NoMemory e };

    fn from(e: AllocError) -> Self {
        SettleFault::NoMemory(e)
    }
}
