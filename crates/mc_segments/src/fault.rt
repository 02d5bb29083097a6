// Why turns aren't followed.

ghost use Rattle.std.specs.Prelude.{◌≡◌};
ghost use Rattle.mc_segments.specs.declared.fault.SegmentsFault.TheVariants.{NoMemory};

use std::alloc::AllocError;

/// Why turns aren't followed to their end.
#[derive(Debug, Drop)]
pub enum SegmentsFault {
    /// The turn at this place, from 0 on, can't happen after those before it, which can.
    NotEnabled(usize),
    /// Memory ran out.
    NoMemory(AllocError),
}

impl From<AllocError> for SegmentsFault {
    ghost from_gives = { λ e fault. fault ≡ NoMemory e };

    fn from(e: AllocError) -> Self {
        SegmentsFault::NoMemory(e)
    }
}
