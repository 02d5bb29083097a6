// Why journals aren't merged.

ghost use Rattle.std.specs.Prelude.{◌≡◌};
ghost use Rattle.mc_shard_merge.specs.declared.fault.MergeFault.TheVariants.{NoMemory};

use crate::naming::Unnamed;
use std::alloc::AllocError;

/// Why journals aren't merged.
#[derive(Debug, Drop)]
pub enum MergeFault {
    /// The box of this entry has no number in the world.
    Unnamed(Unnamed),
    /// Memory ran out.
    NoMemory(AllocError),
}

impl From<AllocError> for MergeFault {
    ghost from_gives = { λ e fault. fault ≡ NoMemory e };

    fn from(e: AllocError) -> Self {
        MergeFault::NoMemory(e)
    }
}
