// Why a plan refuses a box or a channel, and a box a program.

ghost use Rattle.std.specs.Prelude.{◌≡◌, alloc_error};
ghost use Rattle.mc_plan.specs.declared.fault.PlanFault.TheVariants.{NoMemory};

use std::alloc::{AllocError, AllocFailed};

/// Why a box, a channel or a tunnel isn't added to a plan: the first of these rules that it breaks. The plan is as it
/// was then.
#[derive(Debug, Drop)]
pub enum PlanFault {
    /// One of the channel's two boxes isn't there.
    NoBox,
    /// There is no channel that could get one more tunnel.
    NoChannel,
    /// The channel would join a box to itself.
    SameBox,
    /// The channel would have no tunnel.
    NoTunnels,
    /// The channel would have more than 8 tunnels.
    TooManyTunnels,
    /// The plan has 262,144 boxes.
    BoxesFull,
    /// The plan has 262,144 channels.
    ChannelsFull,
    /// One of the channel's two boxes would have more than 64 slots.
    SlotsFull,
    /// Memory ran out. It breaks no rule.
    NoMemory(AllocError),
}

impl From<AllocError> for PlanFault {
    ghost from_gives = { λ e fault. fault ≡ NoMemory e };

    fn from(e: AllocError) -> Self {
        PlanFault::NoMemory(e)
    }
}

impl<T: Drop> From<AllocFailed<T>> for PlanFault {
    ghost from_gives = { λ _ fault. fault ≡ NoMemory alloc_error };

    fn from(e: AllocFailed<T>) -> Self {
        PlanFault::NoMemory(AllocError::from(e))
    }
}

/// Why a box of a layout doesn't get a program: the first of these rules that this would break.
#[derive(Clone, Copy, PartialEq, Eq, Debug)]
pub enum ProgramFault {
    /// The box isn't there.
    NoBox,
    /// The box is a device.
    NoFeature,
    /// The box has a program.
    HasProgram,
    /// Some state hasn't one goal for each slot of the box.
    WrongGoals,
    /// Some state links two slots of different media.
    TwoMedia,
}
