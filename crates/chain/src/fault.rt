// Why calls over a chain aren't made.

use mc_plan::PlanFault;
use mc_world::StepFault;
use std::alloc::AllocError;
use std::io;

/// What stops the program.
#[derive(Debug, Drop)]
pub enum ChainFault {
    /// The chain is longer than a network may be.
    Plan(PlanFault),
    /// An event can't happen.
    Step(StepFault),
    NoMemory(AllocError),
    /// Signals are still under way after all the sweeps that a call may take.
    Unsettled,
    /// A line can't be written.
    Write(io::Error),
}

impl From<PlanFault> for ChainFault {
    fn from(e: PlanFault) -> Self {
        ChainFault::Plan(e)
    }
}

impl From<StepFault> for ChainFault {
    fn from(e: StepFault) -> Self {
        ChainFault::Step(e)
    }
}

impl From<AllocError> for ChainFault {
    fn from(e: AllocError) -> Self {
        ChainFault::NoMemory(e)
    }
}

impl From<io::Error> for ChainFault {
    fn from(e: io::Error) -> Self {
        ChainFault::Write(e)
    }
}
