// Why calls aren't made.

use mc_plan::PlanFault;
use mc_seq::SettleFault;
use std::alloc::AllocError;

/// What stops the program.
#[derive(Debug, Drop)]
pub enum CallsFault {
    /// There are more calls than a network may have.
    TooMany,
    /// A channel can't be laid.
    Plan(PlanFault),
    /// A settle stopped.
    Settle(SettleFault),
    NoMemory(AllocError),
}

impl From<PlanFault> for CallsFault {
    fn from(e: PlanFault) -> Self {
        CallsFault::Plan(e)
    }
}

impl From<SettleFault> for CallsFault {
    fn from(e: SettleFault) -> Self {
        CallsFault::Settle(e)
    }
}

impl From<AllocError> for CallsFault {
    fn from(e: AllocError) -> Self {
        CallsFault::NoMemory(e)
    }
}
