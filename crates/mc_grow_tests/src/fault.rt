// What stops a test.

use mc_grow::InUse;
use mc_plan::PlanFault;
use mc_world::StepFault;
use std::alloc::AllocError;

/// Why a network isn't laid out, changed or stepped.
#[derive(Debug, Drop)]
pub enum TestFault {
    /// The network breaks a rule.
    Plan(PlanFault),
    /// An event can't happen.
    Step(StepFault),
    /// A channel is in use.
    Cut(InUse),
    /// A join, a cut or a Set may not be.
    Refused,
    NoMemory(AllocError),
}

impl From<PlanFault> for TestFault {
    fn from(e: PlanFault) -> Self {
        TestFault::Plan(e)
    }
}

impl From<StepFault> for TestFault {
    fn from(e: StepFault) -> Self {
        TestFault::Step(e)
    }
}

impl From<InUse> for TestFault {
    fn from(e: InUse) -> Self {
        TestFault::Cut(e)
    }
}

impl From<AllocError> for TestFault {
    fn from(e: AllocError) -> Self {
        TestFault::NoMemory(e)
    }
}
