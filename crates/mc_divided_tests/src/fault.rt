// What stops a test.

use mc_plan::PlanFault;
use mc_world::StepFault;
use std::alloc::AllocError;

/// Why a network isn't laid out or stepped.
#[derive(Debug, Drop)]
pub enum TestFault {
    /// The network breaks a rule.
    Plan(PlanFault),
    /// An event can't happen.
    Step(StepFault),
    NoMemory(AllocError),
}

impl From<PlanFault> for TestFault {
    fn from(e: PlanFault) -> Self {
        TestFault::Plan(e)
    }
}

impl From<StepFault> for TestFault {
    fn from(e: StepFault) -> Self {
        TestFault::Step(e)
    }
}

impl From<AllocError> for TestFault {
    fn from(e: AllocError) -> Self {
        TestFault::NoMemory(e)
    }
}
