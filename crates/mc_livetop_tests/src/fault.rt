// What stops a test.

use mc_plan::PlanFault;
use std::alloc::AllocError;

/// Why a network isn't laid out, or not settled.
#[derive(Debug, Drop)]
pub enum TestFault {
    /// The network breaks a rule.
    Plan(PlanFault),
    /// The settle ended in another way than it should.
    Ended,
    NoMemory(AllocError),
}

impl From<PlanFault> for TestFault {
    fn from(e: PlanFault) -> Self {
        TestFault::Plan(e)
    }
}

impl From<AllocError> for TestFault {
    fn from(e: AllocError) -> Self {
        TestFault::NoMemory(e)
    }
}
