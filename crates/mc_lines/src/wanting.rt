//! Want of memory, for which a plan refuses what breaks none of its rules.

ghost use Rattle.std.specs.Prelude.{◌≡◌};
ghost use Rattle.mc_plan.specs.Refusals.{IsRefusal};
ghost use Rattle.mc_plan.specs.declared.fault.PlanFault.TheVariants as plan;

use mc_plan::PlanFault;
use std::alloc::AllocError;

/// Want of memory, where a plan refuses what breaks no rule.
pub fn plan_wanting(fault: PlanFault) -> AllocError
    requires { IsRefusal fault None }
    ensures { fault ≡ plan.NoMemory result }
{
    match fault {
        PlanFault::NoMemory(e) => e,
        PlanFault::NoBox
        | PlanFault::NoChannel
        | PlanFault::SameBox
        | PlanFault::NoTunnels
        | PlanFault::TooManyTunnels
        | PlanFault::BoxesFull
        | PlanFault::ChannelsFull
        | PlanFault::SlotsFull => unreachable!(),
    }
}
