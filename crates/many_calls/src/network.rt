// Calls side by side, each of two phones with two features between them.

ghost use Rattle.std.specs.Prelude.{◌≤◌, ◌-◌, ◌^◌};
ghost use Rattle.many_calls.specs.declared.network.TheConstants.{BOXES_A_CALL};

use crate::fault::CallsFault;
use mc_box::Kind;
use mc_plan::{BoxPlan, Plan};
use mc_signal::{CodecList, Medium};
use mc_world::World;
use std::alloc::Global;

/// How many boxes a call has: its caller, two features and its callee, in the order of their numbers.
pub const BOXES_A_CALL: u32 = 4;

// A device that receives and sends the one codec 0.
fn device() -> BoxPlan {
    let mut codecs = CodecList::none();
    let _ = codecs.add(0);
    BoxPlan {
        kind: Kind::Device,
        codecs,
        sends: codecs,
        first_version: 1,
    }
}

// A feature.
fn feature() -> BoxPlan {
    BoxPlan {
        kind: Kind::Feature,
        codecs: CodecList::none(),
        sends: CodecList::none(),
        first_version: 1,
    }
}

// Adds the boxes of a call, and its three channels.
fn add_call(plan: &mut Plan, first: u32) -> Result<(), CallsFault>
    requires { first ≤ 2 ^ 32 - 1 - BOXES_A_CALL }
{
    plan.add(device())?;
    plan.add(feature())?;
    plan.add(feature())?;
    plan.add(device())?;
    plan.join(first, first + 1, &[Medium::Audio])?;
    plan.join(first + 1, first + 2, &[Medium::Audio])?;
    plan.join(first + 2, first + 3, &[Medium::Audio])?;
    Ok(())
}

/// The world of so many calls.
pub fn network(alloc: Global, calls: u32) -> Result<World, CallsFault> {
    let mut plan = Plan::new(alloc);
    for call in 0..calls {
        let first = call.checked_mul(BOXES_A_CALL).ok_or(CallsFault::TooMany)?;
        if first > u32::MAX - BOXES_A_CALL {
            return Err(CallsFault::TooMany);
        }
        add_call(&mut plan, first)?;
    }
    Ok(plan.world()?)
}
