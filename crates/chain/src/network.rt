// A chain of features between two devices.

use crate::fault::ChainFault;
use mc_box::{Change, Event, Kind};
use mc_plan::{BoxPlan, Plan};
use mc_signal::{CodecList, Medium};
use mc_world::{StepFault, World};
use std::alloc::Global;

/// The number of the box that calls.
pub const CALLER: u32 = 0;

/// The number of the box that is called. Features have the numbers after it.
pub const CALLEE: u32 = 1;

// How many features a network has room for.
const MOST_FEATURES: u32 = 254;

// A device that receives and sends the one codec 0.
fn device() -> BoxPlan {
    let mut codecs = CodecList::none();
    let _ = codecs.add(0);
    BoxPlan {
        kind: Kind::Device,
        codecs,
        sends: codecs,
        first_version: 1,
    }
}

// A feature.
fn feature() -> BoxPlan {
    BoxPlan {
        kind: Kind::Feature,
        codecs: CodecList::none(),
        sends: CodecList::none(),
        first_version: 1,
    }
}

// The box to which so many tunnels lead from the caller. Where there are more tunnels than features, the chain goes
// through each feature several times.
fn box_after(count: u32, tunnels: u32) -> u32 {
    if count == 0 {
        CALLER
    } else if count >= tunnels {
        CALLEE
    } else {
        2 + (count - 1) % MOST_FEATURES
    }
}

/// The world of a caller and a callee, and of so many audio tunnels in a row from the one to the other. Features stand
/// between them, whose slots aren't linked yet. It is refused past 8,129 tunnels, where a feature would have more than
/// 64 slots.
pub fn chain(alloc: Global, tunnels: u32) -> Result<World, ChainFault> {
    let mut plan = Plan::new(alloc);
    plan.add(device())?;
    plan.add(device())?;
    for _feature in 1..tunnels.min(MOST_FEATURES + 1) {
        plan.add(feature())?;
    }
    for count in 0..tunnels {
        plan.join(
            box_after(count, tunnels),
            box_after(count + 1, tunnels),
            &[Medium::Audio],
        )?;
    }
    Ok(plan.world()?)
}

/// Links the two slots of each feature's visit: tunnel `t` has the slots `2t` and `2t + 1`, so the chain comes to a
/// feature by slot `2t - 1` and goes on by slot `2t`.
pub fn link_through(world: &mut World) -> Result<(), StepFault> {
    world.keeps();
    for tunnel in 1..world.slot_count() / 2 {
        link_at(world, 2 * tunnel as u32)?;
    }
    Ok(())
}

// Links a slot of a feature with the one before it.
fn link_at(world: &mut World, slot: u32) -> Result<(), StepFault> {
    if slot == 0 || world.slot_count() <= slot as usize {
        return Err(StepFault::NotEnabled);
    }
    let (who, from) = world.place(slot - 1);
    let (_, on) = world.place(slot);
    world.step(who, Event::Set(Change::Link(from, on)))
}
