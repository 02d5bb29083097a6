// What the tests do with a network, of which nothing is said then.

use crate::fault::TestFault;
use mc_box::{Change, Event, Kind};
use mc_grow::Grown;
use mc_path::paths;
use mc_plan::{BoxPlan, Plan};
use mc_signal::{CodecList, Medium};
use mc_slot::Goal;
use mc_view::PathView;
use mc_world::World;
use std::alloc::Global;

// A device that receives and sends the one codec 0.
fn device() -> BoxPlan {
    let mut codecs = CodecList::none();
    let _ = codecs.add(0);
    BoxPlan {
        kind: Kind::Device,
        codecs,
        sends: codecs,
        first_version: 1,
    }
}

fn add_devices(plan: &mut Plan, count: u32) -> Result<(), TestFault> {
    for _device in 0..count {
        plan.add(device())?;
    }
    Ok(())
}

/// So many devices, with no channel between them.
pub fn devices(alloc: Global, count: u32) -> Result<World, TestFault> {
    let mut plan = Plan::new(alloc);
    add_devices(&mut plan, count)?;
    Ok(plan.world()?)
}

/// A network of this world, of which nothing is out.
pub fn network(alloc: Global, world: World) -> Result<Grown, TestFault> {
    Ok(Grown::new(alloc, world)?)
}

/// An audio channel joins two boxes.
pub fn join(alloc: Global, grown: Grown, from: u32, to: u32) -> Result<Grown, TestFault> {
    if !grown.may_join(from, to) {
        return Err(TestFault::Refused);
    }
    Ok(grown.join(alloc, Medium::Audio, from, to)?)
}

/// A channel is cut.
pub fn cut(grown: &mut Grown, channel: u32) -> Result<(), TestFault> {
    if !grown.may_cut(channel) {
        return Err(TestFault::Refused);
    }
    Ok(grown.cut(channel)?)
}

/// An event happens.
pub fn step(grown: &mut Grown, who: u32, event: Event) -> Result<(), TestFault> {
    if grown.sets_out(who, &event) {
        return Err(TestFault::Refused);
    }
    Ok(grown.step(who, event)?)
}

/// A slot of a box becomes an end with this goal.
pub fn set(grown: &mut Grown, who: u32, local: u8, goal: Goal) -> Result<(), TestFault> {
    step(grown, who, Event::Set(Change::End(local, goal)))
}

/// How many slots a network has.
pub fn slots(grown: &Grown) -> u32 {
    u32::try_from(grown.world().slot_count()).unwrap_or(u32::MAX)
}

// Each slot takes what it can take now.
fn take_once(grown: &mut Grown) -> Result<(), TestFault> {
    for slot in 0..slots(grown) {
        let (who, local) = place(grown.world(), slot);
        if grown.world().waits(who, local) {
            step(grown, who, Event::Take(local))?;
        }
    }
    Ok(())
}

// The box and local number of a slot; none of a box where there is no such slot.
fn place(world: &World, slot: u32) -> (u32, u8) {
    if (slot as usize) < world.slot_count() {
        world.place(slot)
    } else {
        (u32::MAX, 0)
    }
}

/// All that is under way is taken, in at most so many rounds.
pub fn take_all(grown: &mut Grown, rounds: u32) -> Result<(), TestFault> {
    for _round in 0..rounds {
        take_once(grown)?;
    }
    Ok(())
}

/// The world is taken out of a network and put back.
pub fn reopened(grown: Grown) -> Grown {
    let (world, out) = grown.open_up();
    Grown::put_back(world, out)
}

/// The paths of a network.
pub fn shown(alloc: Global, grown: &Grown) -> Result<Vec<PathView>, TestFault> {
    Ok(grown.present(paths(alloc, grown.world())?))
}
