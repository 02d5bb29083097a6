// The networks of the tests.

use crate::fault::TestFault;
use mc_box::{Change, Event, Kind};
use mc_plan::{BoxPlan, Plan};
use mc_signal::{CodecList, Medium};
use mc_world::World;
use std::alloc::Global;

/// A device that receives and sends the one codec 0.
pub fn device() -> BoxPlan {
    let mut codecs = CodecList::none();
    let _ = codecs.add(0);
    BoxPlan {
        kind: Kind::Device,
        codecs,
        sends: codecs,
        first_version: 1,
    }
}

/// A feature.
pub fn feature() -> BoxPlan {
    BoxPlan {
        kind: Kind::Feature,
        codecs: CodecList::none(),
        sends: CodecList::none(),
        first_version: 1,
    }
}

/// Adds a box to a plan, of which nothing is said then.
pub fn add(plan: &mut Plan, planned: BoxPlan) -> Result<u32, TestFault> {
    Ok(plan.add(planned)?)
}

/// Joins two boxes of a plan by an audio channel, of which nothing is said then.
pub fn join(plan: &mut Plan, from: u32, to: u32) -> Result<(), TestFault> {
    plan.join(from, to, &[Medium::Audio])?;
    Ok(())
}

/// An event happens in a world, of which nothing is said then.
pub fn step(world: &mut World, who: u32, event: Event) -> Result<(), TestFault> {
    Ok(world.step(who, event)?)
}

fn lay_two_features(plan: &mut Plan) -> Result<(), TestFault> {
    add(plan, feature())?;
    add(plan, feature())?;
    join(plan, 0, 1)?;
    join(plan, 0, 1)
}

/// Two features that are joined by two channels.
pub fn two_features(alloc: Global) -> Result<World, TestFault> {
    let mut plan = Plan::new(alloc);
    lay_two_features(&mut plan)?;
    Ok(plan.world()?)
}

fn lay_row(plan: &mut Plan, tunnels: u32) -> Result<(), TestFault> {
    add(plan, device())?;
    for _feature in 1..tunnels {
        add(plan, feature())?;
    }
    add(plan, device())?;
    for tunnel in 0..tunnels {
        join(plan, tunnel, tunnel.saturating_add(1))?;
    }
    Ok(())
}

/// A row of boxes with so many audio channels between them, a device at each end and features between these, whose
/// slots aren't linked yet. Tunnel `t` leads from box `t` to box `t + 1`.
pub fn row(alloc: Global, tunnels: u32) -> Result<World, TestFault> {
    let mut plan = Plan::new(alloc);
    lay_row(&mut plan, tunnels)?;
    Ok(plan.world()?)
}

/// Links the two slots of each feature of a row.
pub fn link_through(world: &mut World, tunnels: u32) -> Result<(), TestFault> {
    for feature in 1..tunnels {
        step(world, feature, Event::Set(Change::Link(0, 1)))?;
    }
    Ok(())
}
