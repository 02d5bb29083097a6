// Two phones that are laid out by hand, and their live settles.

use crate::fault::TestFault;
use mc_box::{Kind, Turn};
use mc_desk::limit::{OPERATOR_LIMIT, REQUEST_LIMIT};
use mc_flight::limit::SEAT_LIMIT;
use mc_io::OpenGate;
use mc_live_settle::settle_live;
use mc_plan::{BoxPlan, Plan};
use mc_seq::{SettleFault, fits};
use mc_signal::{CodecList, Medium};
use mc_world::{Settled, World};
use std::alloc::Global;
use std::process::Abort;
use std::sync::Wait;
use std::thread::Threads;

// A device that receives and sends the one codec 0, whose versions begin here.
fn device(first_version: u32) -> BoxPlan {
    let mut codecs = CodecList::none();
    let _ = codecs.add(0);
    BoxPlan {
        kind: Kind::Device,
        codecs,
        sends: codecs,
        first_version,
    }
}

fn lay_two_phones(plan: &mut Plan, media: &[Medium], first_version: u32) -> Result<(), TestFault> {
    plan.add(device(1))?;
    plan.add(device(first_version))?;
    plan.join(0, 1, media)?;
    Ok(())
}

/// Two phones with one channel between them, which has a tunnel for each of these media. The versions of the second one
/// begin here.
pub fn two_phones(alloc: Global, media: &[Medium], first_version: u32) -> Result<World, TestFault> {
    let mut plan = Plan::new(alloc);
    lay_two_phones(&mut plan, media, first_version)?;
    Ok(plan.world()?)
}

/// A batch is settled live, for which so many operators ask.
pub fn settled<R: Threads + Wait + Sync + Abort>(
    rt: &R,
    alloc: Global,
    operators: u32,
    world: World,
    batch: &[Turn],
) -> Result<Settled, SettleFault> {
    assert!(rt; 0 < operators);
    assert!(rt; operators <= OPERATOR_LIMIT);
    assert!(rt; fits(&world, batch));
    assert!(rt; world.boxes().len() <= SEAT_LIMIT as usize);
    assert!(rt; batch.len() < REQUEST_LIMIT as usize);
    settle_live(rt, alloc, &OpenGate, operators, world, batch)
}
