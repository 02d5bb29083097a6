// A network as it is laid out, and the numbers that its slots have then.

use crate::fault::TestFault;
use crate::networks::{add, device, feature, join};
use mc_plan::Plan;
use mc_signal::Medium;
use mc_world::World;
use std::process::Abort;

// The last channel gets a tunnel more, and there is one with two tunnels.
fn widen(plan: &mut Plan, feature: u32, callee: u32) -> Result<(), TestFault> {
    plan.widen(Medium::Video)?;
    plan.join(feature, callee, &[Medium::Audio, Medium::Video])?;
    Ok(())
}

// Two devices with a feature between them, whose number is the answer.
fn lay_out(plan: &mut Plan) -> Result<u32, TestFault> {
    let caller = add(plan, device())?;
    let callee = add(plan, device())?;
    let between = add(plan, feature())?;
    join(plan, caller, between)?;
    widen(plan, between, callee)?;
    Ok(between)
}

// The feature has slots 0 and 1 to the caller, and 2 and 3 to the callee.
const PLACES: [(u32, u8); 8] = [
    (0, 0),
    (2, 0),
    (0, 1),
    (2, 1),
    (2, 2),
    (1, 0),
    (2, 3),
    (1, 1),
];

fn has_places(rt: &impl Abort, world: &World) {
    assert!(rt; world.slot_count() == 8);
    for slot in 0..8 {
        assert!(rt; world.place(slot) == PLACES[slot as usize], "at {slot}");
    }
}

#[test]
fn a_feature_stands_between_two_devices(rt: HostRuntime) -> Result<(), TestFault> {
    let mut plan = Plan::new(rt.alloc());
    let feature = lay_out(&mut plan)?;
    assert!(rt; plan.slots(feature) == 4);
    let world = plan.world()?;
    has_places(&rt, &world);
    Ok(())
}
