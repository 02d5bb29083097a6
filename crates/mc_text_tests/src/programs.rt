use crate::equal::{is_count, is_equal, is_within};
use crate::look::look_at_made;
use crate::net::net_of;
use mc_box::Event;
use mc_net::{Net, NetFault, Tail};
use mc_slot::{Goal, SlotGoal};
use mc_world::World;
use std::process::Abort;

// A feature that waits, links its two slots when the first is closed, and lets go of them when it is told so.
const PROGRAM: &[u8] =
    b"media 1\ndev alice\nfeat f\ndev bob\nchan audio alice a f w\nchan audio f e bob a\nprog f wait talk\nstate wait\ngoal w hold\ngoal e close\nwhen told never talk\nwhen is w closed talk\nstate talk\nlink w e\nwhen told stop wait\nbegin\n";

// The two slots of the feature have these goals.
fn has_goals(rt: &impl Abort, world: &World, first: SlotGoal, second: SlotGoal) {
    let boxes = world.boxes();
    is_count(rt, boxes.len(), 3);
    let feature = &boxes[1];
    is_count(rt, feature.slots().len(), 2);
    is_equal(rt, &(feature.goal(0), feature.goal(1)), &(first, second));
}

// The feature's program goes on.
fn shift(rt: &impl Abort, world: &mut World) {
    is_equal(rt, &world.step(1, Event::Shift).is_ok(), &true);
}

fn has_program(rt: &impl Abort, world: &World, who: usize) -> bool {
    let boxes = world.boxes();
    is_within(rt, who, boxes.len());
    boxes[who].has_program()
}

// There are three boxes, of which the feature alone has a program.
fn has_one_program(rt: &impl Abort, world: &World) {
    is_equal(rt, &world.boxes().len(), &3);
    for (who, want) in [false, true, false].iter().enumerate() {
        is_equal(rt, &has_program(rt, world, who), want);
    }
}

// The first of these Shifts begins the program, and the second links the slots.
fn goes_on<R: Abort>(rt: &R, net: &mut Net) {
    let world = &mut net.world;
    has_one_program(rt, world);
    shift(rt, world);
    has_goals(
        rt,
        world,
        SlotGoal::End(Goal::Hold),
        SlotGoal::End(Goal::Close),
    );
    shift(rt, world);
    has_goals(rt, world, SlotGoal::Link(1), SlotGoal::Link(0));
}

#[test]
fn a_declared_program_runs(rt: HostRuntime) -> Result<(), NetFault> {
    let net = net_of(rt.alloc(), PROGRAM, Tail::Nothing);
    look_at_made(&rt, net, goes_on)
}
