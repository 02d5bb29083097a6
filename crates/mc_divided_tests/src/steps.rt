// Networks stepped by lists of turns, and what their paths are then.

use crate::equal::is_equal;
use crate::fault::TestFault;
use crate::networks::{link_through, row, step, two_features};
use mc_box::{Change, Event};
use mc_path::paths;
use mc_slot::Goal;
use mc_view::EndView;
use mc_world::World;
use std::process::Abort;

const ALICE: u32 = 0;

const FEATURE: u32 = 1;

const BOB: u32 = 2;

// The turns of a call through a feature: alice opens and bob holds, then bob closes, alice tries again, and is refused.
pub const TURNS: [(u32, Event); 23] = [
    (FEATURE, Event::Set(Change::Link(0, 1))),
    (ALICE, Event::Set(Change::End(0, Goal::Open))),
    (BOB, Event::Set(Change::End(0, Goal::Hold))),
    (FEATURE, Event::Take(0)),
    (BOB, Event::Take(0)),
    (FEATURE, Event::Take(1)),
    (ALICE, Event::Take(0)),
    (FEATURE, Event::Take(1)),
    (FEATURE, Event::Take(0)),
    (ALICE, Event::Take(0)),
    (BOB, Event::Take(0)),
    // it flows
    (BOB, Event::Set(Change::End(0, Goal::Close))),
    (FEATURE, Event::Take(1)),
    (BOB, Event::Take(0)),
    (ALICE, Event::Take(0)),
    (FEATURE, Event::Take(0)),
    // it is closed, and alice owes a retry
    (ALICE, Event::Retry(0)),
    (FEATURE, Event::Take(0)),
    (BOB, Event::Take(0)),
    (FEATURE, Event::Take(1)),
    (BOB, Event::Take(0)),
    (ALICE, Event::Take(0)),
    (FEATURE, Event::Take(0)),
];

fn step_by(world: &mut World, turns: &[(u32, Event)]) -> Result<(), TestFault> {
    for turn in turns {
        step(world, turn.0, turn.1)?;
    }
    Ok(())
}

// The box and local number of an end, its goal, and the codec that it hears.
type End = (u32, u8, Goal, Option<u8>);

fn end_of(view: EndView) -> End {
    (view.who, view.local, view.goal, view.hears)
}

// Nothing is under way in a world, and its one path has these ends, flows or not, and goes over so many tunnels.
fn has_path<R: Abort + AllocGlobal>(
    rt: &R,
    world: &World,
    ends: (End, End),
    flowing: bool,
    tunnels: u32,
) -> Result<(), TestFault> {
    assert!(rt; world.quiet());
    let views = paths(rt.alloc(), world)?;
    assert!(rt; views.len() == 1);
    is_equal(rt, &end_of(views[0].low), &ends.0);
    is_equal(rt, &end_of(views[0].high), &ends.1);
    is_equal(rt, &views[0].flowing, &flowing);
    is_equal(rt, &views[0].tunnels, &tunnels);
    Ok(())
}

// Alice and bob speak over the feature.
const SPEAK: (End, End) = (
    (ALICE, 0, Goal::Open, Some(0)),
    (BOB, 0, Goal::Hold, Some(0)),
);

// Alice calls, and bob refuses.
const REFUSED: (End, End) = ((ALICE, 0, Goal::Open, None), (BOB, 0, Goal::Close, None));

fn owes_a_retry(rt: &impl Abort, world: &World) {
    let alice = world.boxes().get(ALICE as usize);
    assert!(rt; alice.is_some_and(|alice| alice.enabled(&Event::Retry(0))));
}

// The turns of the call are made, and what it has come to is seen on the way.
fn is_called<R: Abort + AllocGlobal>(rt: &R, world: &mut World) -> Result<(), TestFault> {
    step_by(world, &TURNS[..11])?;
    has_path(rt, world, SPEAK, true, 2)?;
    step_by(world, &TURNS[11..16])?;
    has_path(rt, world, REFUSED, false, 2)?;
    owes_a_retry(rt, world);
    step_by(world, &TURNS[16..])?;
    has_path(rt, world, REFUSED, false, 2)
}

#[test]
fn a_feature_passes_a_call_on_until_it_is_refused(rt: HostRuntime) -> Result<(), TestFault> {
    let mut world = row(rt.alloc(), 2)?;
    is_called(&rt, &mut world)
}

// Of two features that are joined twice the second closes a ring, and the first doesn't.
fn make_a_ring(rt: &impl Abort, world: &mut World) -> Result<(), TestFault> {
    step(world, 0, Event::Set(Change::Link(0, 1)))?;
    is_equal(rt, &world.ring(), &None);
    step(world, 1, Event::Set(Change::Link(0, 1)))?;
    is_equal(rt, &world.ring(), &Some(0));
    Ok(())
}

// A feature between two devices makes none.
fn make_no_ring(rt: &impl Abort, world: &mut World) -> Result<(), TestFault> {
    step_by(world, &TURNS[..1])?;
    is_equal(rt, &world.ring(), &None);
    Ok(())
}

#[test]
fn links_both_ways_make_a_ring(rt: HostRuntime) -> Result<(), TestFault> {
    let mut world = two_features(rt.alloc())?;
    make_a_ring(&rt, &mut world)
}

#[test]
fn links_between_devices_make_no_ring(rt: HostRuntime) -> Result<(), TestFault> {
    let mut world = row(rt.alloc(), 2)?;
    make_no_ring(&rt, &mut world)
}

// The box and local number of the lowest slot for which something waits at the front of its lane.
fn lowest_waiting(world: &World) -> Option<(u32, u8)> {
    world.keeps();
    for slot in 0..world.slot_count() {
        if world.front(slot as u32).is_some() {
            return Some(world.place(slot as u32));
        }
    }
    None
}

// The lowest slot for which something waits takes first, until nothing is under way.
fn take_all(world: &mut World) -> Result<(), TestFault> {
    for _take in 0..10_000 {
        match lowest_waiting(world) {
            Some((who, local)) => step(world, who, Event::Take(local))?,
            None => break,
        }
    }
    Ok(())
}

// The first box of a row opens, and the last one holds.
fn call(world: &mut World, tunnels: u32) -> Result<(), TestFault> {
    link_through(world, tunnels)?;
    step(world, 0, Event::Set(Change::End(0, Goal::Open)))?;
    step(world, tunnels, Event::Set(Change::End(0, Goal::Hold)))?;
    Ok(())
}

// The call flows over the whole row.
fn flows<R: Abort + AllocGlobal>(rt: &R, world: &World, tunnels: u32) -> Result<(), TestFault> {
    let low = (0, 0, Goal::Open, Some(0));
    let high = (tunnels, 0, Goal::Hold, Some(0));
    has_path(rt, world, (low, high), true, tunnels)
}

fn is_called_over<R: Abort + AllocGlobal>(
    rt: &R,
    world: &mut World,
    tunnels: u32,
) -> Result<(), TestFault> {
    call(world, tunnels)?;
    take_all(world)?;
    flows(rt, world, tunnels)
}

#[test]
fn calls_go_over_chains_of_any_length(rt: HostRuntime) -> Result<(), TestFault> {
    for tunnels in [1, 2, 8, 64] {
        let mut world = row(rt.alloc(), tunnels)?;
        is_called_over(&rt, &mut world, tunnels)?;
    }
    Ok(())
}

const CALLER: u32 = 0;

const FIRST_FEATURE: u32 = 1;

const SECOND_FEATURE: u32 = 2;

const CALLEE: u32 = 3;

// How many Takes can come of a call over three tunnels while one signal is under way: half of the delivery bound, which
// is 2 (T + 1)^4 (q + 2 T) for T tunnels and q signals.
const MOST_TAKES: usize = 4 * 4 * 4 * 4 * (1 + 2 * 3);

// The Takes of a call through two features, whose caller opens and whose callee holds, in three orders.
const ORDERS: [[(u32, u8); 12]; 3] = [
    // the lowest slot for which something waits takes first
    [
        (FIRST_FEATURE, 0),
        (SECOND_FEATURE, 0),
        (CALLEE, 0),
        (SECOND_FEATURE, 1),
        (FIRST_FEATURE, 1),
        (CALLER, 0),
        (FIRST_FEATURE, 0),
        (SECOND_FEATURE, 0),
        (SECOND_FEATURE, 1),
        (FIRST_FEATURE, 1),
        (CALLER, 0),
        (CALLEE, 0),
    ],
    // the highest takes first
    [
        (FIRST_FEATURE, 0),
        (SECOND_FEATURE, 0),
        (CALLEE, 0),
        (SECOND_FEATURE, 1),
        (SECOND_FEATURE, 1),
        (FIRST_FEATURE, 1),
        (FIRST_FEATURE, 1),
        (CALLER, 0),
        (FIRST_FEATURE, 0),
        (SECOND_FEATURE, 0),
        (CALLEE, 0),
        (CALLER, 0),
    ],
    // what comes from the callee goes on to the caller first
    [
        (FIRST_FEATURE, 0),
        (SECOND_FEATURE, 0),
        (CALLEE, 0),
        (SECOND_FEATURE, 1),
        (FIRST_FEATURE, 1),
        (SECOND_FEATURE, 1),
        (CALLER, 0),
        (FIRST_FEATURE, 1),
        (CALLER, 0),
        (FIRST_FEATURE, 0),
        (SECOND_FEATURE, 0),
        (CALLEE, 0),
    ],
];

// The call through two features comes to flow by these Takes.
fn is_called_by<R: Abort + AllocGlobal>(
    rt: &R,
    world: &mut World,
    takes: &[(u32, u8)],
) -> Result<(), TestFault> {
    call(world, 3)?;
    for take in takes {
        step(world, take.0, Event::Take(take.1))?;
    }
    assert!(rt; takes.len() <= MOST_TAKES);
    flows(rt, world, 3)
}

#[test]
fn takes_come_to_rest_in_each_order(rt: HostRuntime) -> Result<(), TestFault> {
    for takes in &ORDERS {
        let mut world = row(rt.alloc(), 3)?;
        is_called_by(&rt, &mut world, takes)?;
    }
    Ok(())
}
