// Networks settled by draws.

ghost use Rattle.std.specs.Prelude.{◌<◌};

use crate::equal::is_equal;
use crate::fault::TestFault;
use crate::networks::{add, device, feature, join, row, two_features};
use crate::programs::{drawn_program, flipping};
use mc_box::limit::{LAST_VERSION, SHIFT_LIMIT};
use mc_box::{Change, Event, MediaChange, Turn};
use mc_divided::limit::NETWORK_LIMIT;
use mc_io::OpenGate;
use mc_plan::{BoxPlan, Plan};
use mc_rounds::settle_rounds;
use mc_rule::Program;
use mc_seq::{SettleFault, fits, settle_one};
use mc_signal::Medium;
use mc_slot::{Goal, State};
use mc_text::Draws;
use mc_world::{Settled, World};
use std::alloc::{AllocError, Global};
use std::process::Abort;
use std::thread::Threads;

// How a settle ended.
#[derive(Clone, Copy, PartialEq, Eq, Debug)]
pub enum Ending {
    Rest,
    Ring(u32),
    VersionEnd(u32),
    Restless(u32),
    NoMemory,
    Refused,
}

// What a settle came to.
#[derive(Debug, Drop)]
pub struct Outcome {
    pub ending: Ending,
    pub turns: Vec<Turn>,
    pub draws: u32,
}

pub fn outcome_of(alloc: Global, settled: Result<Settled, SettleFault>, draws: u32) -> Outcome {
    match settled {
        Ok(done) => Outcome {
            ending: Ending::Rest,
            turns: done.turns,
            draws,
        },
        Err(SettleFault::Ring(stop)) => Outcome {
            ending: Ending::Ring(stop.at),
            turns: stop.turns,
            draws,
        },
        Err(SettleFault::VersionEnd(stop)) => Outcome {
            ending: Ending::VersionEnd(stop.at),
            turns: stop.turns,
            draws,
        },
        Err(SettleFault::Restless(stop)) => Outcome {
            ending: Ending::Restless(stop.at),
            turns: stop.turns,
            draws,
        },
        Err(SettleFault::NoMemory(_)) => ended(alloc, Ending::NoMemory, draws),
    }
}

pub fn ended(alloc: Global, ending: Ending, draws: u32) -> Outcome {
    Outcome {
        ending,
        turns: Vec::new(alloc),
        draws,
    }
}

fn by_counts(alloc: Global, world: World, batch: &[Turn], state: u32) -> Outcome {
    let mut draws = Draws { state };
    if !fits(&world, batch) {
        return ended(alloc, Ending::Refused, state);
    }
    let settled = settle_one(alloc, world, batch, &mut draws);
    outcome_of(alloc, settled, draws.state)
}

fn in_rounds<R: Threads + Sync + AllocGlobal>(rt: &R, world: World, batch: &[Turn]) -> Outcome {
    let alloc = rt.alloc();
    if !fits(&world, batch) || world.boxes().len() > NETWORK_LIMIT {
        return ended(alloc, Ending::Refused, 0);
    }
    let settled = settle_rounds(rt, alloc, &OpenGate, world, batch);
    outcome_of(alloc, settled, 0)
}

// An outcome has this end, these turns, and this state of the draws.
fn comes_to(rt: &impl Abort, done: &Outcome, ending: Ending, turns: &[Turn], draws: u32) {
    is_equal(rt, &done.ending, &ending);
    is_equal(rt, &done.turns.as_slice(), &turns);
    is_equal(rt, &done.draws, &draws);
}

// ---- what was settled by hand

pub const OPEN: Turn = Turn {
    who: 0,
    event: Event::Set(Change::End(0, Goal::Open)),
};

pub const HOLD: Turn = Turn {
    who: 1,
    event: Event::Set(Change::End(0, Goal::Hold)),
};

const ONE: Turn = Turn {
    who: 0,
    event: Event::Take(0),
};

const TWO: Turn = Turn {
    who: 1,
    event: Event::Take(0),
};

const AGAIN: Turn = Turn {
    who: 0,
    event: Event::Retry(0),
};

pub const LINK: Turn = Turn {
    who: 0,
    event: Event::Set(Change::Link(0, 1)),
};

pub const BACK: Turn = Turn {
    who: 1,
    event: Event::Set(Change::Link(0, 1)),
};

const SHIFT: Turn = Turn {
    who: 1,
    event: Event::Shift,
};

// The state of the draws after so many.
fn drawn_from(state: u32, count: u32) -> u32 {
    let mut draws = Draws { state };
    for _done in 0..count {
        let _ = draws.draw();
    }
    draws.state
}

// From the first state of the draws, a world and a batch come to this end by these turns, with so many draws.
fn settles_by<R: Abort + AllocGlobal>(
    rt: &R,
    world: World,
    batch: &[Turn],
    ending: Ending,
    turns: &[Turn],
    draws: u32,
) {
    let done = by_counts(rt.alloc(), world, batch, 1);
    comes_to(rt, &done, ending, turns, drawn_from(1, draws));
}

// Batches of two devices, the turns that they come to rest by, and the number of draws.
pub const CALLS: [(&[Turn], &[Turn], u32); 2] = [
    // a call
    (&[OPEN, HOLD], &[OPEN, HOLD, TWO, ONE, TWO, ONE], 6),
    // a refused call
    (&[OPEN], &[OPEN, TWO, ONE, TWO, AGAIN, TWO, ONE, TWO], 7),
];

#[test]
fn calls_are_settled_by_draws(rt: HostRuntime) -> Result<(), TestFault> {
    for (batch, turns, draws) in CALLS {
        let world = row(rt.alloc(), 1)?;
        settles_by(&rt, world, batch, Ending::Rest, turns, draws);
    }
    Ok(())
}

// In rounds the order of the turns is free, and their number isn't, since each box makes its commands first.
#[test]
fn calls_are_settled_in_rounds(rt: HostRuntime) -> Result<(), TestFault> {
    for (batch, turns, _draws) in CALLS {
        let done = in_rounds(&rt, row(rt.alloc(), 1)?, batch);
        is_equal(&rt, &done.ending, &Ending::Rest);
        is_equal(&rt, &done.turns.len(), &turns.len());
    }
    Ok(())
}

#[test]
fn draws_stop_at_a_ring(rt: HostRuntime) -> Result<(), TestFault> {
    let world = two_features(rt.alloc())?;
    settles_by(&rt, world, &[LINK, BACK], Ending::Ring(0), &[LINK, BACK], 2);
    Ok(())
}

fn lay_feature(plan: &mut Plan) -> Result<(), TestFault> {
    add(plan, device())?;
    add(plan, feature())?;
    join(plan, 0, 1)
}

// A feature beside a device, with this program of two states that lead to each other.
pub fn two_states(alloc: Global, program: Program) -> Result<World, TestFault> {
    let mut plan = Plan::new(alloc);
    lay_feature(&mut plan)?;
    let mut layout = plan.layout()?;
    let _ = layout.program(1, program);
    Ok(layout.world()?)
}

// What the program waits for, how its settle ends, by which turns, and the number of draws.
pub const PROGRAMS: [(State, Ending, &[Turn], u32); 2] = [
    // it makes all its shifts
    (
        State::Closed,
        Ending::Restless(1),
        &[SHIFT; SHIFT_LIMIT as usize],
        256,
    ),
    // it comes to rest
    (State::Opened, Ending::Rest, &[SHIFT], 1),
];

#[test]
fn programs_go_on_until_they_rest(rt: HostRuntime) -> Result<(), TestFault> {
    for (waits, ending, turns, draws) in PROGRAMS {
        let program = flipping(rt.alloc(), waits)?;
        let world = two_states(rt.alloc(), program)?;
        settles_by(&rt, world, &[], ending, turns, draws);
    }
    Ok(())
}

// ---- beside the plain settle

// A draw below a limit; 0 where that is 0.
pub fn below(draws: &mut Draws, limit: u32) -> u32
    ensures { 0 < limit → result < limit }
{
    if limit == 0 { 0 } else { draws.draw() % limit }
}

// A device, which may have the last version, or a feature.
fn drawn_box(draws: &mut Draws) -> BoxPlan {
    let mut planned = device();
    match below(draws, 6) {
        0 | 1 | 2 => return feature(),
        3 => planned.first_version = LAST_VERSION,
        _ => {}
    }
    planned
}

// A network of two to five boxes, at times of features alone, with up to six channels between them.
fn drawn_plan(alloc: Global, draws: &mut Draws) -> Result<Plan, TestFault> {
    let mut plan = Plan::new(alloc);
    let features = below(draws, 3) == 0;
    let boxes = 2 + below(draws, if features { 2 } else { 4 });
    for _planned in 0..boxes {
        add(
            &mut plan,
            if features {
                feature()
            } else {
                drawn_box(draws)
            },
        )?;
    }
    for _channel in 0..=below(draws, 6) {
        let from = below(draws, boxes);
        let to = below(draws, boxes);
        let media: &[Medium] = if below(draws, 2) == 0 {
            &[Medium::Audio]
        } else {
            &[Medium::Audio, Medium::Video]
        };
        // a channel from a box to itself is refused
        let _ = plan.join(from, to, media);
    }
    Ok(plan)
}

fn drawn_world(alloc: Global, draws: &mut Draws) -> Result<World, TestFault> {
    Ok(drawn_plan(alloc, draws)?.world()?)
}

// How many slots a box has; 0 for one that isn't there.
fn slot_number(plan: &Plan, who: u32) -> u8 {
    if (who as usize) < plan.boxes().len() {
        plan.slots(who).min(255) as u8
    } else {
        0
    }
}

fn slot_numbers(plan: &Plan) -> [u8; 5] {
    let mut slots = [0u8; 5];
    for who in 0..5u8 {
        slots[who as usize] = slot_number(plan, u32::from(who));
    }
    slots
}

// Such a network in which most features have a program.
fn programmed_world(alloc: Global, draws: &mut Draws) -> Result<World, TestFault> {
    let plan = drawn_plan(alloc, draws)?;
    let slots = slot_numbers(&plan);
    let mut layout = plan.layout()?;
    for who in 0..5u8 {
        let count = slots[who as usize];
        if 0 < count && count <= 64 && below(draws, 4) != 0 {
            let program = drawn_program(alloc, draws, count)?;
            // a device gets none
            let _ = layout.program(u32::from(who), program);
        }
    }
    Ok(layout.world()?)
}

// A command for a network of that size, which may refuse it.
fn drawn_command(draws: &mut Draws) -> Turn {
    let who = below(draws, 5);
    let local = below(draws, 4) as u8;
    let on = below(draws, 2) == 0;
    let event = match below(draws, 8) {
        0 | 1 => Event::Set(Change::End(local, Goal::Open)),
        2 => Event::Set(Change::End(local, Goal::Hold)),
        3 => Event::Set(Change::End(local, Goal::Close)),
        4 | 5 => Event::Set(Change::Link(local, below(draws, 4) as u8)),
        6 => Event::Media(MediaChange::Hear(local, on)),
        _ => Event::Media(MediaChange::Talk(local, on)),
    };
    Turn { who, event }
}

// The same, or a Tell of one of three words.
fn drawn_order(draws: &mut Draws) -> Turn {
    if below(draws, 3) == 0 {
        let who = below(draws, 5);
        let event = Event::Tell(below(draws, 3) as u8);
        return Turn { who, event };
    }
    drawn_command(draws)
}

// Commands that the world allows, at times far more than there are boxes.
fn drawn_batch(alloc: Global, world: &World, draws: &mut Draws) -> Result<Vec<Turn>, TestFault> {
    let mut batch = Vec::new(alloc);
    let most = if below(draws, 8) == 0 { 240 } else { 40 };
    for _command in 0..below(draws, most) {
        let drawn = drawn_command(draws);
        if fits(world, &[drawn]) && batch.push(drawn).is_err() {
            return Err(TestFault::NoMemory(AllocError));
        }
    }
    Ok(batch)
}

// Such commands for a world with programs.
fn drawn_orders(alloc: Global, world: &World, draws: &mut Draws) -> Result<Vec<Turn>, TestFault> {
    let mut batch = Vec::new(alloc);
    for _command in 0..below(draws, 30) {
        let drawn = drawn_order(draws);
        if fits(world, &[drawn]) && batch.push(drawn).is_err() {
            return Err(TestFault::NoMemory(AllocError));
        }
    }
    Ok(batch)
}

// A world that is drawn from a seed, a batch that it allows, and the state of the draws then.
#[derive(Drop)]
pub struct Case {
    pub world: World,
    pub batch: Vec<Turn>,
    pub state: u32,
}

pub fn drawn_case(alloc: Global, seed: u32) -> Result<Case, TestFault> {
    let mut draws = Draws { state: seed };
    let world = drawn_world(alloc, &mut draws)?;
    let batch = drawn_batch(alloc, &world, &mut draws)?;
    let state = draws.state;
    Ok(Case {
        world,
        batch,
        state,
    })
}

// The same with programs.
pub fn programmed_case(alloc: Global, seed: u32) -> Result<Case, TestFault> {
    let mut draws = Draws { state: seed };
    let world = programmed_world(alloc, &mut draws)?;
    let batch = drawn_orders(alloc, &world, &mut draws)?;
    let state = draws.state;
    Ok(Case {
        world,
        batch,
        state,
    })
}
