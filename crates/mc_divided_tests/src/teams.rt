// A team of two phones, round by round.

use crate::equal::is_equal;
use crate::fault::TestFault;
use crate::networks::{add, device, join};
use mc_box::{Change, Event, Turn};
use mc_io::OpenGate;
use mc_plan::Plan;
use mc_seq::fits;
use mc_signal::Signal;
use mc_slot::Goal;
use mc_team::limit::TEAM_LIMIT;
use mc_team::{RoundLog, Team};
use mc_worker::Stop;
use mc_world::World;
use std::alloc::Global;
use std::process::Abort;
use std::thread::Threads;

const OPENS: Turn = Turn {
    who: 0,
    event: Event::Set(Change::End(0, Goal::Open)),
};

const TAKES: Turn = Turn {
    who: 1,
    event: Event::Take(0),
};

fn lay_two_phones(plan: &mut Plan) -> Result<(), TestFault> {
    add(plan, device())?;
    add(plan, device())?;
    join(plan, 0, 1)
}

// Two phones with a channel between them.
fn two_phones(alloc: Global) -> Result<World, TestFault> {
    let mut plan = Plan::new(alloc);
    lay_two_phones(&mut plan)?;
    Ok(plan.world()?)
}

// A round that makes just these turns.
fn makes<R: Threads + Sync + Abort + AllocGlobal>(
    rt: &R,
    team: Team,
    want: &[Turn],
) -> Result<(Team, RoundLog), TestFault> {
    let (team, log) = team.round(rt, rt.alloc(), &OpenGate, false)?;
    is_equal(rt, &log.turns.as_slice(), &want);
    Ok((team, log))
}

// Whether one of the two boxes rested, and the other had no work.
fn rested_alone(log: &RoundLog, rested: usize, idle: usize) -> bool {
    matches!(log.stops.get(rested), Some(Some(Stop::Rested)))
        && matches!(log.stops.get(idle), Some(None))
}

// A close waits for the first slot, and nothing else is under way.
fn one_close_waits(rt: &impl Abort, world: &World) {
    assert!(rt; world.slot_count() == 2);
    assert!(rt; world.front(0) == Some(Signal::Close));
    assert!(rt; world.front(1).is_none());
}

#[test]
fn a_team_of_two_phones_makes_two_rounds(rt: HostRuntime) -> Result<(), TestFault> {
    let world = two_phones(rt.alloc())?;
    assert!(rt; fits(&world, &[OPENS]));
    assert!(rt; world.boxes().len() <= TEAM_LIMIT);
    let mut team = Team::new(rt.alloc(), world)?;
    team.add(OPENS)?;
    let (team, log) = makes(&rt, team, &[OPENS])?;
    assert!(rt; rested_alone(&log, 0, 1));
    let (team, log) = makes(&rt, team, &[TAKES])?;
    assert!(rt; rested_alone(&log, 1, 0));
    let world = team.end(rt.alloc())?;
    one_close_waits(&rt, &world);
    Ok(())
}
