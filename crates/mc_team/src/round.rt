// One round.

ghost use Rattle.std.specs.Prelude.{◌≡◌, false, All, IfOk, IfSome, OnOk};
ghost use Rattle.mc_team.specs.Logs.{AreLogged, log_lists};
ghost use Rattle.mc_team.specs.OwnRounds.{AreOwnRounds};
ghost use Rattle.mc_team.specs.Rounds.{IsTeamRound, round_logs, round_stops, stop_of};
ghost use Rattle.mc_team.specs.Runs.{NoneRefused};
ghost use Rattle.mc_team.specs.Teams.{IsTeam, team_state};
ghost use Rattle.mc_worker.specs.Turns.{is_memory};

use crate::boxes::TeamBoxes;
use crate::carrying::carry_all;
use crate::member::Member;
use crate::merging::merge;
use crate::running::run_boxes;
use mc_box::Turn;
use mc_io::Gate;
use mc_lane::Lane;
use mc_worker::{Logged, RoundEnd, Stop};
use std::alloc::{AllocError, Global};
use std::thread::Threads;

/// What the boxes of a team did in a round.
#[derive(Debug, Drop)]
pub struct RoundLog {
    /// Of each box the turns that it made, with their stamps.
    pub logs: Vec<Vec<Logged>>,
    /// Of each box why its round ended; none where it had no work.
    pub stops: Vec<Option<Stop>>,
    /// The turns of all boxes in the order of their stamps, and of the boxes where stamps are the same.
    pub turns: Vec<Turn>,
}

/// Makes one round of each box that has work: it is at most 64 turns of each, the retries that are owed first where
/// they are asked for. What the boxes send to each other in the round they may take in it, or it waits for the next
/// one. The round's turns are one run of the world.
///
/// It fails only for want of memory. The team is of no more use then.
pub fn make_round<R: Threads + Sync, G: Gate + Sync>(
    rt: &R,
    alloc: Global,
    gate: &G,
    retries: bool,
    team: &mut TeamBoxes,
) -> Result<RoundLog, AllocError>
    requires { IsTeam team.old }
    ensures team { OnOk result (IsTeam team.new) }
    ensures round { IfOk result (λ log.
        IsTeamRound retries (team_state team.old) (team_state team.new) log.turns.items log.stops.items) }
    ensures logs { IfOk result (λ log. AreLogged log) }
    ensures own { IfOk result (λ log.
        AreOwnRounds retries (team_state team.old) (team_state team.new) (log_lists log.logs.items) log.stops.items) }
{
    run_boxes(rt, gate, retries, &mut team.members);
    none_refused(&team.members)?;
    carry_all(&mut team.members, &team.lanes)?;
    let logs = logs_of(alloc, &team.members)?;
    let stops = stops_of(alloc, &team.members)?;
    let turns = merge(alloc, &logs)?;
    Ok(RoundLog { logs, stops, turns })
}

// Fails where a box stopped for want of memory.
fn none_refused(members: &[Member]) -> Result<(), AllocError>
    ensures { IfOk result (λ done. NoneRefused members.now) }
{
    for member in members {
        refusal(&member.end)?;
    }
    Ok(())
}

// Fails where a round ended for want of memory.
fn refusal(end: &Option<RoundEnd>) -> Result<(), AllocError>
    ensures { OnOk result (IfSome end.now (λ kept. is_memory kept.stop ≡ false)) }
{
    match end {
        Some(
            RoundEnd {
                stop: Stop::NoMemory(e),
                ..
            },
        ) => Err(*e),
        _ => Ok(()),
    }
}

/// A copy of the log of each box. It fails only for want of memory.
pub fn logs_of(alloc: Global, members: &[Member]) -> Result<Vec<Vec<Logged>>, AllocError>
    ensures { IfOk result (λ logs. log_lists logs.items ≡ round_logs members.now) }
{
    let mut logs = Vec::with_capacity(alloc, members.len())?;
    for member in members {
        logs.push(copy_of(alloc, &member.worker.log)?)?;
    }
    Ok(logs)
}

// The entries of a log.
fn copy_of(alloc: Global, log: &Lane<Logged>) -> Result<Vec<Logged>, AllocError>
    ensures { IfOk result (λ copy. copy.items ≡ log.now.items) }
{
    let mut copy = Vec::with_capacity(alloc, log.len())?;
    for index in 0..log.len() {
        copy.push(log.get(index))?;
    }
    Ok(copy)
}

// Of each box why its round ended, and none where it made none.
fn stops_of(alloc: Global, members: &[Member]) -> Result<Vec<Option<Stop>>, AllocError>
    ensures { IfOk result (λ stops. stops.items ≡ round_stops members.now) }
{
    let mut stops = Vec::with_capacity(alloc, members.len())?;
    for member in members {
        stops.push(stop_of(&member.end))?;
    }
    Ok(stops)
}

// Why a round ended, where one was made.
fn stop_of(end: &Option<RoundEnd>) -> Option<Stop>
    ensures { result ≡ stop_of end.now }
{
    match end {
        Some(end) => Some(stop_again(&end.stop)),
        None => None,
    }
}

// The same stop. The box keeps its own.
fn stop_again(stop: &Stop) -> Stop
    ensures { result ≡ stop.now }
{
    match stop {
        Stop::Rested => Stop::Rested,
        Stop::Spent => Stop::Spent,
        Stop::NoMemory(e) => Stop::NoMemory(*e),
        Stop::VersionEnd(local) => Stop::VersionEnd(*local),
        Stop::Strange(end, tunnel) => Stop::Strange(*end, *tunnel),
    }
}
