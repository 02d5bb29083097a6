// A phase of a team's boxes.

ghost use Rattle.std.specs.Prelude.{◌≡◌, ◌<◌, ◌≤◌, length, IfOk, OnOk};
ghost use Rattle.std.specs.List.{AllByRecursion};
ghost use Rattle.std.specs.Thread.{IsSync};
ghost use Rattle.mc_desk.specs.declared.limit.TheConstants.{OPERATOR_LIMIT};
ghost use Rattle.mc_desks.specs.Laid.{HaveOperators};
ghost use Rattle.mc_flight.specs.declared.limit.TheConstants.{SEAT_LIMIT};
ghost use Rattle.mc_live.specs.Askers.{AreNewAskers};
ghost use Rattle.mc_live.specs.BoxRuns.{AreNewRuns};
ghost use Rattle.mc_phase.specs.Asked.{AreHandsFor, hand_lists};
ghost use Rattle.mc_phase.specs.Prepared.{CanBeFree};
ghost use Rattle.mc_phase.specs.Ran.{HaveAllRun, IsPhase, IsSameNetwork};
ghost use Rattle.mc_team.specs.Teams.{IsTeam, team_state};

use crate::finishing::{finish, none_refused};
use crate::gathering::gather;
use crate::leaving::left_to;
use crate::preparing::{PhaseParts, prepare};
use mc_box::Turn;
use mc_desk::Request;
use mc_flight::Totals;
use mc_io::Gate;
use mc_live::run_together;
use mc_script::Batch;
use mc_team::TeamBoxes;
use std::alloc::{AllocError, Global};
use std::mem;
use std::sync::Wait;
use std::thread::Threads;

/// What came of a phase.
#[derive(Drop)]
pub struct PhaseLog {
    /// The turns of all boxes, in the order of their stamps.
    pub turns: Vec<Turn>,
    /// What each box took.
    pub taken: Vec<Vec<Request>>,
    /// The commands that are left, box by box.
    pub left: Batch,
    pub flight: Totals,
}

/// Lets all boxes of a team run freely, while an operator for each hand asks them.
pub fn run_phase<R: Threads + Wait + Sync, G: Gate + Sync>(
    rt: &R,
    alloc: Global,
    gate: &G,
    team: &mut TeamBoxes,
    hands: &[Vec<Turn>],
) -> Result<PhaseLog, AllocError>
    requires team { IsTeam team.old }
    requires free { AllByRecursion CanBeFree team.old.members.items }
    requires few { length team.old.members.items ≤ SEAT_LIMIT }
    requires operators { (0 < length hands.now) × (length hands.now ≤ OPERATOR_LIMIT) }
    requires hands { AreHandsFor (team_state team.old).world (hand_lists hands.now) }
    ensures team { OnOk result (IsTeam team.new) }
    ensures same { OnOk result (IsSameNetwork team.old team.new) }
    ensures phase { IfOk result
        (IsPhase (hand_lists hands.now) (team_state team.old).world (team_state team.new).world) }
{
    let operators = hands.len() as u32;
    let members = mem::replace(&mut team.members, Vec::new(alloc));
    let mut parts = prepare(alloc, operators, members)?;
    run_all(rt, gate, operators, hands, &mut parts);
    none_refused(&parts.runs)?;
    let finished = finish(rt, alloc, parts)?;
    team.members = finished.members;
    let turns = gather(alloc, team)?;
    let left = left_to(alloc, &team.members)?;
    Ok(PhaseLog {
        turns,
        taken: finished.taken,
        left,
        flight: finished.totals,
    })
}

// All operators ask, and all boxes run.
fn run_all<R: Threads + Wait + Sync, G: Gate + Sync>(
    rt: &R,
    gate: &G,
    operators: u32,
    hands: &[Vec<Turn>],
    parts: &mut PhaseParts,
)
    requires operators { HaveOperators operators parts.old.desks.items }
    requires askers { AreNewAskers parts.old.desks.items hands.now parts.old.askers.items }
    requires runs { AreNewRuns parts.old.flight parts.old.desks.items parts.old.runs.items }
    ensures { HaveAllRun hands.now parts.old parts.new }
{
    run_together(
        rt,
        gate,
        operators,
        &parts.desks,
        &parts.flight,
        hands,
        &mut parts.askers,
        &mut parts.runs,
    );
}
