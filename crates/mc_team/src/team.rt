// A team: the boxes of a network, each with a worker of its own and rings between them, that make their turns round by
// round.

ghost use Rattle.std.specs.Prelude.{◌≡◌, ◌≤◌, length, IfOk, IsTrue, OnErr, OnOk};
ghost use Rattle.mc_model.specs.Shapes.{is_allowed};
ghost use Rattle.mc_model.specs.Sound.{IsSound};
ghost use Rattle.mc_team.specs.Frames.{FitsTeam};
ghost use Rattle.mc_team.specs.Logs.{AreLogged, log_lists};
ghost use Rattle.mc_team.specs.OwnRounds.{AreOwnRounds, AreShown};
ghost use Rattle.mc_team.specs.Rounds.{IsTeamRound};
ghost use Rattle.mc_team.specs.Teams.{IsTeam, new_team, team_state, with_command};
ghost use Rattle.mc_team.specs.declared.limit.TheConstants.{TEAM_LIMIT};
ghost use Rattle.mc_world.specs.Parts.{HasFrame, parts_state};

use crate::adding::add;
use crate::boxes::TeamBoxes;
use crate::ending::take_apart;
use crate::making::make;
use crate::round::{RoundLog, make_round};
use mc_box::Turn;
use mc_io::Gate;
use mc_world::{Parts, World};
use std::alloc::{AllocError, Global};
use std::marker::Model;
use std::mem;
use std::thread::Threads;

/// A team of boxes that run side by side on a few threads: their world, the commands that are left to each, and how many
/// Shifts each has made.
///
/// Between rounds a team is a world again, so whatever commands come between them, each round goes on from a lawful
/// one.
#[derive(Drop)]
pub struct Team {
    frame: Parts,
    boxes: TeamBoxes,
}

impl Model for Team {
    ghost use Rattle.mc_team.specs.Teams.{IsTeam, TeamState, team_state};

    ghost Value = { TeamState };

    ghost use Rattle.mc_team.specs.Frames.{FitsTeam};

    ghost view = { λ team. team_state team.boxes };

    ghost invariant = { λ team. IsTeam team.boxes × FitsTeam team.frame team.boxes };
}

impl Team {
    /// A team of a world's boxes, each with a worker of its own, and what is under way in the inboxes. No command is
    /// left to a box, and none has made a Shift. It fails only for want of memory; the world is gone then.
    pub fn new(alloc: Global, world: World) -> Result<Team, AllocError>
        requires few { length world.boxes ≤ TEAM_LIMIT }
        ensures { IfOk result (λ team. team ≡ new_team world) }
    {
        let mut frame = world.into_parts();
        let boxes = make_all(alloc, &mut frame)?;
        Ok(Team { frame, boxes })
    }

    /// Gives a box a command more, which its shape allows, after those that it has. It fails only for want of memory,
    /// and the team is as it was then.
    pub fn add(&mut self, turn: Turn) -> Result<(), AllocError>
        requires { IsTrue (is_allowed self.old.world turn) }
        ensures added { OnOk result (self.new ≡ with_command self.old turn) }
        ensures kept { OnErr result (self.new ≡ self.old) }
    {
        add(&mut self.boxes, turn)
    }

    /// Makes one round of each box that has work: it is at most 64 turns of each, the retries that are owed first where
    /// they are asked for. A box without work has an empty log, and no stop. The boxes run on a few threads; no
    /// clause tells which thread runs which. What the boxes did is one run of the world, in the order of the stamps
    /// in their logs. Each box that has work makes a turn, and, where no retries are asked for and it has commands, uses
    /// one up; or it stops at the Hear of a slot that is at its last version.
    ///
    /// It fails only for want of memory; the team is gone then.
    pub fn round<R: Threads + Sync, G: Gate + Sync>(
        self,
        rt: &R,
        alloc: Global,
        gate: &G,
        retries: bool,
    ) -> Result<(Team, RoundLog), AllocError>
        ensures round { IfOk result (λ answer.
            IsTeamRound retries self answer.0 answer.1.turns.items answer.1.stops.items) }
        // The turns are those of the logs.
        ensures logs { IfOk result (λ answer. AreLogged answer.1) }
        // Each box that had work made one round of its own, by a worker of its own.
        ensures own { IfOk result (λ answer.
            AreOwnRounds retries self answer.0 (log_lists answer.1.logs.items) answer.1.stops.items) }
        // That is to be seen by its log and its stop, and by the team before and after.
        ensures shown { IfOk result (λ answer.
            AreShown retries self answer.0 (log_lists answer.1.logs.items) answer.1.stops.items) }
    {
        let Team { frame, mut boxes } = self;
        let log = make_round(rt, alloc, gate, retries, &mut boxes)?;
        Ok((Team { frame, boxes }, log))
    }

    /// The world that the team has come to. Commands that are left are lost. It fails only for want of memory; the team
    /// is gone then.
    pub fn end(self, alloc: Global) -> Result<World, AllocError>
        ensures { IfOk result (λ world. world ≡ self.world) }
    {
        let Team { frame, boxes } = self;
        dismiss(alloc, frame, boxes)
    }
}

/// The boxes of a team, of the boxes, channels and lanes of these parts, which keep the tables. It fails only for want
/// of memory; boxes, channels and lanes are gone then.
pub fn make_all(alloc: Global, frame: &mut Parts) -> Result<TeamBoxes, AllocError>
    requires frame { HasFrame frame.old (length frame.old.boxes.items) }
    requires sound { IsSound (parts_state frame.old) }
    requires few { length frame.old.boxes.items ≤ TEAM_LIMIT }
    ensures team { IfOk result IsTeam }
    ensures new { IfOk result (λ team. team_state team ≡ new_team (parts_state frame.old)) }
    ensures frame { IfOk result (FitsTeam frame.new) }
{
    let boxes = mem::replace(&mut frame.boxes, Vec::new(alloc));
    let channels = mem::replace(&mut frame.channels, Vec::new(alloc));
    let lanes = mem::replace(&mut frame.lanes, Vec::new(alloc));
    make(alloc, boxes, channels, lanes)
}

/// The world of a team, with the tables of these parts. Commands that are left are lost. It fails only for want of
/// memory.
pub fn dismiss(alloc: Global, frame: Parts, team: TeamBoxes) -> Result<World, AllocError>
    requires team { IsTeam team }
    requires frame { FitsTeam frame team }
    ensures { IfOk result (λ world. world ≡ (team_state team).world) }
{
    let parts = take_apart(alloc, team)?;
    let mut frame = frame;
    frame.boxes = parts.boxes;
    frame.channels = parts.channels;
    frame.lanes = parts.lanes;
    World::from_parts(alloc, frame)
}
