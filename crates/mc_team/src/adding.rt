// One command more for a box.

ghost use Rattle.std.specs.Prelude.{◌≡◌, IsTrue, OnErr, OnOk};
ghost use Rattle.mc_team.specs.Teams.{IsTeam, team_state, with_command};
ghost use Rattle.mc_model.specs.Shapes.{is_allowed};

use crate::boxes::TeamBoxes;
use mc_box::Turn;
use std::alloc::AllocError;

/// Adds a command for a box after those that it has. It fails only for want of memory, and adds nothing then.
pub fn add(team: &mut TeamBoxes, turn: Turn) -> Result<(), AllocError>
    requires team { IsTeam team.old }
    requires allowed { IsTrue (is_allowed (team_state team.old).world turn) }
    ensures team { IsTeam team.new }
    ensures added { OnOk result (team_state team.new ≡ with_command (team_state team.old) turn) }
    ensures kept { OnErr result (team_state team.new ≡ team_state team.old) }
{
    team.members[turn.who as usize].worker.add(turn.event)
}
