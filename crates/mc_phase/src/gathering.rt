// The turns of boxes that ran freely.

ghost use Rattle.std.specs.Prelude.{◌≡◌, List, IfOk, OnOk};
ghost use Rattle.mc_live.specs.Phases.{IsFreeRun};
ghost use Rattle.mc_live.specs.declared.box_run.BoxRun.{BoxRun};
ghost use Rattle.mc_desk.specs.declared.desk.Desk.{Desk};
ghost use Rattle.mc_phase.specs.Ran.{HasRunFrom, IsSameNetwork};
ghost use Rattle.mc_team.specs.Ends.{stimuli_of};
ghost use Rattle.mc_team.specs.Layouts.{inner_lists};
ghost use Rattle.mc_team.specs.declared.member.Member.{Member};

use mc_box::Turn;
use mc_team::{TeamBoxes, carry_all, logs_of, merge};
use std::alloc::{AllocError, Global};

/// The turns that the boxes of a team made as they ran freely, in the order of their stamps; what is under way between
/// them comes into their inboxes. It fails only for want of memory; the team is of no more use then.
pub fn gather(alloc: Global, team: &mut TeamBoxes) -> Result<Vec<Turn>, AllocError>
    requires { (old : List Member) × (desks : List Desk) × (began : List BoxRun) × (free : List BoxRun)
        × HasRunFrom old desks began free team.old }
    ensures same { OnOk result (IsSameNetwork team.old team.new) }
    ensures stimuli { OnOk result (stimuli_of team.new.members.items ≡ stimuli_of team.old.members.items) }
    ensures run { IfOk result (λ turns. (old : List Member) (desks : List Desk) (began : List BoxRun)
        (free : List BoxRun) → HasRunFrom old desks began free team.old
        → IsFreeRun team.new.channels.items team.new.lanes.items (inner_lists team.new.ends.items)
        old team.new.members.items free turns.items) }
{
    carry_all(&mut team.members, &team.lanes)?;
    let logs = logs_of(alloc, &team.members)?;
    merge(alloc, &logs)
}
