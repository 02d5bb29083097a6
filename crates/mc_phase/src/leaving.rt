// The commands that are left to boxes.

ghost use Rattle.std.specs.Prelude.{◌≡◌, ◌++◌, ◌≤◌, ◌^◌, length, map, IfOk, OnOk};
ghost use Rattle.mc_box.specs.BoxEvents.{turn_of};
ghost use Rattle.mc_phase.specs.Left.{turns_from};
ghost use Rattle.mc_team.specs.Ends.{stimuli_of};

use mc_box::{Event, Turn};
use mc_lane::Lane;
use mc_script::Batch;
use mc_team::Member;
use std::alloc::{AllocError, Global};

/// The commands that are left to all boxes, box by box. It fails only for want of memory.
pub fn left_to(alloc: Global, members: &[Member]) -> Result<Batch, AllocError>
    requires few { length members.now ≤ 2 ^ 32 }
    ensures { IfOk result (λ left. left.turns.items ≡ turns_from 0 (stimuli_of members.now)) }
{
    let mut turns = Vec::new(alloc);
    for who in 0..members.len() {
        add_left(&members[who].worker.stimuli, who as u32, &mut turns)?;
    }
    Ok(Batch { turns })
}

// Those of one box come to the end.
fn add_left(stimuli: &Lane<Event>, who: u32, turns: &mut Vec<Turn>) -> Result<(), AllocError>
    ensures { OnOk result (turns.new.items ≡ turns.old.items ++ map (turn_of who) stimuli.now.items) }
{
    for at in 0..stimuli.len() {
        turns.push(Turn {
            who,
            event: stimuli.get(at),
        })?;
    }
    Ok(())
}
