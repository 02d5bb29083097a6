// Live settles.

ghost use Rattle.std.specs.Prelude.{◌<◌, ◌≤◌, length, IfErr, IfOk};
ghost use Rattle.mc_desk.specs.declared.limit.TheConstants.{OPERATOR_LIMIT, REQUEST_LIMIT};
ghost use Rattle.mc_flight.specs.declared.limit.TheConstants.{SEAT_LIMIT};
ghost use Rattle.mc_live_settle.specs.Answers.{HaveAskedAll};
ghost use Rattle.mc_live_settle.specs.Settles.{LiveStops, SettlesLive};
ghost use Rattle.mc_model.specs.Shapes.{AreAllowed};

use crate::behind::answer_behind;
use crate::dealing::deal;
use mc_box::Turn;
use mc_io::Gate;
use mc_phase::{Phase, live_phase};
use mc_rounds::settle_rounds;
use mc_seq::SettleFault;
use mc_world::{Settled, World};
use std::alloc::{AllocError, Global};
use std::sync::Wait;
use std::thread::Threads;

/// Settles one batch of a world, while its boxes run freely. The commands are dealt to 1 to 8 operators (`deal`), who
/// ask for them at once in one phase (`mc_phase::live_phase`); what is then left is settled in parts
/// (`mc_rounds::settle_rounds`), and the owed Retries come there. The turns are those of the phase and then those of
/// the settle.
///
/// The world allows each command, and has at most 256 boxes; there are fewer than 4,294,967,295 commands. Box by box
/// the commands come in an order in which each operator's own keep theirs. It stops as `settle_rounds` does, with all
/// turns until then; Shifts of the phase don't count towards the limit of a settle. The world is gone where it doesn't
/// rest. That it returns isn't promised, because `live_phase` may wait.
pub fn settle_live<R: Threads + Wait + Sync, G: Gate + Sync>(
    rt: &R,
    alloc: Global,
    gate: &G,
    operators: u32,
    world: World,
    batch: &[Turn],
) -> Result<Settled, SettleFault>
    requires operators { (0 < operators) × (operators ≤ OPERATOR_LIMIT) }
    requires few { length world.boxes ≤ SEAT_LIMIT }
    requires allowed { AreAllowed world batch.now }
    requires commands { length batch.now < REQUEST_LIMIT }
    ensures settled { IfOk result (λ done. SettlesLive operators world batch.now done.turns.items done.world) }
    ensures stops { IfErr result (LiveStops operators world batch.now) }
{
    let phase = ask_all(rt, alloc, gate, operators, world, batch)?;
    let Phase {
        world,
        turns,
        taken: _,
        left,
        flight: _,
    } = phase;
    let answer = settle_rounds(rt, alloc, gate, world, &left.turns);
    answer_behind(turns, answer)
}

// The operators ask for all commands, in one phase.
fn ask_all<R: Threads + Wait + Sync, G: Gate + Sync>(
    rt: &R,
    alloc: Global,
    gate: &G,
    operators: u32,
    world: World,
    batch: &[Turn],
) -> Result<Phase, AllocError>
    requires operators { (0 < operators) × (operators ≤ OPERATOR_LIMIT) }
    requires few { length world.boxes ≤ SEAT_LIMIT }
    requires allowed { AreAllowed world batch.now }
    requires commands { length batch.now < REQUEST_LIMIT }
    ensures { IfOk result (λ phase.
        HaveAskedAll operators world batch.now phase.turns.items phase.left.turns.items phase.world) }
{
    world.keeps();
    let hands = deal(alloc, operators, batch)?;
    live_phase(rt, alloc, gate, world, &hands)
}
