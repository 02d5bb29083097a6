// A phase of a world.

ghost use Rattle.std.specs.Prelude.{◌≡◌, ◌+◌, ◌<◌, ◌≤◌, length, count_by, IfOk};
ghost use Rattle.mc_box.specs.BoxEvents.{is_take};
ghost use Rattle.mc_desk.specs.declared.limit.TheConstants.{OPERATOR_LIMIT};
ghost use Rattle.mc_flight.specs.declared.limit.TheConstants.{SEAT_LIMIT};
ghost use Rattle.mc_laws.specs.Measures.{under_way};
ghost use Rattle.mc_live.specs.Phases.{LeftOnly};
ghost use Rattle.mc_model.specs.Shapes.{AreAllowed};
ghost use Rattle.mc_model.specs.Steps.{run};
ghost use Rattle.mc_phase.specs.Asked.{AreHandsFor, AreTakenFrom, MeetsRequests, hand_lists, request_lists};

use crate::running::{PhaseLog, run_phase};
use mc_box::Turn;
use mc_desk::Request;
use mc_flight::Totals;
use mc_io::Gate;
use mc_script::Batch;
use mc_team::{dismiss, make_all};
use mc_world::World;
use std::alloc::{AllocError, Global};
use std::sync::Wait;
use std::thread::Threads;

/// A phase of a world, in which operators asked its boxes while these ran.
#[derive(Drop)]
pub struct Phase {
    /// The world after it.
    pub world: World,
    /// The turns of all boxes, in the order of their stamps, and of the boxes where stamps are the same.
    pub turns: Vec<Turn>,
    /// What each box took, in order.
    pub taken: Vec<Vec<Request>>,
    /// The commands that are left, box by box.
    pub left: Batch,
    /// How many signals were counted.
    pub flight: Totals,
}

/// Lets all boxes of a world run freely, each on a thread of its own where one can be made, while an operator for each
/// of 1 to 8 hands asks them: for the turns of its hand, one after the other, each at the box's desk. A box goes on
/// until each operator has ended and no command is left to it, or until it has made more than 4,032 turns or stands at
/// the Hear of a slot at its last version. A world has at most 256 boxes here; the turns of the hands are commands that
/// their shapes enable.
///
/// It fails only for want of memory; the world is gone then. That it returns isn't promised: where threads can't be
/// made, an operator may wait for a box that comes after it.
pub fn live_phase<R: Threads + Wait + Sync, G: Gate + Sync>(
    rt: &R,
    alloc: Global,
    gate: &G,
    world: World,
    hands: &[Vec<Turn>],
) -> Result<Phase, AllocError>
    requires few { length world.boxes ≤ SEAT_LIMIT }
    requires operators { (0 < length hands.now) × (length hands.now ≤ OPERATOR_LIMIT) }
    requires hands { AreHandsFor world (hand_lists hands.now) }
    // The turns are a run from the world to the one after the phase.
    ensures runs { IfOk result (λ phase. run world phase.turns.items ≡ Some phase.world) }
    // Of each operator each box took just its turns, in order, and then its end.
    ensures taken { IfOk result (λ phase.
        AreTakenFrom (hand_lists hands.now) (length world.boxes) (request_lists phase.taken.items)) }
    // What each box took it did in that order, or it is left.
    ensures commands { IfOk result (λ phase.
        MeetsRequests (request_lists phase.taken.items) phase.turns.items phase.left.turns.items) }
    // Commands are left only for these reasons, and the world allows them.
    ensures left { IfOk result (λ phase. LeftOnly phase.turns.items phase.left.turns.items phase.world) }
    ensures allowed { IfOk result (λ phase. AreAllowed phase.world phase.left.turns.items) }
    // The signals that were counted as taken are the Takes. What was under way and was counted as sent was counted as
    // taken or is under way.
    ensures takes { IfOk result (λ phase.
        phase.flight.taken ≡ count_by (λ turn. is_take turn.event) phase.turns.items) }
    ensures sends { IfOk result (λ phase.
        under_way world + phase.flight.sent ≡ phase.flight.taken + under_way phase.world) }
{
    let mut frame = world.into_parts();
    let mut team = make_all(alloc, &mut frame)?;
    let PhaseLog {
        turns,
        taken,
        left,
        flight,
    } = run_phase(rt, alloc, gate, &mut team, hands)?;
    let world = dismiss(alloc, frame, team)?;
    Ok(Phase {
        world,
        turns,
        taken,
        left,
        flight,
    })
}
