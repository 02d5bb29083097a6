// A network is divided into parts, and put together again.

ghost use Rattle.std.specs.Prelude.{◌≡◌, ◌≤◌, ◌<◌, ℕ, false, length, slice_index_or, IfOk, IsTrue};
ghost use Rattle.mc_box.specs.BoxEvents.{is_enabled};
ghost use Rattle.mc_box.specs.Boxes.{no_box};
ghost use Rattle.mc_box.specs.declared.event.Event.{Event};
ghost use Rattle.mc_divided.specs.Networks.{IsDividedNetwork, network_state};
ghost use Rattle.mc_divided.specs.States.{new_state};
ghost use Rattle.mc_divided.specs.declared.limit.TheConstants.{NETWORK_LIMIT};

use crate::dividing::divide;
use crate::engines::lay_parts;
use crate::logs::lay_logs;
use crate::network::DividedNetwork;
use crate::wiring::{Wiring, wire};
use mc_box::{Event, MediaBox};
use mc_part::PartRun;
use mc_world::World;
use std::alloc::{AllocError, Global};
use std::mem;

/// Divisions a network into at most so many parts, or into one where that is 0. It fails only for want of memory; the world
/// is gone then.
pub fn divide_network(
    alloc: Global,
    world: World,
    most: usize,
) -> Result<DividedNetwork, AllocError>
    requires few { length world.boxes ≤ NETWORK_LIMIT }
    ensures divided { IfOk result IsDividedNetwork }
    ensures state { IfOk result (λ network. network_state network ≡ new_state world) }
{
    let calm = none_shifts(world.boxes());
    let mut frame = world.into_parts();
    let boxes = mem::replace(&mut frame.boxes, Vec::new(alloc));
    let lanes = mem::replace(&mut frame.lanes, Vec::new(alloc));
    let division = divide(alloc, &frame.channels, boxes.len(), most)?;
    let Wiring { ports, crossings } = wire(alloc, &division, &frame.channels)?;
    let runs = lay_parts(alloc, &division, &frame.channels, &lanes, boxes, ports)?;
    let logs = lay_logs(alloc, &division, &crossings)?;
    let programs = some_program(&runs);
    Ok(DividedNetwork {
        frame,
        assigned: division.assigned,
        numbers: division.numbers,
        runs,
        logs,
        crossings,
        calm,
        programs,
        free: false,
    })
}

// Whether a box of some part has a program.
fn some_program(runs: &[PartRun]) -> bool {
    runs.iter().any(|run| has_program(run.part.engine.boxes()))
}

// Whether one of these boxes has a program.
fn has_program(boxes: &[MediaBox]) -> bool {
    boxes.iter().any(|home| home.has_program())
}

// Whether no box has an enabled transition.
fn none_shifts(boxes: &[MediaBox]) -> bool
    ensures { IsTrue result → (who : ℕ) → who < length boxes.now
        → is_enabled (slice_index_or boxes.now who no_box) Event.Shift ≡ false }
{
    for home in boxes {
        if home.enabled(&Event::Shift) {
            return false;
        }
    }
    true
}
