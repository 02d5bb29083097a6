// Settles of worlds, each of which is divided into parts for one batch.

ghost use Rattle.std.specs.Prelude.{◌≤◌, length, IfErr, IfOk};
ghost use Rattle.mc_model.specs.Settles.{IsSettled};
ghost use Rattle.mc_model.specs.Shapes.{AreAllowed};
ghost use Rattle.mc_divided.specs.declared.limit.TheConstants.{NETWORK_LIMIT};
ghost use Rattle.mc_rounds.specs.Stops.{Stops};
ghost use Rattle.mc_seq.specs.ShiftLimit.{KeepsShiftLimit};

use crate::in_parts::{InParts, part_count};
use mc_box::Turn;
use mc_io::Gate;
use mc_seq::SettleFault;
use mc_world::{Settled, World};
use std::alloc::Global;
use std::thread::Threads;

/// Settles one batch of a world, which is divided into at most so many parts for it, and put together again. Who settles
/// several batches keeps the parts (`InParts`).
///
/// The world allows each command, and has at most `mc_divided::limit::NETWORK_LIMIT` boxes. It ends as `InParts::settle`
/// does; the world is gone where it doesn't rest.
pub fn settle_world<R: Threads + Sync, G: Gate + Sync>(
    rt: &R,
    alloc: Global,
    gate: &G,
    world: World,
    parts: usize,
    batch: &[Turn],
) -> Result<Settled, SettleFault>
    requires allowed { AreAllowed world batch.now }
    requires few { length world.boxes ≤ NETWORK_LIMIT }
    ensures settled { IfOk result (λ done. IsSettled world batch.now done.turns.items done.world) }
    ensures shift_limit { IfOk result (λ done. KeepsShiftLimit done.turns.items) }
    ensures stops { IfErr result (Stops world batch.now) }
{
    let network = InParts::new(alloc, world, parts)?;
    let (network, turns) = network.settle(rt, alloc, gate, batch)?;
    let world = network.into_world(alloc)?;
    Ok(Settled { world, turns })
}

/// Settles one batch of a world in as many parts as processors may be used, and two at least (`settle_world`).
pub fn settle_rounds<R: Threads + Sync, G: Gate + Sync>(
    rt: &R,
    alloc: Global,
    gate: &G,
    world: World,
    batch: &[Turn],
) -> Result<Settled, SettleFault>
    requires allowed { AreAllowed world batch.now }
    requires few { length world.boxes ≤ NETWORK_LIMIT }
    ensures settled { IfOk result (λ done. IsSettled world batch.now done.turns.items done.world) }
    ensures shift_limit { IfOk result (λ done. KeepsShiftLimit done.turns.items) }
    ensures stops { IfErr result (Stops world batch.now) }
{
    settle_world(rt, alloc, gate, world, part_count(rt), batch)
}
