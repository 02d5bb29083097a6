// The settle of a stage.

ghost use Rattle.std.specs.Prelude.{◌≡◌, ◌≤◌, length, IfErr, IfOk};
ghost use Rattle.mc_stages.specs.Plans.{MayCommand};
ghost use Rattle.mc_model.specs.Settles.{IsSettled};
ghost use Rattle.mc_divided.specs.declared.limit.TheConstants.{NETWORK_LIMIT};
ghost use Rattle.mc_rounds.specs.Stops.{Stops};
ghost use Rattle.mc_seq.specs.ShiftLimit.{KeepsShiftLimit};

use mc_box::Turn;
use mc_grow::Grown;
use mc_io::Gate;
use mc_rounds::settle_rounds;
use mc_seq::SettleFault;
use mc_world::Settled;
use std::alloc::Global;
use std::thread::Threads;

/// Settles a batch of a network, none of whose commands is a Set on a slot that is out, in as many parts as processors
/// may be used. What is out stays so. It ends as `mc_rounds::InParts::settle` does; the network is gone where it
/// doesn't rest.
pub fn settle_grown<R: Threads + Sync, G: Gate + Sync>(
    rt: &R,
    alloc: Global,
    gate: &G,
    network: Grown,
    batch: &[Turn],
) -> Result<(Grown, Vec<Turn>), SettleFault>
    requires commands { MayCommand network batch.now }
    requires few { length network.world.boxes ≤ NETWORK_LIMIT }
    ensures settled { IfOk result (λ done. IsSettled network.world batch.now done.1.items done.0.world) }
    ensures out { IfOk result (λ done. done.0.out ≡ network.out) }
    ensures shift_limit { IfOk result (λ done. KeepsShiftLimit done.1.items) }
    ensures stops { IfErr result (Stops network.world batch.now) }
{
    let (world, out) = network.open_up();
    world.keeps();
    let Settled { world, turns } = settle_rounds(rt, alloc, gate, world, batch)?;
    Ok((Grown::put_back(world, out), turns))
}
