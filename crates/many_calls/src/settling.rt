// Batches, settled one after another in parts.

ghost use Rattle.std.specs.Prelude.{◌≡◌, ◌<◌, length, IfOk};
ghost use Rattle.many_calls.specs.Allowed.{AllowsAll, allows_all};

use crate::fault::CallsFault;
use mc_io::OpenGate;
use mc_path::Network;
use mc_rounds::InParts;
use mc_script::Batch;
use mc_seq::fits;
use mc_world::World;
use std::thread::Threads;

/// Whether a world allows each command of these batches.
pub fn allows_all(world: &World, batches: &[Batch]) -> bool
    ensures { result ≡ allows_all world.now batches.now }
{
    batches.iter().all(|batch| fits(world, &batch.turns))
}

// Settles one of these batches. The network, which allows them all after it, too, and how many turns that took.
fn settle_at<R: Threads + Sync + AllocGlobal>(
    rt: &R,
    parted: InParts,
    batches: &[Batch],
    index: usize,
) -> Result<(InParts, u64), CallsFault>
    requires allowed { AllowsAll parted batches.now }
    requires index { index < length batches.now }
    ensures { IfOk result (λ done. AllowsAll done.0 batches.now) }
{
    parted.keeps();
    let batch = &batches[index];
    let (parted, turns) = parted.settle(rt, rt.alloc(), &OpenGate, &batch.turns)?;
    Ok((parted, turns.len() as u64))
}

// Settles these batches.
fn settle_all<R: Threads + Sync + AllocGlobal>(
    rt: &R,
    parted: InParts,
    batches: &[Batch],
) -> Result<(InParts, u64), CallsFault>
    requires { AllowsAll parted batches.now }
    ensures { IfOk result (λ done. AllowsAll done.0 batches.now) }
{
    let mut parted = parted;
    let mut turns: u64 = 0;
    for index in 0..batches.len() {
        let (next, made) = settle_at(rt, parted, batches, index)?;
        parted = next;
        turns = turns.saturating_add(made);
    }
    Ok((parted, turns))
}

/// Settles these batches so many times, and tells how many turns that took. The network allows each of their commands.
pub fn settle_times<R: Threads + Sync + AllocGlobal>(
    rt: &R,
    parted: InParts,
    batches: &[Batch],
    times: u32,
) -> Result<u64, CallsFault>
    requires { AllowsAll parted batches.now }
{
    let mut parted = parted;
    let mut turns: u64 = 0;
    for _time in 0..times {
        let (next, made) = settle_all(rt, parted, batches)?;
        parted = next;
        turns = turns.saturating_add(made);
    }
    Ok(turns)
}
