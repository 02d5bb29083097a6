// Rounds to which memory is refused. `bench/refused` has each growth of memory fail in turn.

ghost use Rattle.std.specs.Prelude.{◌≡◌, ◌≤◌, IfOk};
ghost use Rattle.mc_worker.specs.Ready.{IsReady};
ghost use Rattle.mc_worker.specs.declared.limit.TheConstants.{FIRST_STAMP_LIMIT};

use crate::phones::{phones, round};
use crate::rounds::{HOLDS, OPENS, has_logged};
use mc_box::Event;
use mc_worker::limit::FIRST_STAMP_LIMIT;
use mc_worker::{Stop, Worker};
use std::alloc::{AllocError, Global};
use std::process::Abort;

// A round, called again where memory was refused.
fn round_again(worker: &mut Worker) -> Stop
    requires ready { IsReady worker.old }
    requires stamp { worker.old.stamp ≤ FIRST_STAMP_LIMIT }
{
    let end = round(worker);
    match end.stop {
        Stop::NoMemory(_) if worker.stamp <= FIRST_STAMP_LIMIT => { round(worker).stop }
        stop => stop,
    }
}

// Such a round of the phone rests, and leaves this log.
fn rests_at_last(rt: &impl Abort, phone: &mut Worker, log: &[(u32, Event)])
    requires ready { IsReady phone.old }
    requires stamp { phone.old.stamp ≤ FIRST_STAMP_LIMIT }
{
    assert!(rt; matches!(round_again(phone), Stop::Rested));
    has_logged(rt, &mut phone.log, log);
}

// Two phones, made again where memory was refused.
fn phones_at_last(alloc: Global) -> Result<(Worker, Worker), AllocError>
    ensures ready { IfOk result (λ both. IsReady both.0 × IsReady both.1) }
    ensures stamps { IfOk result (λ both. (both.0.stamp ≡ 0) × (both.1.stamp ≡ 0)) }
{
    match phones(alloc) {
        Ok(both) => Ok(both),
        Err(_) => phones(alloc),
    }
}

#[test]
fn refused_memory_loses_nothing(rt: HostRuntime) -> Result<(), AllocError> {
    let (mut alice, mut bob) = phones_at_last(rt.alloc())?;
    rests_at_last(&rt, &mut alice, &[(1, OPENS)]);
    rests_at_last(&rt, &mut bob, &[(1, HOLDS), (2, Event::Take(0))]);
    Ok(())
}
