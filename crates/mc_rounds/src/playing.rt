// Phases after the commands.

ghost use Rattle.std.specs.Prelude.{◌≡◌, false, IfOk, OnOk};
ghost use Rattle.mc_box.specs.BoxEvents.{is_shift};
ghost use Rattle.mc_model.specs.Paths.{has_ring};
ghost use Rattle.mc_divided.specs.Networks.{IsDividedNetwork, network_state};
ghost use Rattle.mc_divided.specs.States.{NoneLeft};
ghost use Rattle.mc_rounds.specs.Playing.{GoesOn, Retries, some_shift};

use mc_box::{Event, Turn};
use mc_divided::{DividedNetwork, owes_retry, run_phase};
use mc_io::Gate;
use std::alloc::AllocError;
use std::thread::Threads;

/// Phases to the first in which a Shift comes, or until nothing is left to do. Whether a Shift came. There is no ring,
/// so Takes alone come to an end.
pub fn go_on<R: Threads + Sync, G: Gate + Sync>(
    rt: &R,
    gate: &G,
    short: bool,
    network: &mut DividedNetwork,
    turns: &mut Vec<Turn>,
) -> Result<bool, AllocError>
    requires divided { IsDividedNetwork network.old }
    requires used_up { NoneLeft (network_state network.old) }
    requires free { has_ring (network_state network.old).world ≡ false }
    ensures divided { OnOk result (IsDividedNetwork network.new) }
    ensures went { IfOk result (GoesOn (network_state network.old) (network_state network.new)
        turns.old.items turns.new.items) }
{
    'phases: loop {
        let before = turns.len();
        if run_phase(rt, gate, false, short, network, turns)?.is_some() {
            unreachable!()
        }
        if turns.len() == before {
            return Ok(false);
        }
        if has_shift(&turns[before..]) {
            return Ok(true);
        }
    }
}

/// A phase in which each retry that is owed comes first, where one is. Whether a Shift came in it. So no thread is taken
/// for nothing.
pub fn retry<R: Threads + Sync, G: Gate + Sync>(
    rt: &R,
    gate: &G,
    short: bool,
    network: &mut DividedNetwork,
    turns: &mut Vec<Turn>,
) -> Result<bool, AllocError>
    requires divided { IsDividedNetwork network.old }
    requires used_up { NoneLeft (network_state network.old) }
    ensures divided { OnOk result (IsDividedNetwork network.new) }
    ensures retried { IfOk result (Retries (network_state network.old) (network_state network.new)
        turns.old.items turns.new.items) }
{
    if !owes_retry(network) {
        return Ok(false);
    }
    let before = turns.len();
    if run_phase(rt, gate, true, short, network, turns)?.is_some() {
        unreachable!()
    }
    Ok(has_shift(&turns[before..]))
}

/// Whether a Shift is among these turns.
pub fn has_shift(turns: &[Turn]) -> bool
    ensures { result ≡ some_shift turns.now }
{
    turns.iter().any(|turn| is_shift(turn.event))
}

/// Whether an event is a Shift.
pub fn is_shift(event: Event) -> bool
    ensures { result ≡ is_shift event }
{
    matches!(event, Event::Shift)
}
