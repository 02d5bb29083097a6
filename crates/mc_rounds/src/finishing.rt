// The end of a settle.

ghost use Rattle.std.specs.Prelude.{◌≡◌, ◌||◌, false, List, IfOk, OnOk};
ghost use Rattle.mc_box.specs.declared.event.Turn.{Turn};
ghost use Rattle.mc_model.specs.Paths.{has_ring};
ghost use Rattle.mc_model.specs.Worlds.{WorldState};
ghost use Rattle.mc_divided.specs.Networks.{IsDividedNetwork, network_state};
ghost use Rattle.mc_divided.specs.States.{NetworkState, NoneLeft};
ghost use Rattle.mc_rounds.specs.Playing.{Plays};
ghost use Rattle.mc_rounds.specs.Settling.{EndsSettle, HasBatch};
ghost use Rattle.mc_rounds.specs.Since.{CountsShifts};

use crate::playing::retry;
use crate::resting::come_to_rest;
use crate::shifting::first_shifter_since;
use mc_box::Turn;
use mc_divided::{DividedNetwork, end_settle};
use mc_io::Gate;
use mc_seq::SettleStop;
use std::alloc::{AllocError, Global};
use std::thread::Threads;

/// The end of a settle whose commands are used up: it comes to rest again and again, with a phase of retries between,
/// once and whenever a Shift came since. There may be a ring before it only where slots were linked.
pub fn finish<R: Threads + Sync, G: Gate + Sync>(
    rt: &R,
    alloc: Global,
    gate: &G,
    linked: bool,
    network: &mut DividedNetwork,
    turns: &mut Vec<Turn>,
) -> Result<Option<SettleStop>, AllocError>
    requires divided { IsDividedNetwork network.old }
    requires used_up { NoneLeft (network_state network.old) }
    requires counted { CountsShifts turns.old.items (network_state network.old) }
    requires free { linked ≡ false → has_ring (network_state network.old).world ≡ false }
    ensures divided { OnOk result (IsDividedNetwork network.new) }
    ensures ended { IfOk result (λ ending. (world : WorldState) (batch : List Turn) (start : NetworkState)
        → HasBatch world batch start → Plays start (network_state network.old) turns.old.items
        → EndsSettle world batch turns.new.items (network_state network.new).world ending) }
{
    let short = network.programs;
    let mut linked = linked;
    let mut due = true;
    'rests: loop {
        let rest = come_to_rest(rt, alloc, gate, short, linked, network, turns)?;
        if let Some(at) = rest.ring {
            return Ok(Some(SettleStop::Ring(at)));
        }
        if let Some(at) = first_shifter_since(network, turns) {
            return Ok(Some(SettleStop::Restless(at)));
        }
        if !is_due(due, rest.shifted) {
            end_settle(network);
            return Ok(None);
        }
        due = retry(rt, gate, short, network, turns)?;
        linked = due;
    }
}

// Whether a phase of retries is due at a rest: it was before, or a Shift came since.
fn is_due(due: bool, shifted: bool) -> bool
    ensures { result ≡ (due || shifted) }
{
    due || shifted
}
