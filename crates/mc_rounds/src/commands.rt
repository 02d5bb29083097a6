// The commands of a settle.

ghost use Rattle.std.specs.Prelude.{◌≡◌, IfOk, OnOk};
ghost use Rattle.mc_model.specs.Shapes.{AreAllowed};
ghost use Rattle.mc_divided.specs.Networks.{IsDividedNetwork, network_state};
ghost use Rattle.mc_rounds.specs.Playing.{UsesUp};
ghost use Rattle.mc_rounds.specs.Settling.{HasBatch};

use mc_box::Turn;
use mc_divided::{DividedNetwork, add_command, begin_settle, has_commands, run_phase};
use mc_io::Gate;
use std::alloc::AllocError;
use std::thread::Threads;

/// A settle begins, with the commands of a batch.
pub fn begin(network: &mut DividedNetwork, batch: &[Turn]) -> Result<(), AllocError>
    requires divided { IsDividedNetwork network.old }
    requires allowed { AreAllowed (network_state network.old).world batch.now }
    ensures divided { OnOk result (IsDividedNetwork network.new) }
    ensures has { OnOk result (HasBatch (network_state network.old).world batch.now (network_state network.new)) }
{
    begin_settle(network);
    for turn in batch {
        add_command(network, *turn)?;
    }
    Ok(())
}

/// Phases until all commands are used up, or a box stops at a last version: that box and the slot.
pub fn use_up<R: Threads + Sync, G: Gate + Sync>(
    rt: &R,
    gate: &G,
    short: bool,
    network: &mut DividedNetwork,
    turns: &mut Vec<Turn>,
) -> Result<Option<(u32, u8)>, AllocError>
    requires { IsDividedNetwork network.old }
    ensures divided { OnOk result (IsDividedNetwork network.new) }
    ensures used { IfOk result (UsesUp (network_state network.old) (network_state network.new)
        turns.old.items turns.new.items) }
{
    'phases: while has_commands(network) {
        let last = run_phase(rt, gate, false, short, network, turns)?;
        if last.is_some() {
            return Ok(last);
        }
    }
    Ok(None)
}
