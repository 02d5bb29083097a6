// Operators and boxes side by side.

ghost use Rattle.std.specs.Prelude.{◌≡◌};
ghost use Rattle.std.specs.List.{AllByRecursion};
ghost use Rattle.std.specs.Thread.{IsSync};
ghost use Rattle.mc_desk.specs.Desks.{operator_count};
ghost use Rattle.mc_live.specs.Askers.{AreNewAskers, HaveAsked};
ghost use Rattle.mc_live.specs.BoxRuns.{AreNewRuns, HaveRunFreely};

use crate::all_askers::run_askers;
use crate::all_boxes::run_boxes;
use crate::asker::Asker;
use crate::box_run::BoxRun;
use mc_box::Turn;
use mc_desk::Desk;
use mc_flight::Flight;
use mc_io::Gate;
use std::sync::Wait;
use std::thread::{Threads, join_mut};

/// Lets all boxes run freely while all operators ask them for their hands, until each operator has ended and each box is
/// over. No clause tells that it returns: where threads can't be made, an operator may wait for a box that comes after
/// it.
pub fn run_together<R: Threads + Wait + Sync, G: Gate + Sync>(
    rt: &R,
    gate: &G,
    operators: u32,
    desks: &[Desk],
    flight: &Flight,
    hands: &[Vec<Turn>],
    askers: &mut [Asker],
    runs: &mut [BoxRun],
)
    requires operators { AllByRecursion (λ desk. operators ≡ operator_count desk) desks.now }
    requires askers { AreNewAskers desks.now hands.now askers.old }
    requires runs { AreNewRuns flight.now desks.now runs.old }
    ensures asked { HaveAsked hands.now askers.old askers.new }
    ensures ran { HaveRunFreely desks.now runs.old runs.new }
{
    join_mut(
        rt,
        &mut ||
            requires { IsSync R.row × IsSync G.row × AreNewAskers desks.now hands.now askers.now }
            ensures { HaveAsked hands.entry.now askers.entry.now askers.exit.now }
        { run_askers(rt, gate, desks, hands, askers) },
        &mut ||
            requires { IsSync R.row × IsSync G.row
                × AllByRecursion (λ desk. operators ≡ operator_count desk) desks.now
                × AreNewRuns flight.now desks.now runs.now }
            ensures { HaveRunFreely desks.entry.now runs.entry.now runs.exit.now }
        { run_boxes(rt, gate, operators, desks, flight, runs) },
    );
}
