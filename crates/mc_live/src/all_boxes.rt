// All boxes side by side.

ghost use Rattle.std.specs.Prelude.{◌≡◌, length};
ghost use Rattle.std.specs.List.{AllByRecursion};
ghost use Rattle.std.specs.Thread.{IsSync};
ghost use Rattle.mc_desk.specs.Desks.{operator_count};
ghost use Rattle.mc_live.specs.BoxRuns.{AreNewRuns, HaveRunFreely};

use crate::box_run::BoxRun;
use crate::running::run_box;
use mc_desk::Desk;
use mc_flight::Flight;
use mc_io::Gate;
use std::sync::Wait;
use std::thread::{Threads, join_mut};

/// Runs all boxes side by side, each at the desk of its place and on a thread of its own where one can be made, until
/// each is over.
pub fn run_boxes<R: Threads + Wait + Sync, G: Gate + Sync>(
    rt: &R,
    gate: &G,
    operators: u32,
    desks: &[Desk],
    flight: &Flight,
    runs: &mut [BoxRun],
)
    requires operators { AllByRecursion (λ desk. operators ≡ operator_count desk) desks.now }
    requires new { AreNewRuns flight.now desks.now runs.old }
    ensures { HaveRunFreely desks.now runs.old runs.new }
{
    if runs.is_empty() {
        return;
    }
    if runs.len() == 1 {
        run_box(rt, gate, operators, &desks[0], flight, &mut runs[0]);
        return;
    }
    let middle = runs.len() / 2;
    let (front_desks, back_desks) = desks.split_at(middle);
    let (front, back) = runs.split_at_mut(middle);
    join_mut(
        rt,
        &mut ||
            requires { IsSync R.row × IsSync G.row
                × AllByRecursion (λ desk. operators ≡ operator_count desk) front_desks.now
                × AreNewRuns flight.now front_desks.now front.now }
            ensures { HaveRunFreely front_desks.entry.now front.entry.now front.exit.now }
        { run_boxes(rt, gate, operators, front_desks, flight, front) },
        &mut ||
            requires { IsSync R.row × IsSync G.row
                × AllByRecursion (λ desk. operators ≡ operator_count desk) back_desks.now
                × AreNewRuns flight.now back_desks.now back.now }
            ensures { HaveRunFreely back_desks.entry.now back.entry.now back.exit.now }
        { run_boxes(rt, gate, operators, back_desks, flight, back) },
    );
}
