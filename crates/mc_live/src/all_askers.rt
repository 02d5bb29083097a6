// All operators side by side.

ghost use Rattle.std.specs.Prelude.{length};
ghost use Rattle.std.specs.Thread.{IsSync};
ghost use Rattle.mc_live.specs.Askers.{AreNewAskers, HaveAsked};

use crate::asker::Asker;
use crate::asking::ask_all;
use mc_box::Turn;
use mc_desk::Desk;
use mc_io::Gate;
use std::sync::Wait;
use std::thread::{Threads, join_mut};

/// Lets all operators ask side by side, each for the hand of its place and on a thread of its own where one can be made,
/// until each has ended.
pub fn run_askers<R: Threads + Wait + Sync, G: Gate + Sync>(
    rt: &R,
    gate: &G,
    desks: &[Desk],
    hands: &[Vec<Turn>],
    askers: &mut [Asker],
)
    requires { AreNewAskers desks.now hands.now askers.old }
    ensures { HaveAsked hands.now askers.old askers.new }
{
    if askers.is_empty() {
        return;
    }
    if askers.len() == 1 {
        ask_all(rt, gate, desks, &hands[0], &mut askers[0]);
        return;
    }
    let middle = askers.len() / 2;
    let (front_hands, back_hands) = hands.split_at(middle);
    let (front, back) = askers.split_at_mut(middle);
    join_mut(
        rt,
        &mut ||
            requires { IsSync R.row × IsSync G.row × AreNewAskers desks.now front_hands.now front.now }
            ensures { HaveAsked front_hands.entry.now front.entry.now front.exit.now }
        { run_askers(rt, gate, desks, front_hands, front) },
        &mut ||
            requires { IsSync R.row × IsSync G.row × AreNewAskers desks.now back_hands.now back.now }
            ensures { HaveAsked back_hands.entry.now back.entry.now back.exit.now }
        { run_askers(rt, gate, desks, back_hands, back) },
    );
}
