// All parts, each on a thread where it has something to do; there it also writes its turns down.

ghost use Rattle.std.specs.Prelude.{◌≡◌, ◌≤◌, length};
ghost use Rattle.std.specs.Thread.{IsSync};
ghost use Rattle.mc_part.specs.declared.limit.TheConstants.{STAMP_LIMIT};
ghost use Rattle.mc_part.specs.Phases.{AreReady, HaveGone, HaveWritten};

use crate::part_run::{PartRun, any_active, play_one};
use mc_io::Gate;
use mc_merge::PartLog;
use std::sync::atomic::AtomicU64;
use std::thread::{Threads, join_mut};

/// Runs these parts, so many, each to its rest or until its log has so many entries, with the retries that they owe
/// first, where these are asked for, and the Shifts of each box where `every` is set: on threads of their own those that
/// have something to do, where there are several such and threads can be made.
///
/// The parts count in `busy` how many of them may still find something; to begin with it is the number of those that
/// have something to do. That ends them sooner, and no clause rests on it.
///
/// The gate is told of each turn by the thread that makes it, as `run_part` says.
///
/// Each part has a log of its own, in which its thread writes its turns down by the network's numbers.
pub fn run_parts<R: Threads + Sync, G: Gate + Sync>(
    rt: &R,
    gate: &G,
    retries: bool,
    every: bool,
    budget: u32,
    size: usize,
    busy: &AtomicU64,
    runs: &mut [PartRun],
    logs: &mut [PartLog],
)
    requires size { size ≡ length runs.old }
    requires logs { size ≡ length logs.old }
    requires budget { budget ≤ STAMP_LIMIT }
    requires ready { AreReady retries every budget runs.old }
    ensures gone { HaveGone retries budget runs.old runs.new }
    ensures written { HaveWritten runs.new logs.old logs.new }
{
    if size < 2 {
        play_few(gate, retries, every, budget, busy, runs, logs);
        return;
    }
    let first = size / 2;
    let second = size - first;
    let (front, back) = runs.split_at_mut(first);
    let (front_logs, back_logs) = logs.split_at_mut(first);
    if !any_active(front) || !any_active(back) {
        run_parts(
            rt, gate, retries, every, budget, first, busy, front, front_logs,
        );
        run_parts(
            rt, gate, retries, every, budget, second, busy, back, back_logs,
        );
        return;
    }
    join_mut(
        rt,
        &mut ||
            requires { IsSync R.row × IsSync G.row × (first ≡ length front.now) × (first ≡ length front_logs.now)
                × (budget ≤ STAMP_LIMIT) × AreReady retries every budget front.now }
            ensures { HaveGone retries budget front.entry.now front.exit.now
                × HaveWritten front.exit.now front_logs.entry.now front_logs.exit.now }
        {
            run_parts(
                rt, gate, retries, every, budget, first, busy, front, front_logs,
            )
        },
        &mut ||
            requires { IsSync R.row × IsSync G.row × (second ≡ length back.now) × (second ≡ length back_logs.now)
                × (budget ≤ STAMP_LIMIT) × AreReady retries every budget back.now }
            ensures { HaveGone retries budget back.entry.now back.exit.now
                × HaveWritten back.exit.now back_logs.entry.now back_logs.exit.now }
        {
            run_parts(
                rt, gate, retries, every, budget, second, busy, back, back_logs,
            )
        },
    );
}

// One part, or none.
fn play_few<G: Gate>(
    gate: &G,
    retries: bool,
    every: bool,
    budget: u32,
    busy: &AtomicU64,
    runs: &mut [PartRun],
    logs: &mut [PartLog],
)
    requires few { length runs.old ≤ 1 }
    requires logs { length runs.old ≡ length logs.old }
    requires budget { budget ≤ STAMP_LIMIT }
    requires ready { AreReady retries every budget runs.old }
    ensures gone { HaveGone retries budget runs.old runs.new }
    ensures written { HaveWritten runs.new logs.old logs.new }
{
    if !runs.is_empty() {
        play_one(
            gate,
            retries,
            every,
            budget,
            busy,
            &mut runs[0],
            &mut logs[0],
        );
    }
}
