// The logs of a phase are put into one list.

ghost use Rattle.std.specs.Prelude.{◌≡◌, ◌<◌, ◌^◌, ℕ, [], length, OnOk};
ghost use Rattle.mc_divided.specs.Phasing.{HaveMerged, logs_in};
ghost use Rattle.mc_divided.specs.Swapping.{HavePairs, closed_run, swapped_log, swapped_run};
ghost use Rattle.mc_merge.specs.Weaving.{AreClimbing, IsKnown, IsWritten, entry_count, log_at, logs_of, numbers_at};
ghost use Rattle.mc_merge.specs.Weaving.{numbers_of, turns_at, turns_of};

use mc_box::Turn;
use mc_part::{PartLog, PartRun, merge};
use std::alloc::AllocError;
use std::mem::swap;

/// Merges the logs of all parts after the turns before, and empties them; stamps begin again from 0. What the parts have
/// written down of their turns goes over as it is. It fails only for want of memory.
pub fn merge_logs(
    runs: &mut [PartRun],
    logs: &mut [PartLog],
    turns: &mut Vec<Turn>,
) -> Result<(), AllocError>
    requires each { length logs.old ≡ length runs.old }
    requires none { (part : ℕ) → log_at (logs_of logs.old) part ≡ [] }
    requires few { entry_count (logs_in runs.old) < 2 ^ 32 }
    requires known { (part : ℕ) → IsKnown (numbers_at (numbers_of logs.old) part) (log_at (logs_in runs.old) part) }
    requires climb { AreClimbing (logs_in runs.old) }
    requires written { (part : ℕ) → IsWritten (numbers_at (numbers_of logs.old) part) (log_at (logs_in runs.old) part)
        (turns_at (turns_of logs.old) part) }
    ensures { OnOk result (HaveMerged runs.old runs.new logs.old logs.new turns.old.items turns.new.items) }
{
    swap_logs(runs, logs);
    merge(logs, turns)?;
    close(runs, logs);
    Ok(())
}

// Gives the logs of all parts away, and takes these.
fn swap_logs(runs: &mut [PartRun], logs: &mut [PartLog])
    requires { length logs.old ≡ length runs.old }
    ensures { HavePairs swapped_run swapped_log runs.old runs.new logs.old logs.new }
{
    for place in 0..runs.len() {
        swap_log(&mut runs[place], &mut logs[place]);
    }
}

// The same of one part.
fn swap_log(run: &mut PartRun, log: &mut PartLog)
    ensures run { run.new ≡ swapped_run run.old log.old }
    ensures log { log.new ≡ swapped_log run.old log.old }
{
    swap(&mut run.part.log, &mut log.made);
}

// Takes the logs back, and sets all stamps to 0.
fn close(runs: &mut [PartRun], logs: &mut [PartLog])
    requires { length logs.old ≡ length runs.old }
    ensures { HavePairs closed_run swapped_log runs.old runs.new logs.old logs.new }
{
    for place in 0..runs.len() {
        close_log(&mut runs[place], &mut logs[place]);
    }
}

// The same of one part.
fn close_log(run: &mut PartRun, log: &mut PartLog)
    ensures run { run.new ≡ closed_run run.old log.old }
    ensures log { log.new ≡ swapped_log run.old log.old }
{
    swap_log(run, log);
    run.part.stamp = 0;
    run.part.heard = 0;
}
