// Which parts run in a phase.

ghost use Rattle.std.specs.Prelude.{◌<◌, length, IsFalse};
ghost use Rattle.mc_divided.specs.Phasing.{AreChosen, IsChosen, WakesUp};
ghost use Rattle.mc_part.specs.Phases.{EachChanged};
ghost use Rattle.mc_part.specs.Running.{NoneLeft, NothingWaits};

use mc_part::{Part, PartLog, PartRun};

/// Chooses the parts that have something to do, and those that they can reach, which have their clock. Answers how many
/// they are.
pub fn choose(every: bool, logs: &[PartLog], runs: &mut [PartRun]) -> u64
    ensures { AreChosen every runs.old runs.new }
{
    for place in 0..runs.len() {
        begin_run(every, &mut runs[place]);
    }
    for place in 0..runs.len() {
        reach(logs, runs, place);
    }
    runs.iter().filter(|run| run.active).count() as u64
}

// A part is to run, where one with its clock is.
fn reach(logs: &[PartLog], runs: &mut [PartRun], place: usize)
    requires { place < length runs.old }
    ensures { EachChanged WakesUp runs.old runs.new }
{
    let reached = is_reached(logs, runs, place);
    wake(reached, &mut runs[place]);
}

// A part is to run, where this is so.
fn wake(reached: bool, run: &mut PartRun)
    ensures { WakesUp run.old run.new }
{
    if reached {
        run.active = true;
    }
}

// A part is to run, where it has something to do.
fn begin_run(every: bool, run: &mut PartRun)
    ensures { IsChosen every run.old run.new }
{
    run.ended = None;
    run.active = every || has_work(&run.part);
}

// Whether a command is left, or a signal waits.
fn has_work(part: &Part) -> bool
    ensures left { IsFalse result → NoneLeft part.now }
    ensures waits { IsFalse result → NothingWaits part.now }
{
    part.used < part.commands.len() || part.engine.next_take(0).is_some()
}

// Whether a part with the same clock is to run.
fn is_reached(logs: &[PartLog], runs: &[PartRun], place: usize) -> bool {
    for other in 0..runs.len() {
        if runs[other].active && is_same_clock(logs, place, other) {
            return true;
        }
    }
    false
}

// Whether two parts have one clock, or are the same.
fn is_same_clock(logs: &[PartLog], one: usize, two: usize) -> bool {
    match (logs.get(one), logs.get(two)) {
        (Some(first), Some(second)) => first.clock == second.clock,
        _ => one == two,
    }
}
