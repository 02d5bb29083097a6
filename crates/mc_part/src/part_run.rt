// A part in a phase.

ghost use Rattle.std.specs.Prelude.{◌≡◌, ◌≤◌, ◌&&◌, is_ok};
ghost use Rattle.mc_part.specs.declared.limit.TheConstants.{STAMP_LIMIT};
ghost use Rattle.mc_part.specs.Phases.{HasGone, IsReady, WritesTurns};

use crate::knowing::{Known, learn};
use crate::part::Part;
use crate::running::run_part;
use crate::stop::{Ended, PartStop};
use crate::writing::write_turns;
use mc_io::Gate;
use mc_merge::PartLog;
use std::sync::atomic::AtomicU64;

/// A part, whether it has something to do or may get it, how its run ended, and what is known of it.
#[derive(Drop)]
pub struct PartRun {
    pub part: Part,
    pub active: bool,
    pub ended: Option<Result<Ended, PartStop>>,
    pub known: Known,
}

/// Runs a part, if it has something to do, and writes its turns down in its log.
pub(crate) fn play_one<G: Gate>(
    gate: &G,
    retries: bool,
    every: bool,
    budget: u32,
    busy: &AtomicU64,
    run: &mut PartRun,
    log: &mut PartLog,
)
    requires budget { budget ≤ STAMP_LIMIT }
    requires ready { IsReady retries every budget run.old }
    ensures gone { HasGone retries budget run.old run.new }
    ensures written { WritesTurns run.new.part.log.items log.old log.new }
{
    run_one(gate, retries, every, budget, busy, run);
    write_turns(&run.part, log);
}

// Runs a part, if it has something to do.
fn run_one<G: Gate>(
    gate: &G,
    retries: bool,
    every: bool,
    budget: u32,
    busy: &AtomicU64,
    run: &mut PartRun,
)
    requires budget { budget ≤ STAMP_LIMIT }
    requires ready { IsReady retries every budget run.old }
    ensures { HasGone retries budget run.old run.new }
{
    if run.active {
        let ended = run_part(&mut run.part, gate, retries, every, budget, busy);
        let retried = has_retried(retries, &ended);
        run.known = learn(&run.part, run.known, retried);
        run.ended = Some(ended);
    }
}

// Whether a run has made each retry that was owed.
fn has_retried(retries: bool, ended: &Result<Ended, PartStop>) -> bool
    ensures { result ≡ (retries && is_ok ended.now) }
{
    retries && ended.is_ok()
}

/// Whether some part has something to do.
pub(crate) fn any_active(runs: &[PartRun]) -> bool {
    runs.iter().any(|run| run.active)
}
