// How a script ends.
ghost use Rattle.std.specs.Prelude.{◌≡◌, ◌⊎◌, ◌==◌, ◌++◌, ◌<◌, All, length, map, None, Some, IfOk};
ghost use Rattle.mc_call.specs.Calls.{Delivers};
ghost use Rattle.mc_call.specs.Reasons.{EndsFor};
ghost use Rattle.mc_call.specs.Statuses.{due_by};
ghost use Rattle.mc_io.specs.Faults.{faults_after};
ghost use Rattle.mc_journal.specs.Printed.{IsNamedLine};
ghost use Rattle.mc_script.specs.declared.command.JournalLine.TheVariants.{Turn as Made};
ghost use Rattle.mc_script_end.specs.Ends.{EndsAt, EndsBy};
ghost use Rattle.mc_script_end.specs.Printed.{with_journal};
ghost use Rattle.mc_seq.specs.declared.stopping.SettleStop.TheVariants.{Restless};
ghost use Rattle.mc_settle_text.specs.Names.{IsNamedFault, IsNamedPlace};
ghost use Rattle.mc_settle_text.specs.Words.{box_word};
ghost use Rattle.mc_text.specs.NameLists.{slot_word};

use crate::print::put_journal;
use mc_box::Turn;
use mc_call::status::WRITE_FAULT;
use mc_call::{Done, deliver, due_by};
use mc_explain::Reason;
use mc_io::Sink;
use mc_script::JournalLine;
use mc_seq::{SettleFault, SettleStop, Stopped, StoppedBox};
use mc_settle_text::{keep_turns, print_box_stop, print_slot_stop, stop_word};
use mc_text::Names;
use std::alloc::{AllocError, Global};

/// What a script printed, its journal, and why it stopped before its end, if it did.
#[derive(Debug, Drop)]
pub struct Run {
    pub output: Vec<u8>,
    pub journal: Vec<JournalLine>,
    pub stop: Option<SettleStop>,
}

/// After what a script printed its journal, where it is asked for and the script came to its end.
pub fn with_journal(alloc: Global, asked: bool, names: &Names, run: Run) -> Result<Run, AllocError>
    requires { run.stop ≡ None → All (IsNamedLine names.now) run.journal.items }
    ensures journal { IfOk result (λ whole. whole.journal ≡ run.journal) }
    ensures stop { IfOk result (λ whole. whole.stop ≡ run.stop) }
    ensures output { IfOk result (λ whole. whole.output.items
        ≡ with_journal asked run.stop names.now run.journal.items run.output.items) }
{
    if !asked || run.stop.is_some() {
        return Ok(run);
    }
    let Run {
        mut output,
        journal,
        stop,
    } = run;
    put_journal(alloc, names, &journal, &mut output)?;
    Ok(Run {
        output,
        journal,
        stop,
    })
}

/// Ends a script whose settle had a fault, after its journal: the turns up to there are kept, and one line is printed.
///
/// What the fault stopped at is named.
pub fn stop_by(
    alloc: Global,
    names: &Names,
    journal: Vec<JournalLine>,
    fault: SettleFault,
) -> Result<Run, AllocError>
    requires { IsNamedFault names.now fault }
    ensures { IfOk result (λ run. EndsBy names.now journal.items fault run) }
{
    match fault {
        SettleFault::VersionEnd(stopped) => {
            let stop = SettleStop::VersionEnd(stopped.at);
            stop_at(alloc, names, journal, stop, stopped)
        }
        SettleFault::Ring(stopped) => {
            let stop = SettleStop::Ring(stopped.at);
            stop_at(alloc, names, journal, stop, stopped)
        }
        SettleFault::Restless(stopped) => stop_restless(alloc, names, journal, stopped),
        SettleFault::NoMemory(e) => Err(e),
    }
}

// A script that stopped at a slot: the turns up to there are kept, and one line is printed.
fn stop_at(
    alloc: Global,
    names: &Names,
    journal: Vec<JournalLine>,
    stop: SettleStop,
    stopped: Stopped,
) -> Result<Run, AllocError>
    requires { IsNamedPlace names.now stopped.place }
    ensures { IfOk result (λ run. EndsAt stop (slot_word names.now stopped.place.0 stopped.place.1)
        stopped.turns.items journal.items run) }
{
    let output = print_slot_stop(alloc, names, stop_word(stop), stopped.place)?;
    end_at(stop, &stopped.turns, output, journal)
}

// A script that stopped at a box whose program doesn't come to rest, in the same way.
fn stop_restless(
    alloc: Global,
    names: &Names,
    journal: Vec<JournalLine>,
    stopped: StoppedBox,
) -> Result<Run, AllocError>
    requires { stopped.at < length names.now.boxes }
    ensures { IfOk result (λ run. EndsAt (Restless stopped.at) (box_word names.now stopped.at)
        stopped.turns.items journal.items run) }
{
    let stop = SettleStop::Restless(stopped.at);
    let output = print_box_stop(alloc, names, stop_word(stop), stopped.at)?;
    end_at(stop, &stopped.turns, output, journal)
}

// Ends a script at a stop, after these turns.
fn end_at(
    stop: SettleStop,
    turns: &[Turn],
    output: Vec<u8>,
    mut journal: Vec<JournalLine>,
) -> Result<Run, AllocError>
    ensures journal { IfOk result (λ run. run.journal.items ≡ journal.items ++ map Made turns.now) }
    ensures output { IfOk result (λ run. run.output ≡ output) }
    ensures stop { IfOk result (λ run. run.stop ≡ Some stop) }
{
    keep_turns(turns, &mut journal)?;
    Ok(Run {
        output,
        journal,
        stop: Some(stop),
    })
}

/// Writes what a script printed. It was to end so for a reason.
pub fn deliver_run<K: Sink>(sink: &mut K, run: Run, reason: Reason) -> Done
    ensures delivers { Delivers result.status result.due (K.written sink.old) (K.written sink.new) run.output.items }
    ensures due { result.due ≡ due_by run.stop }
    ensures status { (result.status ≡ due_by run.stop) ⊎ (result.status ≡ WRITE_FAULT) }
    ensures journal { result.journal ≡ run.journal }
    ensures reason { EndsFor reason result.due result }
    ensures fault { K.faults sink.new ≡ faults_after (K.faults sink.old) (result.status == WRITE_FAULT) }
{
    let due = due_by(run.stop);
    let Run {
        output,
        journal,
        ..
    } = run;
    deliver(sink, due, &output, journal, reason)
}
