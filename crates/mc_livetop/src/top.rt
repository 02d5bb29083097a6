// The top call.

ghost use Rattle.std.specs.Prelude.{◌≡◌, ◌⊎◌, ◌==◌, ◌≤◌, ◌<◌, ℕ, Bool, List, [], length, map, IfOk, IsFalse, IsTrue, Some};
ghost use Rattle.mc_call.specs.Answers.{Answers};
ghost use Rattle.mc_call.specs.Calls.{GivesUp, HasReadWhole, PrintsUsage};
ghost use Rattle.mc_call.specs.Reasons.{EndsFor, Explains, IsFaultOf, IsFaultOfTold, usage_reason};
ghost use Rattle.mc_call.specs.Statuses.{judges_text, keeps_journal};
ghost use Rattle.mc_io.specs.Bytes.{ConsumesAtMost};
ghost use Rattle.mc_io.specs.Faults.{Rose, faults_after};
ghost use Rattle.mc_lines.specs.Rules.{read_limit};
ghost use Rattle.mc_lines.specs.declared.limit.TheConstants.{COMMAND_LIMIT};
ghost use Rattle.mc_lines.specs.declared.tail.Tail.TheVariants.{Nothing};
ghost use Rattle.mc_livetop.specs.Journals.{IsLiveJournalTo};
ghost use Rattle.mc_livetop.specs.Printed.{live_output};
ghost use Rattle.mc_livetop.specs.Statuses.{IsDue, IsDueForLive, IsDueForText};
ghost use Rattle.mc_livetop.specs.Texts.{CanRunLive};
ghost use Rattle.mc_livetop.specs.Top.{EndsLive};
ghost use Rattle.mc_livetop.specs.Words.{AskForLive, IsLiveCommand, MayAsk};
ghost use Rattle.mc_model.specs.Shapes.{AreAllAllowed};
ghost use Rattle.mc_net.specs.Nets.{DeclaresNet, NamesAll, batch_turns};

use crate::run::run_live;
use crate::words::{LiveCommand, read_live};
use mc_call::status::{NO_MEMORY, READ_FAULT, USAGE, WORKED, WRITE_FAULT};
use mc_call::{Done, give_up, refuse_text, refuse_words, stop_reason};
use mc_explain::Reason;
use mc_io::{Gate, Sink, Source, SourceFault, read_up_to};
use mc_net::{Net, NetFault, TEXT_LIMIT, Tail, read_net};
use mc_script_end::{Run, deliver_run, with_journal};
use std::alloc::{AllocError, Global};
use std::sync::Wait;
use std::thread::Threads;

// Runs the script of the network that a text declares. After what it prints stands its journal, where it is asked for:
// all that is in the journal of a script that comes to its end is named.
fn run_by_net<R: Threads + Wait + Sync, G: Gate + Sync>(
    rt: &R,
    alloc: Global,
    gate: &G,
    command: LiveCommand,
    text: &[u8],
    net: Net,
) -> Result<Run, AllocError>
    requires operators { MayAsk command.operators }
    requires declares { DeclaresNet Nothing text.now net }
    requires named { NamesAll net.names net.world }
    requires allowed { AreAllAllowed net.world (map batch_turns net.batches.items) }
    requires few { length net.batches.items ≤ COMMAND_LIMIT }
    ensures ran { IfOk result (λ run. IsLiveJournalTo command.operators run.stop net.world
        (map batch_turns net.batches.items) run.journal.items) }
    ensures output { IfOk result (λ run. run.output.items
        ≡ live_output command.journal net.names net.world run.stop run.journal.items) }
{
    let Net {
        world,
        names,
        batches,
        ..
    } = net;
    world.keeps();
    let run = run_live(rt, alloc, gate, command.operators, &names, world, &batches)?;
    with_journal(alloc, command.journal, &names, run)
}

// Runs the script of the network that a text declares, and writes what it prints.
fn run_net<R: Threads + Wait + Sync, K: Sink, G: Gate + Sync>(
    rt: &R,
    alloc: Global,
    gate: &G,
    command: LiveCommand,
    text: &[u8],
    net: Net,
    sink: &mut K,
) -> Done
    requires operators { MayAsk command.operators }
    requires declares { DeclaresNet Nothing text.now net }
    requires named { NamesAll net.names net.world }
    requires allowed { AreAllAllowed net.world (map batch_turns net.batches.items) }
    requires few { length net.batches.items ≤ COMMAND_LIMIT }
    ensures ends { EndsLive command.operators command.journal (Some text.now)
        (K.written sink.old) (K.written sink.new) result }
    ensures answers { Answers IsDueForText (IsFaultOf Nothing text.now)
        (K.written sink.old) (K.written sink.new) (K.faults sink.old) (K.faults sink.new) result }
{
    net.world.keeps();
    let Ok(run) = run_by_net(rt, alloc, gate, command, text, net) else {
        return give_up(alloc, NO_MEMORY, Reason::NoMemory);
    };
    let Ok(reason) = stop_reason(alloc, run.stop, &run.output, &run.journal) else {
        return give_up(alloc, NO_MEMORY, Reason::NoMemory);
    };
    deliver_run(sink, run, reason)
}

// The same for a text, which may have a fault.
fn run_text<R: Threads + Wait + Sync, K: Sink, G: Gate + Sync>(
    rt: &R,
    alloc: Global,
    gate: &G,
    command: LiveCommand,
    text: &[u8],
    sink: &mut K,
) -> Done
    requires { MayAsk command.operators }
    ensures ends { EndsLive command.operators command.journal (Some text.now)
        (K.written sink.old) (K.written sink.new) result }
    ensures answers { Answers IsDueForText (IsFaultOf Nothing text.now)
        (K.written sink.old) (K.written sink.new) (K.faults sink.old) (K.faults sink.new) result }
{
    match read_net(alloc, text, Tail::Nothing) {
        Ok(net) => run_net(rt, alloc, gate, command, text, net, sink),
        Err(NetFault::Line(fault)) => refuse_text(alloc, Tail::Nothing, text, fault, sink),
        Err(NetFault::NoMemory(_)) => give_up(alloc, NO_MEMORY, Reason::NoMemory),
    }
}

// The same for the text that the source has left.
fn run_source<R: Threads + Wait + Sync, S: Source, K: Sink, G: Gate + Sync>(
    rt: &R,
    alloc: Global,
    gate: &G,
    command: LiveCommand,
    source: &mut S,
    sink: &mut K,
) -> Done
    requires { MayAsk command.operators }
    ensures ends { EndsLive command.operators command.journal (S.left source.old)
        (K.written sink.old) (K.written sink.new) result }
    ensures read_whole { IsTrue (judges_text result.due)
        → HasReadWhole Nothing (S.left source.old) (S.left source.new) }
    ensures at_most { ConsumesAtMost (S.left source.old) (S.left source.new) (read_limit Nothing) }
    ensures read_fault { S.faults source.new ≡ faults_after (S.faults source.old) (result.due == READ_FAULT) }
    ensures answers { Answers IsDueForLive (IsFaultOfTold Nothing (S.left source.old))
        (K.written sink.old) (K.written sink.new) (K.faults sink.old) (K.faults sink.new) result }
{
    match read_up_to(alloc, source, TEXT_LIMIT) {
        Ok(text) => run_text(rt, alloc, gate, command, &text, sink),
        Err(SourceFault::Failed) => give_up(alloc, READ_FAULT, Reason::ReadFault),
        Err(SourceFault::NoMemory(_)) => give_up(alloc, NO_MEMORY, Reason::NoMemory),
    }
}

/// Runs the script of the text that the source has left live, as the words ask for it, and writes what it prints.
///
/// The order is: words, reading, the text, its settles, writing. Nothing is written before all output is built. At most
/// one byte more than the limit of a text is read, and nothing where the words are no command. For each settle all
/// boxes run freely, each on a thread, while the operators ask for its commands from threads of their own; that the
/// call returns isn't promised, as these may wait.
pub fn live_top<R: Threads + Wait + Sync, S: Source, K: Sink, G: Gate + Sync>(
    rt: &R,
    alloc: Global,
    words: Vec<String>,
    source: &mut S,
    sink: &mut K,
    gate: &G,
) -> Done
    ensures statuses { IsDue result.due }
    ensures status { (result.status ≡ result.due) ⊎ (result.status ≡ WRITE_FAULT) }

    // USAGE comes exactly where the words are no command.
    ensures usage { result.due ≡ USAGE → ¬ AskForLive words.items }
    ensures usage_output { result.due ≡ USAGE → PrintsUsage (K.written sink.old) (K.written sink.new) result }
    ensures usage_reason { result.due ≡ USAGE → EndsFor (usage_reason words.items) USAGE result }

    // Where they are one, this was printed and kept for the text. Else the only other end is want of memory.
    ensures ends { (operators : ℕ) (journal : Bool) → IsLiveCommand words.items operators journal
        → EndsLive operators journal (S.left source.old) (K.written sink.old) (K.written sink.new) result }
    ensures no_command { ¬ AskForLive words.items
        → (result.due ≡ USAGE) ⊎ GivesUp (K.written sink.old) (K.written sink.new) result }
    ensures no_journal { IsFalse (keeps_journal result.due) → result.journal.items ≡ [] }

    // Where they are no command, nothing is read. Where they are one, a text is judged only where it was read whole.
    ensures unread { ¬ AskForLive words.items → source.new ≡ source.old }
    ensures read_whole { IsTrue (judges_text result.due)
        → HasReadWhole Nothing (S.left source.old) (S.left source.new) }
    ensures at_most { AskForLive words.items
        → ConsumesAtMost (S.left source.old) (S.left source.new) (read_limit Nothing) }

    // The causes of faults: a call of the source or the sink failed exactly where this is answered.
    ensures read_fault { S.faults source.new ≡ faults_after (S.faults source.old) (result.due == READ_FAULT) }
    ensures write_fault { K.faults sink.new ≡ faults_after (K.faults sink.old) (result.status == WRITE_FAULT) }

    // What is to be told a person explains the status, by what was printed and, for a fault, by the text.
    ensures reason { Explains (IsFaultOfTold Nothing (S.left source.old)) result.reason result.status
        (K.written sink.old) (K.written sink.new) result.journal.items }

    // Where the text can be run live by so many operators and no fault was counted, it is, but for want of memory.
    ensures complete { (operators : ℕ) (journal : Bool) (text : List ℕ)
        → IsLiveCommand words.items operators journal → S.left source.old ≡ Some text → CanRunLive operators text
        → ¬ Rose (S.faults source.old) (S.faults source.new) → ¬ Rose (K.faults sink.old) (K.faults sink.new)
        → (result.status ≡ WORKED) ⊎ (result.status ≡ NO_MEMORY) }
{
    let Ok(read) = read_live(alloc, &words) else {
        return give_up(alloc, NO_MEMORY, Reason::NoMemory);
    };
    match read {
        Some(command) => run_source(rt, alloc, gate, command, source, sink),
        None => refuse_words(alloc, &words, sink),
    }
}
