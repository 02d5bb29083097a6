// The one line that is written in place of a call's work, and what is told with it.

ghost use Rattle.std.specs.Prelude.{◌≡◌, []};
ghost use Rattle.mc_call.specs.Answers.{Answers, IsDueOrMemory, IsToldAs, Refuses, TellsNothing};
ghost use Rattle.mc_call.specs.Calls.{PrintsUsage};
ghost use Rattle.mc_call.specs.Printed.{fault_line, feature_words, journal_fault_line, no_box_line};
ghost use Rattle.mc_call.specs.Reasons.{EndsFor, of_box, of_journal, of_text, usage_reason};
ghost use Rattle.mc_explain.specs.Reasons.{line_at};
ghost use Rattle.mc_net.specs.Details.{fault_detail};
ghost use Rattle.mc_net.specs.Nets.{NamesAll};
ghost use Rattle.mc_net.specs.Texts.{IsFault};

use crate::behind::TailPlace;
use crate::done::{Done, deliver, give_up};
use crate::printing::{print_fault, print_journal_fault, print_no_box};
use crate::reasons::no_box_reason;
use crate::status::{FAULTY_TEXT, JOURNAL_FAULT, NO_BOX, NO_MEMORY, USAGE};
use mc_explain::Reason;
use mc_io::Sink;
use mc_net::{Detail, Tail, TextFault, fault_detail};
use mc_text::Names;
use mc_words::asks_for_help;
use mc_world::World;
use std::alloc::Global;

/// Writes the line of a text's first fault, of which this much more is known. The line of the text is kept for what is
/// told.
pub fn refuse_line<K: Sink>(
    alloc: Global,
    text: &[u8],
    fault: TextFault,
    detail: Detail,
    sink: &mut K,
) -> Done
    ensures ends { Refuses FAULTY_TEXT (fault_line fault.number fault.line)
        (K.written sink.old) (K.written sink.new) result }
    ensures answers { Answers (IsDueOrMemory FAULTY_TEXT)
        (IsToldAs (of_text fault.number fault.line (line_at fault.line text.now) detail))
        (K.written sink.old) (K.written sink.new) (K.faults sink.old) (K.faults sink.new) result }
{
    let Ok(line) = print_fault(alloc, fault) else {
        return give_up(alloc, NO_MEMORY, Reason::NoMemory);
    };
    match Reason::faulty_text(alloc, fault.number, fault.line, detail, text) {
        Ok(reason) => deliver(sink, FAULTY_TEXT, &line, Vec::new(alloc), reason),
        Err(_) => give_up(alloc, NO_MEMORY, Reason::NoMemory),
    }
}

/// Writes the line of a text's first fault, and finds what else is known of it.
pub fn refuse_text<K: Sink>(
    alloc: Global,
    tail: Tail,
    text: &[u8],
    fault: TextFault,
    sink: &mut K,
) -> Done
    requires { IsFault tail text.now fault.number fault.line }
    ensures ends { Refuses FAULTY_TEXT (fault_line fault.number fault.line)
        (K.written sink.old) (K.written sink.new) result }
    ensures answers { Answers (IsDueOrMemory FAULTY_TEXT)
        (IsToldAs (of_text fault.number fault.line (line_at fault.line text.now)
        (fault_detail tail text.now fault.number fault.line)))
        (K.written sink.old) (K.written sink.new) (K.faults sink.old) (K.faults sink.new) result }
{
    match fault_detail(alloc, text, tail, fault) {
        Ok(detail) => refuse_line(alloc, text, fault, detail, sink),
        Err(_) => give_up(alloc, NO_MEMORY, Reason::NoMemory),
    }
}

/// Writes the line of the first fault of the journal after a text. The line of the text where it stands is kept for
/// what is told.
pub fn refuse_journal<K: Sink>(alloc: Global, text: &[u8], place: TailPlace, sink: &mut K) -> Done
    ensures ends { Refuses JOURNAL_FAULT (journal_fault_line place.number place.turn)
        (K.written sink.old) (K.written sink.new) result }
    ensures answers { Answers (IsDueOrMemory JOURNAL_FAULT)
        (IsToldAs (of_journal place.line (line_at place.line text.now)))
        (K.written sink.old) (K.written sink.new) (K.faults sink.old) (K.faults sink.new) result }
{
    let Ok(line) = print_journal_fault(alloc, place.number, place.turn) else {
        return give_up(alloc, NO_MEMORY, Reason::NoMemory);
    };
    match Reason::faulty_journal(alloc, place.number, place.turn, place.line, text) {
        Ok(reason) => deliver(sink, JOURNAL_FAULT, &line, Vec::new(alloc), reason),
        Err(_) => give_up(alloc, NO_MEMORY, Reason::NoMemory),
    }
}

/// Writes the line that says that no box has a name. Those of the features are kept for what is told.
pub fn refuse_name<K: Sink>(
    alloc: Global,
    name: &[u8],
    names: &Names,
    world: &World,
    sink: &mut K,
) -> Done
    requires { NamesAll names.now world.now }
    ensures ends { Refuses NO_BOX (no_box_line name.now) (K.written sink.old) (K.written sink.new) result }
    ensures answers { Answers (IsDueOrMemory NO_BOX) (IsToldAs (of_box (feature_words names.now world.now)))
        (K.written sink.old) (K.written sink.new) (K.faults sink.old) (K.faults sink.new) result }
{
    let Ok(line) = print_no_box(alloc, name) else {
        return give_up(alloc, NO_MEMORY, Reason::NoMemory);
    };
    match no_box_reason(alloc, name, names, world) {
        Ok(reason) => deliver(sink, NO_BOX, &line, Vec::new(alloc), reason),
        Err(_) => give_up(alloc, NO_MEMORY, Reason::NoMemory),
    }
}

/// Writes the line for words that are no command. Those that ask for help are told the commands without a complaint.
pub fn refuse_words<K: Sink>(alloc: Global, words: &[String], sink: &mut K) -> Done
    ensures output { PrintsUsage (K.written sink.old) (K.written sink.new) result }
    ensures journal { result.journal.items ≡ [] }
    ensures told { EndsFor (usage_reason words.now) USAGE result }
    ensures answers { Answers (λ due. due ≡ USAGE) TellsNothing
        (K.written sink.old) (K.written sink.new) (K.faults sink.old) (K.faults sink.new) result }
{
    deliver(
        sink,
        USAGE,
        b"usage\n",
        Vec::new(alloc),
        usage_reason(words),
    )
}

// What is to be told of words that are no command.
fn usage_reason(words: &[String]) -> Reason
    ensures { result ≡ usage_reason words.now }
{
    if asks_for_help(words) {
        Reason::Help
    } else {
        Reason::Usage
    }
}
