// The top call.

ghost use Rattle.std.specs.Prelude.{◌≡◌, ◌⊎◌, ◌==◌, ◌≤◌, ℕ, List, [], false, length, map, IsFalse, IsTrue, None, Some, string_bytes};
ghost use Rattle.mc_io.specs.Bytes.{ConsumesAtMost};
ghost use Rattle.mc_io.specs.Faults.{Rose, faults_after};
ghost use Rattle.mc_explain.specs.Reasons.{line_at};
ghost use Rattle.mc_ladder_top.specs.Drawn.{IsInGrammar};
ghost use Rattle.mc_ladder_top.specs.Requests.{Requested, asked, unknown_in};
ghost use Rattle.mc_ladder_top.specs.Top.{AnswersDrawing, DrawsUpToFault, EndsDrawing, IsDue, IsDueForDrawing, IsDueForText};
ghost use Rattle.mc_ladder_top.specs.Words.{AreTaken, AskFor, asks_up_to_fault};
ghost use Rattle.mc_lines.specs.Rules.{read_limit};
ghost use Rattle.mc_lines.specs.declared.tail.Tail.TheVariants.{Journal};
ghost use Rattle.mc_model.specs.Shapes.{AreAllAllowed};
ghost use Rattle.mc_net.specs.Nets.{DeclaresNet, NamesAll, batch_turns};
ghost use Rattle.mc_net.specs.declared.net.Net.{Net};
ghost use Rattle.mc_top.specs.Modes.{CanCheck};
ghost use Rattle.mc_call.specs.Answers.{IsDueOrMemory, IsToldAs, TellsNothing};
ghost use Rattle.mc_call.specs.Behind.{HasJournalFault, IsLineOfFault};
ghost use Rattle.mc_call.specs.Reasons.{EndsFor, Explains, IsFaultOf, IsFaultOfTold, of_journal, usage_reason};
ghost use Rattle.mc_call.specs.Statuses.{judges_text, keeps_journal};
ghost use Rattle.mc_call.specs.Calls.{GivesUp, HasReadWhole, PrintsUsage};

use crate::choosing::unknown_in;
use crate::drawing::{Drawn, draw_checked};
use crate::faulty::draw_up_to_fault;
use crate::words::{LadderRequest, read_request};
use mc_call::status::{JOURNAL_FAULT, NO_BOX, NO_MEMORY, READ_FAULT, USAGE, WORKED, WRITE_FAULT};
use mc_call::{
    Done, TailPlace, deliver, give_up, refuse_journal, refuse_name, refuse_text, refuse_words,
};
use mc_explain::Reason;
use mc_io::{Sink, Source, SourceFault};
use mc_net::{Net, NetFault, Tail, read_net};
use mc_top::{Mode, TailFault, text_of};
use std::alloc::Global;

// The mode of `mediactl` whose answers are given where nothing is drawn.
const CHECKING: Mode = Mode::Check { why: false };

// Writes the ladder of a journal up to its first fault, and what is said of the fault after it.
fn write_up_to_fault<K: Sink>(
    alloc: Global,
    request: &LadderRequest,
    text: &[u8],
    place: TailPlace,
    sink: &mut K,
) -> Done
    requires short { length text.now ≤ read_limit Journal }
    requires declared { IsInGrammar text.now }
    requires asked { IsTrue request.now.up_to_fault }
    ensures ends { (net : Net) → DeclaresNet Journal text.now net
        → unknown_in net.names (asked request.now).names ≡ None
        → HasJournalFault text.now net place.number place.turn → IsLineOfFault text.now net place.line
        → EndsDrawing (asked request.now) (Some text.now) (K.written sink.old) (K.written sink.new) result }
    ensures journal { result.journal.items ≡ [] }
    ensures answers { AnswersDrawing request.now.up_to_fault (IsDueOrMemory JOURNAL_FAULT) TellsNothing
        (K.written sink.old) (K.written sink.new) (K.faults sink.old) (K.faults sink.new) result }
{
    let told = Reason::faulty_journal(alloc, place.number, place.turn, place.line, text);
    let Ok(reason) = told else {
        return give_up(alloc, NO_MEMORY, Reason::NoMemory);
    };
    match draw_up_to_fault(alloc, request, text, place) {
        Ok(output) => deliver(sink, JOURNAL_FAULT, &output, Vec::new(alloc), reason),
        Err(_) => give_up(alloc, NO_MEMORY, Reason::NoMemory),
    }
}

// Refuses a journal as `check` does, or draws it up to its first fault, where that is asked for.
fn refuse_or_draw<K: Sink>(
    alloc: Global,
    request: &LadderRequest,
    text: &[u8],
    place: TailPlace,
    sink: &mut K,
) -> Done
    requires short { length text.now ≤ read_limit Journal }
    requires declared { IsInGrammar text.now }
    ensures ends { (net : Net) → DeclaresNet Journal text.now net
        → unknown_in net.names (asked request.now).names ≡ None
        → HasJournalFault text.now net place.number place.turn → IsLineOfFault text.now net place.line
        → EndsDrawing (asked request.now) (Some text.now) (K.written sink.old) (K.written sink.new) result }
    ensures journal { result.journal.items ≡ [] }
    ensures answers { AnswersDrawing request.now.up_to_fault (IsDueOrMemory JOURNAL_FAULT)
        (IsToldAs (of_journal place.line (line_at place.line text.now)))
        (K.written sink.old) (K.written sink.new) (K.faults sink.old) (K.faults sink.new) result }
{
    if request.up_to_fault {
        write_up_to_fault(alloc, request, text, place, sink)
    } else {
        refuse_journal(alloc, text, place, sink)
    }
}

// Checks the journal after a text by the network that the text declares, and draws it.
fn draw_net<K: Sink>(
    alloc: Global,
    request: &LadderRequest,
    text: &[u8],
    net: Net,
    sink: &mut K,
) -> Done
    requires short { length text.now ≤ read_limit Journal }
    requires declares { DeclaresNet Journal text.now net }
    requires named { NamesAll net.names net.world }
    requires allowed { AreAllAllowed net.world (map batch_turns net.batches.items) }
    requires known { unknown_in net.names (asked request.now).names ≡ None }
    ensures ends { EndsDrawing (asked request.now) (Some text.now) (K.written sink.old) (K.written sink.new) result }
    ensures journal { IsFalse (keeps_journal result.due) → result.journal.items ≡ [] }
    ensures answers { AnswersDrawing request.now.up_to_fault IsDueForText (IsFaultOf Journal text.now)
        (K.written sink.old) (K.written sink.new) (K.faults sink.old) (K.faults sink.new) result }
{
    net.world.keeps();
    match draw_checked(alloc, request, text, net) {
        Ok(Drawn { ladder, journal }) => deliver(sink, WORKED, &ladder, journal, Reason::Worked),
        Err(TailFault::At(place)) => refuse_or_draw(alloc, request, text, place, sink),
        Err(TailFault::NoMemory(_)) => give_up(alloc, NO_MEMORY, Reason::NoMemory),
    }
}

// The same where the text may have no box of a name that is asked for.
fn draw_known<K: Sink>(
    alloc: Global,
    request: &LadderRequest,
    text: &[u8],
    net: Net,
    sink: &mut K,
) -> Done
    requires short { length text.now ≤ read_limit Journal }
    requires declares { DeclaresNet Journal text.now net }
    requires named { NamesAll net.names net.world }
    requires allowed { AreAllAllowed net.world (map batch_turns net.batches.items) }
    ensures ends { EndsDrawing (asked request.now) (Some text.now) (K.written sink.old) (K.written sink.new) result }
    ensures journal { IsFalse (keeps_journal result.due) → result.journal.items ≡ [] }
    ensures answers { AnswersDrawing request.now.up_to_fault IsDueForText (IsFaultOf Journal text.now)
        (K.written sink.old) (K.written sink.new) (K.faults sink.old) (K.faults sink.new) result }
{
    match unknown_in(&net.names, &request.boxes) {
        Some(name) => {
            let done = refuse_name(alloc, name.as_bytes(), &net.names, &net.world, sink);
            drop(net);
            done
        }
        None => draw_net(alloc, request, text, net, sink),
    }
}

// The same for a text, which may have a fault.
fn draw_text<K: Sink>(alloc: Global, request: &LadderRequest, text: &[u8], sink: &mut K) -> Done
    requires short { length text.now ≤ read_limit Journal }
    ensures ends { EndsDrawing (asked request.now) (Some text.now) (K.written sink.old) (K.written sink.new) result }
    ensures journal { IsFalse (keeps_journal result.due) → result.journal.items ≡ [] }
    ensures answers { AnswersDrawing request.now.up_to_fault IsDueForText (IsFaultOf Journal text.now)
        (K.written sink.old) (K.written sink.new) (K.faults sink.old) (K.faults sink.new) result }
{
    match read_net(alloc, text, Tail::Journal) {
        Ok(net) => draw_known(alloc, request, text, net, sink),
        Err(NetFault::Line(fault)) => refuse_text(alloc, Tail::Journal, text, fault, sink),
        Err(NetFault::NoMemory(_)) => give_up(alloc, NO_MEMORY, Reason::NoMemory),
    }
}

// The same for the text that a source has left.
fn draw_source<S: Source, K: Sink>(
    alloc: Global,
    request: &LadderRequest,
    source: &mut S,
    sink: &mut K,
) -> Done
    ensures ends { EndsDrawing (asked request.now) (S.left source.old) (K.written sink.old) (K.written sink.new) result }
    ensures journal { IsFalse (keeps_journal result.due) → result.journal.items ≡ [] }
    ensures read_whole { IsTrue (judges_text result.due)
        → HasReadWhole Journal (S.left source.old) (S.left source.new) }
    ensures at_most { ConsumesAtMost (S.left source.old) (S.left source.new) (read_limit Journal) }
    ensures read_fault { S.faults source.new ≡ faults_after (S.faults source.old) (result.due == READ_FAULT) }
    ensures answers { AnswersDrawing request.now.up_to_fault IsDueForDrawing
        (IsFaultOfTold Journal (S.left source.old))
        (K.written sink.old) (K.written sink.new) (K.faults sink.old) (K.faults sink.new) result }
{
    match text_of(alloc, CHECKING, source) {
        Ok(text) => draw_text(alloc, request, &text, sink),
        Err(SourceFault::Failed) => give_up(alloc, READ_FAULT, Reason::ReadFault),
        Err(SourceFault::NoMemory(_)) => give_up(alloc, NO_MEMORY, Reason::NoMemory),
    }
}

/// Reads the text that the source has left, with the journal after its commands, checks both as `check` does, and writes
/// the ladder of the journal. A journal with a fault is refused; where that is asked for, the ladder of the lines before
/// its first fault stands before what is said of the fault.
///
/// The order is: words, reading, the text, the boxes that are asked for, the journal, writing. Nothing is written before
/// the ladder is drawn. At most one byte more than the limit of a text with its journal is read, and nothing where the
/// words are no command line.
pub fn ladder_top<S: Source, K: Sink>(
    alloc: Global,
    words: Vec<String>,
    source: &mut S,
    sink: &mut K,
) -> Done
    ensures statuses { IsDue result.due }
    ensures status { (result.status ≡ result.due) ⊎ (result.status ≡ WRITE_FAULT) }

    // USAGE comes exactly where the words are no command line.
    ensures usage { result.due ≡ USAGE → ¬ AreTaken words.items }
    ensures usage_output { result.due ≡ USAGE → PrintsUsage (K.written sink.old) (K.written sink.new) result }
    ensures no_command { ¬ AreTaken words.items
        → (result.due ≡ USAGE) ⊎ GivesUp (K.written sink.old) (K.written sink.new) result }
    ensures unread { ¬ AreTaken words.items → source.new ≡ source.old }

    // Where they ask for a ladder, it was drawn, or the call ended as the check of the same text does; of a faulty journal
    // it was drawn up to the first fault where they ask for that, too.
    ensures ends { (request : Requested) → AskFor words.items request
        → EndsDrawing request (S.left source.old) (K.written sink.old) (K.written sink.new) result }
    ensures no_journal { IsFalse (keeps_journal result.due) → result.journal.items ≡ [] }

    // A text is judged only where it was read whole.
    ensures read_whole { IsTrue (judges_text result.due)
        → HasReadWhole Journal (S.left source.old) (S.left source.new) }
    ensures at_most { ConsumesAtMost (S.left source.old) (S.left source.new) (read_limit Journal) }

    // The causes of faults: a call of the source or the sink failed exactly where this is answered.
    ensures read_fault { S.faults source.new ≡ faults_after (S.faults source.old) (result.due == READ_FAULT) }
    ensures write_fault { K.faults sink.new ≡ faults_after (K.faults sink.old) (result.status == WRITE_FAULT) }

    // What is to be told a person explains the status, by what was printed and, for a fault, by the text. Where a ladder
    // stands before what is said of a fault, `ends` says so.
    ensures reason { ¬ DrawsUpToFault (asks_up_to_fault (map string_bytes words.items)) result.due
        → Explains (IsFaultOfTold Journal (S.left source.old)) result.reason result.status
        (K.written sink.old) (K.written sink.new) result.journal.items }
    ensures usage_reason { result.due ≡ USAGE → EndsFor (usage_reason words.items) USAGE result }

    // Where the journal is good and no fault was counted, its ladder is drawn, but for want of memory, or of a box that is
    // asked for.
    ensures complete { (text : List ℕ) → AreTaken words.items → S.left source.old ≡ Some text → CanCheck text
        → ¬ Rose (S.faults source.old) (S.faults source.new) → ¬ Rose (K.faults sink.old) (K.faults sink.new)
        → (result.status ≡ WORKED) ⊎ (result.status ≡ NO_MEMORY) ⊎ (result.status ≡ NO_BOX) }
{
    let Ok(read) = read_request(alloc, &words) else {
        return give_up(alloc, NO_MEMORY, Reason::NoMemory);
    };
    let Some(request) = read else {
        return refuse_words(alloc, &words, sink);
    };
    draw_source(alloc, &request, source, sink)
}
