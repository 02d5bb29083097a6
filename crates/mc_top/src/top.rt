// The top call.
ghost use Rattle.std.specs.Prelude.{◌≡◌, ◌⊎◌, ◌==◌, ◌≤◌, ◌<◌, ◌-◌, ◌^◌, ℕ, List, [], false, length, map, IfErr, IfOk, IsFalse, IsTrue, Some};
ghost use Rattle.mc_call.specs.Answers.{Answers};
ghost use Rattle.mc_call.specs.Behind.{HasJournal, has_bad_tail, tail_lines};
ghost use Rattle.mc_call.specs.Calls.{Delivers, GivesUp, HasReadWhole, PrintsUsage};
ghost use Rattle.mc_call.specs.Reasons.{EndsFor, Explains, IsFaultOf, IsFaultOfTold, usage_reason};
ghost use Rattle.mc_call.specs.Statuses.{judges_text, keeps_journal};
ghost use Rattle.mc_cause.specs.CauseLaws.{NoneCloses};
ghost use Rattle.mc_grown_rest.specs.GrowingTexts.{CanGrow};
ghost use Rattle.mc_io.specs.Bytes.{ConsumesAtMost};
ghost use Rattle.mc_io.specs.Faults.{Rose, faults_after, is_failed_read};
ghost use Rattle.mc_lines.specs.Rules.{read_limit};
ghost use Rattle.mc_lines.specs.declared.limit.TheConstants.{COMMAND_LIMIT};
ghost use Rattle.mc_lines.specs.declared.tail.Tail.TheVariants.{Grow, Journal};
ghost use Rattle.mc_model.specs.Shapes.{AreAllAllowed};
ghost use Rattle.mc_net.specs.Nets.{DeclaresNet, NamesAll, batch_turns};
ghost use Rattle.mc_replay.specs.Faults.{RefusesLines};
ghost use Rattle.mc_replay.specs.Journals.{HoldsAtSettles, IsJournal};
ghost use Rattle.mc_replay.specs.Segments.{EachKeepsShiftLimit};
ghost use Rattle.mc_scene.specs.Outputs.{scene_output};
ghost use Rattle.mc_scene.specs.declared.scenes.Scene.{Scene};
ghost use Rattle.mc_script.specs.Places.{Fits};
ghost use Rattle.mc_top.specs.Asked.{AskFor};
ghost use Rattle.mc_top.specs.Drawn.{FollowsDraws};
ghost use Rattle.mc_top.specs.Growing.{EndsGrownAs, IsGrowingFaultOfTold};
ghost use Rattle.mc_script_end.specs.Journals.{IsJournalTo, ShowsCause};
ghost use Rattle.mc_top.specs.Modes.{AsksToRead, IsFaultByWords, IsWithinLimits, IsWorkable, checks, draws_from, has_box, reads, report_of, tail_of, text_for};
ghost use Rattle.mc_top.specs.Printed.{checked_text, run_text};
ghost use Rattle.mc_top.specs.Refusals.{RefusesCheckBy, RefusesTail};
ghost use Rattle.mc_top.specs.Statuses.{IsDue, IsDueForMode, IsDueForText, judges_growing};
ghost use Rattle.mc_top.specs.Top.{EndsAs, IsTextFor, ReadsFor};
ghost use Rattle.mc_words.specs.Commands.{AsksToGrow, IsCommand, prints_journal};
ghost use Rattle.mc_words.specs.declared.words.Mode.{Mode};
ghost use Rattle.mc_words.specs.declared.words.Mode.TheVariants.{Check, Scene as AScene};

use crate::checking::{TailFault, check_script, tell_script};
use crate::growing::grow;
use crate::modes::{draws_from, has_box, report_of, tail_of};
use crate::run::run_script;
use mc_box::Shape;
use mc_call::status::{NO_MEMORY, READ_FAULT, USAGE, WORKED, WRITE_FAULT};
use mc_call::{
    Done, TailPlace, deliver, give_up, journal_behind, journal_line, refuse_journal, refuse_name,
    refuse_text, refuse_words, stop_reason,
};
use mc_explain::Reason;
use mc_io::{Gate, Sink, Source, SourceFault, read_up_to};
use mc_net::{JOURNAL_TEXT_LIMIT, Net, NetFault, TEXT_LIMIT, read_net};
use mc_replay::ReplayFault;
use mc_scene::{generated, scene_text};
use mc_script::{Batch, JournalLine, JournalText};
use mc_script_end::{Run, deliver_run, with_journal};
use mc_text::Names;
use mc_words::{Mode, asks_to_grow, read_mode};
use mc_world::World;
use std::alloc::{AllocError, Global};
use std::thread::Threads;

/// The text that a mode works on: what the source has left, up to one byte more than the limit, or the mode's own.
pub fn text_of<S: Source>(alloc: Global, mode: Mode, source: &mut S) -> Result<Vec<u8>, SourceFault>
    requires { IsWithinLimits mode }
    ensures text { IfOk result (λ text. IsTextFor mode (S.left source.old) text.items) }
    ensures whole { IfOk result (λ text. ReadsFor mode (S.left source.old) (S.left source.new) text.items) }
    ensures unread { IsFalse (reads mode) → source.new ≡ source.old }
    ensures at_most { ConsumesAtMost (S.left source.old) (S.left source.new) (read_limit (tail_of mode)) }
    ensures faults { S.faults source.new ≡ faults_after (S.faults source.old) (is_failed_read result) }
    ensures made { IsFalse (reads mode) → IsFalse (is_failed_read result) }
{
    match mode {
        Mode::Run { .. } => read_up_to(alloc, source, TEXT_LIMIT),
        Mode::One { .. } => read_up_to(alloc, source, TEXT_LIMIT),
        Mode::Check { .. } => read_up_to(alloc, source, JOURNAL_TEXT_LIMIT),
        Mode::Conf { .. } => read_up_to(alloc, source, TEXT_LIMIT),
        Mode::Gen { number, size } => Ok(generated(alloc, number, size)?),
        Mode::Scene { scene } => Ok(scene_text(alloc, scene)?),
    }
}

// Runs the script of the network that a text declares. After what it prints stands its journal, where the mode asks for
// it: all that is in the journal of a script that comes to its end is named.
fn run_by_net<R: Threads + Sync, G: Gate + Sync>(
    rt: &R,
    alloc: Global,
    gate: &G,
    mode: Mode,
    text: &[u8],
    net: Net,
) -> Result<Run, AllocError>
    requires declares { DeclaresNet (tail_of mode) text.now net }
    requires named { NamesAll net.names net.world }
    requires who { IsTrue (has_box mode net.names net.world) }
    requires allowed { AreAllAllowed net.world (map batch_turns net.batches.items) }
    requires few { length net.batches.items ≤ COMMAND_LIMIT }
    ensures ran { IfOk result (λ run.
        IsJournalTo run.stop net.world (map batch_turns net.batches.items) run.journal.items) }
    ensures drawn { IfOk result (λ run.
        FollowsDraws (draws_from mode) run.stop net.world (map batch_turns net.batches.items) run.journal.items) }
    ensures shift_limit { IfOk result (λ run. EachKeepsShiftLimit run.journal.items) }
    ensures holds { IfOk result (λ run. HoldsAtSettles net.world run.journal.items) }
    ensures shows { IfOk result (λ run. ShowsCause run.stop net.world (map batch_turns net.batches.items)) }
    ensures output { IfOk result (λ run. run.output.items
        ≡ run_text (report_of mode net.names) (prints_journal mode) net.names net.world run.stop run.journal.items) }
{
    let Net {
        world,
        names,
        batches,
        ..
    } = net;
    world.keeps();
    let draws = draws_from(mode);
    let report = report_of(mode, &names);
    let run = run_script(rt, alloc, gate, report, &names, world, draws, &batches)?;
    with_journal(alloc, mode.prints_journal(), &names, run)
}

// Runs the script of the network that a text declares, and writes what it prints.
fn run_net<R: Threads + Sync, K: Sink, G: Gate + Sync>(
    rt: &R,
    alloc: Global,
    gate: &G,
    mode: Mode,
    text: &[u8],
    net: Net,
    sink: &mut K,
) -> Done
    requires runs { IsFalse (checks mode) }
    requires declares { DeclaresNet (tail_of mode) text.now net }
    requires named { NamesAll net.names net.world }
    requires who { IsTrue (has_box mode net.names net.world) }
    requires allowed { AreAllAllowed net.world (map batch_turns net.batches.items) }
    requires few { length net.batches.items ≤ COMMAND_LIMIT }
    ensures ends { EndsAs mode (Some text.now) (K.written sink.old) (K.written sink.new) result }
    ensures answers { Answers IsDueForText (IsFaultOf (tail_of mode) text.now)
        (K.written sink.old) (K.written sink.new) (K.faults sink.old) (K.faults sink.new) result }
{
    net.world.keeps();
    let Ok(run) = run_by_net(rt, alloc, gate, mode, text, net) else {
        return give_up(alloc, NO_MEMORY, Reason::NoMemory);
    };
    let Ok(reason) = stop_reason(alloc, run.stop, &run.output, &run.journal) else {
        return give_up(alloc, NO_MEMORY, Reason::NoMemory);
    };
    deliver_run(sink, run, reason)
}

// Checks a journal, and prints what it settles, with why paths closed or without it.
fn check_whys(
    alloc: Global,
    why: bool,
    names: &Names,
    world: World,
    batches: &[Batch],
    journal: &JournalText,
) -> Result<Vec<u8>, ReplayFault>
    requires named { NamesAll names.now world }
    requires allowed { AreAllAllowed world (map batch_turns batches.now) }
    requires few { length journal.now.lines.items < 2 ^ 32 - 1 }
    requires none { NoneCloses world }
    ensures journal { IfOk result (λ output.
        IsJournal world (map batch_turns batches.now) journal.now.lines.items) }
    ensures whole { IfOk result (λ output. journal.now.bad ≡ false) }
    ensures output { IfOk result (λ output.
        output.items ≡ checked_text why names.now world journal.now.lines.items) }
    ensures refused { IfErr result (RefusesLines world (map batch_turns batches.now)
        journal.now.lines.items journal.now.bad) }
{
    if why {
        tell_script(alloc, names, world, batches, journal)
    } else {
        check_script(alloc, names, world, batches, journal)
    }
}

// Checks the journal after a text by a network's names, shapes, world and commands. Its lines, after what is printed
// for them.
fn check_lines(
    alloc: Global,
    why: bool,
    text: &[u8],
    names: &Names,
    shape: &Shape,
    world: World,
    batches: &[Batch],
    rest: usize,
) -> Result<(Vec<u8>, Vec<JournalLine>), TailFault>
    requires short { length text.now ≤ read_limit Journal }
    requires fits { Fits names.now shape.now }
    requires named { NamesAll names.now world }
    requires allowed { AreAllAllowed world (map batch_turns batches.now) }
    requires none { NoneCloses world }
    ensures lines { IfOk result (λ both. both.1.items ≡ tail_lines names.now shape.now text.now rest) }
    ensures whole { IfOk result (λ both. has_bad_tail names.now shape.now text.now rest ≡ false) }
    ensures journal { IfOk result (λ both. IsJournal world (map batch_turns batches.now) both.1.items) }
    ensures output { IfOk result (λ both. both.0.items ≡ checked_text why names.now world both.1.items) }
    ensures refused { IfErr result (RefusesTail names.now shape.now world (map batch_turns batches.now) text.now rest) }
{
    let journal = journal_behind(alloc, names, shape, text, rest)?;
    match check_whys(alloc, why, names, world, batches, &journal) {
        Ok(output) => Ok((output, journal.lines)),
        Err(ReplayFault::At(fault)) => Err(TailFault::At(TailPlace {
            number: fault.number,
            turn: fault.turn,
            line: journal_line(names, shape, text, rest, fault.before),
        })),
        Err(ReplayFault::NoMemory(wanting)) => Err(TailFault::NoMemory(wanting)),
    }
}

/// Checks the journal after a text by the network that the text declares. Answers what is printed for it, with why paths
/// closed or without it, and its lines.
pub fn check_by_net(
    alloc: Global,
    why: bool,
    text: &[u8],
    net: Net,
) -> Result<(Vec<u8>, Vec<JournalLine>), TailFault>
    requires short { length text.now ≤ read_limit Journal }
    requires fits { Fits net.names net.shape }
    requires named { NamesAll net.names net.world }
    requires allowed { AreAllAllowed net.world (map batch_turns net.batches.items) }
    requires none { NoneCloses net.world }
    ensures has { IfOk result (λ both. HasJournal text.now net both.1.items) }
    ensures journal { IfOk result (λ both. IsJournal net.world (map batch_turns net.batches.items) both.1.items) }
    ensures output { IfOk result (λ both. both.0.items ≡ checked_text why net.names net.world both.1.items) }
    ensures refused { IfErr result (RefusesCheckBy text.now net) }
{
    let Net {
        world,
        names,
        shape,
        batches,
        rest,
    } = net;
    check_lines(alloc, why, text, &names, &shape, world, &batches, rest)
}

// Checks the journal after a text by the network that the text declares, and writes what is printed for it.
fn check_net<K: Sink>(alloc: Global, why: bool, text: &[u8], net: Net, sink: &mut K) -> Done
    requires short { length text.now ≤ read_limit Journal }
    requires declares { DeclaresNet Journal text.now net }
    requires named { NamesAll net.names net.world }
    requires allowed { AreAllAllowed net.world (map batch_turns net.batches.items) }
    ensures ends { EndsAs (Check why) (Some text.now) (K.written sink.old) (K.written sink.new) result }
    ensures answers { Answers IsDueForText (IsFaultOf Journal text.now)
        (K.written sink.old) (K.written sink.new) (K.faults sink.old) (K.faults sink.new) result }
{
    net.world.keeps();
    match check_by_net(alloc, why, text, net) {
        Ok((output, lines)) => deliver(sink, WORKED, &output, lines, Reason::Worked),
        Err(TailFault::At(place)) => refuse_journal(alloc, text, place, sink),
        Err(TailFault::NoMemory(_)) => give_up(alloc, NO_MEMORY, Reason::NoMemory),
    }
}

// Does a mode's work on the network that a text declares: it checks the journal after the text, or runs the script, if
// the network has the box that the mode is about.
fn work_on<R: Threads + Sync, K: Sink, G: Gate + Sync>(
    rt: &R,
    alloc: Global,
    gate: &G,
    mode: Mode,
    text: &[u8],
    net: Net,
    sink: &mut K,
) -> Done
    requires short { IsTrue (reads mode) → length text.now ≤ read_limit (tail_of mode) }
    requires declares { DeclaresNet (tail_of mode) text.now net }
    requires named { NamesAll net.names net.world }
    requires allowed { AreAllAllowed net.world (map batch_turns net.batches.items) }
    requires few { length net.batches.items ≤ COMMAND_LIMIT }
    ensures ends { EndsAs mode (Some text.now) (K.written sink.old) (K.written sink.new) result }
    ensures answers { Answers IsDueForText (IsFaultOf (tail_of mode) text.now)
        (K.written sink.old) (K.written sink.new) (K.faults sink.old) (K.faults sink.new) result }
{
    match mode {
        Mode::Check { why } => check_net(alloc, why, text, net, sink),
        _ => {
            if has_box(mode, &net.names, &net.world) {
                run_net(rt, alloc, gate, mode, text, net, sink)
            } else {
                refuse_name(alloc, mode.box_name(), &net.names, &net.world, sink)
            }
        }
    }
}

// Does a mode's work on a text. One that was read is no longer than what is read at most.
fn run_text<R: Threads + Sync, K: Sink, G: Gate + Sync>(
    rt: &R,
    alloc: Global,
    gate: &G,
    mode: Mode,
    text: &[u8],
    sink: &mut K,
) -> Done
    requires short { IsTrue (reads mode) → length text.now ≤ read_limit (tail_of mode) }
    ensures ends { EndsAs mode (Some text.now) (K.written sink.old) (K.written sink.new) result }
    ensures answers { Answers IsDueForText (IsFaultOf (tail_of mode) text.now)
        (K.written sink.old) (K.written sink.new) (K.faults sink.old) (K.faults sink.new) result }
{
    let tail = tail_of(mode);
    match read_net(alloc, text, tail) {
        Ok(net) => work_on(rt, alloc, gate, mode, text, net, sink),
        Err(NetFault::Line(fault)) => refuse_text(alloc, tail, text, fault, sink),
        Err(NetFault::NoMemory(_)) => give_up(alloc, NO_MEMORY, Reason::NoMemory),
    }
}

// Does a mode's work on the text that it reads.
fn run_mode<R: Threads + Sync, S: Source, K: Sink, G: Gate + Sync>(
    rt: &R,
    alloc: Global,
    gate: &G,
    mode: Mode,
    source: &mut S,
    sink: &mut K,
) -> Done
    requires { IsWithinLimits mode }
    ensures ends { EndsAs mode (text_for mode (S.left source.old)) (K.written sink.old) (K.written sink.new) result }
    ensures unread { IsFalse (reads mode) → source.new ≡ source.old }
    ensures made { IsFalse (reads mode) → (result.due ≡ WORKED) ⊎ (result.due ≡ NO_MEMORY) }
    ensures read_whole { IsTrue (reads mode) → IsTrue (judges_text result.due)
        → HasReadWhole (tail_of mode) (S.left source.old) (S.left source.new) }
    ensures at_most { ConsumesAtMost (S.left source.old) (S.left source.new) (read_limit (tail_of mode)) }
    ensures read_fault { S.faults source.new ≡ faults_after (S.faults source.old) (result.due == READ_FAULT) }
    ensures answers { Answers IsDueForMode (IsFaultOfTold (tail_of mode) (text_for mode (S.left source.old)))
        (K.written sink.old) (K.written sink.new) (K.faults sink.old) (K.faults sink.new) result }
{
    match text_of(alloc, mode, source) {
        Ok(text) => run_text(rt, alloc, gate, mode, &text, sink),
        Err(SourceFault::Failed) => give_up(alloc, READ_FAULT, Reason::ReadFault),
        Err(SourceFault::NoMemory(_)) => give_up(alloc, NO_MEMORY, Reason::NoMemory),
    }
}

// What words ask for.
#[derive(Drop)]
enum Asked {
    Work(Mode),
    Grow,
    Nothing,
}

// What the words ask for: nothing where they are no command.
fn read_words(alloc: Global, words: &[String]) -> Result<Asked, AllocError>
    ensures { IfOk result (AskFor words.now) }
{
    if let Some(mode) = read_mode(alloc, words)? {
        return Ok(Asked::Work(mode));
    }
    if asks_to_grow(alloc, words)? {
        Ok(Asked::Grow)
    } else {
        Ok(Asked::Nothing)
    }
}

/// Does what the words ask for with the text that the source has left, and writes what is to be printed.
///
/// The order is: words, reading, the text, its settles or the journal after it, writing. Nothing is written before
/// all output is built. At most one byte more than the limit of the mode's text is read, and nothing where the words
/// ask for no reading.
///
/// `check` is due to end with `JOURNAL_FAULT` exactly where the text declares a network and the journal after it has
/// a fault, but for want of memory: with `WORKED` the journal is good, a good journal has no fault, and with
/// `JOURNAL_FAULT` there is one.
pub fn media_top<R: Threads + Sync, S: Source, K: Sink, G: Gate + Sync>(
    rt: &R,
    alloc: Global,
    words: Vec<String>,
    source: &mut S,
    sink: &mut K,
    gate: &G,
) -> Done
    ensures statuses { IsDue result.due }
    ensures status { (result.status ≡ result.due) ⊎ (result.status ≡ WRITE_FAULT) }

    // USAGE comes exactly where the words are no command.
    ensures usage { result.due ≡ USAGE → (mode : Mode) → ¬ IsCommand words.items mode }
    ensures usage_grown { result.due ≡ USAGE → ¬ AsksToGrow words.items }
    ensures usage_output { result.due ≡ USAGE → PrintsUsage (K.written sink.old) (K.written sink.new) result }

    // Where they are a mode's, or those of a script that grows, this was printed and kept for its text. Else the only
    // other end is want of memory.
    ensures ends { (mode : Mode) → IsCommand words.items mode
        → EndsAs mode (text_for mode (S.left source.old)) (K.written sink.old) (K.written sink.new) result }
    ensures ends_grown { AsksToGrow words.items
        → EndsGrownAs (S.left source.old) (K.written sink.old) (K.written sink.new) result }
    ensures no_command { ((mode : Mode) → ¬ IsCommand words.items mode) → ¬ AsksToGrow words.items
        → (result.due ≡ USAGE) ⊎ GivesUp (K.written sink.old) (K.written sink.new) result }
    ensures no_journal { IsFalse (keeps_journal result.due) → result.journal.items ≡ [] }

    // Without words that ask to read, nothing is read. With them a text is judged only where it was read whole.
    ensures unread { ¬ AsksToRead words.items → ¬ AsksToGrow words.items → source.new ≡ source.old }
    ensures read_whole { (mode : Mode) → IsCommand words.items mode → IsTrue (reads mode)
        → IsTrue (judges_text result.due) → HasReadWhole (tail_of mode) (S.left source.old) (S.left source.new) }
    ensures read_whole_grown { AsksToGrow words.items → IsTrue (judges_growing result.due)
        → HasReadWhole Grow (S.left source.old) (S.left source.new) }
    ensures at_most { (mode : Mode) → IsCommand words.items mode
        → ConsumesAtMost (S.left source.old) (S.left source.new) (read_limit (tail_of mode)) }
    ensures at_most_grown { AsksToGrow words.items
        → ConsumesAtMost (S.left source.old) (S.left source.new) (read_limit Grow) }

    // The causes of faults: a call of the source or the sink failed exactly where this is answered.
    ensures read_fault { S.faults source.new ≡ faults_after (S.faults source.old) (result.due == READ_FAULT) }
    ensures write_fault { K.faults sink.new ≡ faults_after (K.faults sink.old) (result.status == WRITE_FAULT) }

    // What is to be told a person explains the status, by what was printed and, for a fault, by the text. Where the words
    // are no command, they are told the commands without a complaint exactly where they ask for help.
    ensures reason { Explains (IsFaultByWords words.items (S.left source.old)) result.reason result.status
        (K.written sink.old) (K.written sink.new) result.journal.items }
    ensures reason_grown { AsksToGrow words.items → Explains (IsGrowingFaultOfTold (S.left source.old)) result.reason
        result.status (K.written sink.old) (K.written sink.new) result.journal.items }
    ensures usage_reason { result.due ≡ USAGE → EndsFor (usage_reason words.items) USAGE result }

    // Where the work can be done and no fault was counted, it is done, but for want of memory.
    ensures complete { (mode : Mode) (text : List ℕ) → IsCommand words.items mode
        → text_for mode (S.left source.old) ≡ Some text → IsWorkable mode text
        → ¬ Rose (S.faults source.old) (S.faults source.new) → ¬ Rose (K.faults sink.old) (K.faults sink.new)
        → (result.status ≡ WORKED) ⊎ (result.status ≡ NO_MEMORY) }

    // Where the text of a script that grows shows that it comes to its end and no fault was counted, it is run, but for
    // want of memory.
    ensures complete_grown { (text : List ℕ) → AsksToGrow words.items → S.left source.old ≡ Some text → CanGrow text
        → ¬ Rose (S.faults source.old) (S.faults source.new) → ¬ Rose (K.faults sink.old) (K.faults sink.new)
        → (result.status ≡ WORKED) ⊎ (result.status ≡ NO_MEMORY) }

    // A mode that makes its text itself does its work, but for want of memory, whatever is counted.
    ensures made { (mode : Mode) → IsCommand words.items mode → IsFalse (reads mode)
        → (result.due ≡ WORKED) ⊎ (result.due ≡ NO_MEMORY) }

    // What a scene prints is its stated output.
    ensures stated { (scene : Scene) → IsCommand words.items (AScene scene) → result.due ≡ WORKED
        → Delivers result.status WORKED (K.written sink.old) (K.written sink.new) (scene_output scene) }
{
    let Ok(asked) = read_words(alloc, &words) else {
        return give_up(alloc, NO_MEMORY, Reason::NoMemory);
    };
    match asked {
        Asked::Work(mode) => run_mode(rt, alloc, gate, mode, source, sink),
        Asked::Grow => grow(rt, alloc, gate, source, sink),
        Asked::Nothing => refuse_words(alloc, &words, sink),
    }
}
