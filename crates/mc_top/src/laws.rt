//! Laws of journals, of texts and of calls, over the definitions alone.

ghost use Rattle.mc_top.specs.Accepted.{PrintedJournalsAreAccepted};
ghost use Rattle.mc_top.specs.ConferenceLaws.{ConferencesAreAllPairs};
ghost use Rattle.mc_top.specs.Drawn.{DrawnJournalIsOne};
ghost use Rattle.mc_top.specs.EndsAlike.{CheckEndsAlike, GenPrintsAlike, GoodIsNotRefused, OneEndsAlike};
ghost use Rattle.mc_top.specs.JournalLaws.{PrintedJournalsAreGood, RunsAreReadBack};
ghost use Rattle.mc_top.specs.SceneLaws.{GeneratedCanRun, ScenesCanRun};
ghost use Rattle.mc_top.specs.SceneOutputs.{ScenesPrintTheSame};
ghost use Rattle.mc_top.specs.TextAlone.{CallsPrintSame, TextAloneDecides};

use mc_replay::laws::one_journal_fault;
pub use mc_scene_laws::laws::{
    chains_are_texts, drawn_chains_are_numbered, generated_are_texts, generated_are_unprogrammed,
    generated_come_to_rest, generated_leave_decided, scenes_are_texts, scenes_come_to_rest,
};
pub use mc_script_end::laws::first_worlds_await_words;
use mc_seq::laws::schedule_is_one;

/// The first state of the draws leaves no choice: there is one journal of settles by draws, and one stop or none.
pub fn drawn_journal_is_one()
    ensures { DrawnJournalIsOne }
{
    schedule_is_one();
}

/// Two runs of one text that settle all its batches report the same of each settle, however their boxes take turns, if
/// no box has a program and no batch leaves a path of hold against hold: then the text alone decides what is printed.
pub fn text_alone_decides()
    ensures { TextAloneDecides }
{}

/// So two calls that did their work on one text have the same to print, in whichever modes that read it in the same way
/// and report the same of it, under the same premises, where neither prints its journal.
pub fn calls_print_same()
    ensures { CallsPrintSame }
{}

/// What a call of `one` ends with, keeps as its journal and has to print is decided by its words and the text, whatever
/// programs boxes have, and whichever paths are hold against hold; but for want of memory and a fault in reading.
pub fn one_ends_alike()
    ensures { OneEndsAlike }
{
    schedule_is_one();
}

/// That of `check` is decided by the text.
pub fn check_ends_alike()
    ensures { CheckEndsAlike }
{
    one_journal_fault();
}

/// So a text whose journal is good for one call of `check` is refused by none.
pub fn good_is_not_refused()
    ensures { GoodIsNotRefused }
{}

/// What `gen` prints is decided by its words, though its journal isn't.
pub fn gen_prints_alike()
    ensures { GenPrintsAlike }
{}

/// The journal that a run of a text prints is read again, line by line.
pub fn runs_are_read_back()
    ensures { RunsAreReadBack }
{}

/// After the commands of a text of the same network that journal is good, within the limit of the text, and so has no
/// fault: `check` accepts it.
pub fn printed_journals_are_good()
    ensures { PrintedJournalsAreGood }
{}

/// So at each call of `run` or `one` that did its work and prints its journal: its text, with an end for its last line,
/// and what it printed from the line `journal` on are a text that `check` accepts, as long as both together are within
/// their limit. No call of `check` refuses it, and each that does its work finds this journal, and prints the settles
/// that the run printed.
pub fn printed_journals_are_accepted()
    ensures { PrintedJournalsAreAccepted }
{}

/// The text of each scene can be run: it is in the grammar, no Hear meets the last version, and each batch comes to
/// rest.
pub fn scenes_can_run()
    ensures { ScenesCanRun }
{}

/// And so can each generated text of one to fifty chains.
pub fn generated_can_run()
    ensures { GeneratedCanRun }
{}

/// Each journal that settles the batches of a scene prints the stated output of the scene, however its boxes take
/// turns.
pub fn scenes_print_the_same()
    ensures { ScenesPrintTheSame }
{}

/// In a sound world the pairs of a conference are all pairs of legs of which the one party hears the other, each once and
/// no other, by the hearer and then by the heard, both in rising slot number.
pub fn conferences_are_all_pairs()
    ensures { ConferencesAreAllPairs }
{}
