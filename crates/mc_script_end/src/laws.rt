//! Laws of how scripts end, over the definitions alone.

ghost use Rattle.mc_script_end.specs.EndLaws.{RestfulNeverStop, ScriptsHold, StopsShowCause};
ghost use Rattle.mc_script_end.specs.Words.{FirstWorldsAwaitWords};

/// At each settle of a script's journal, to its end or to a stop, the paths are as the path table says.
pub fn scripts_hold()
    ensures { ScriptsHold }
{}

/// A stop shows its cause in what the script says: at the last version in versions and Hears, at a ring in goals and
/// links, at a restless box in programs and told words.
pub fn stops_show_cause()
    ensures { StopsShowCause }
{}

/// So a text whose batches all come to rest, and in which no Hear meets the last version, stops nowhere.
pub fn restful_never_stop()
    ensures { RestfulNeverStop }
{}

/// In the first world of a text no box was told a word, so the words that its batches tell bound the Shifts of programs
/// that go by words.
pub fn first_worlds_await_words()
    ensures { FirstWorldsAwaitWords }
{}
