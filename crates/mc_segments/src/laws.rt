//! Laws of the places at which turns settle: each function's contract is the law's sentence.

ghost use Rattle.mc_segments.specs.Laws.{CommandsAreAllowed, EachTurnOnce, EndsAreAll, EndsMakeJournal, NoMarkIsMissed, OneListOfEnds};

/// Turns have one list of ends.
pub fn one_list_of_ends()
    ensures { OneListOfEnds }
{}

/// The ends are the places at which all turns so far settle their own commands, before a command or the end.
pub fn ends_are_all()
    ensures { EndsAreAll }
{}

/// Each mark of a journal of the same turns stands at an end, where a command or nothing comes next.
pub fn no_mark_is_missed()
    ensures { NoMarkIsMissed }
{}

/// Turns with marks at their ends are a journal, whose batches are the commands of each segment.
pub fn ends_make_journal()
    ensures { EndsMakeJournal }
{}

/// Each turn before the last end is in this journal once, in order. The rest comes after it.
pub fn each_turn_once()
    ensures { EachTurnOnce }
{}

/// The world allows all of these commands, where the turns are a run of it.
pub fn commands_are_allowed()
    ensures { CommandsAreAllowed }
{}
