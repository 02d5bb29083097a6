//! The law of printing and reading journals, over the definitions alone: the function's contract is the law's sentence.

ghost use Rattle.mc_journal.specs.Laws.{JournalsAreRead};

/// What is printed for the lines of a journal is read as the same lines, and none of it is bad, with any shape that
/// allows its commands.
pub fn journals_are_read()
    ensures { JournalsAreRead }
{}
