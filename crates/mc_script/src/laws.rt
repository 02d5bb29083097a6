//! Laws of reading and printing, over the definitions alone: each function's contract is the law's sentence.

ghost use Rattle.mc_script.specs.Printed.{NamedIsFound, PrintedIsRead};

/// What is printed for a command is read as the same command, with any shape that allows it: the line breaks no rule
/// and spells that command.
pub fn printed_is_read()
    ensures { PrintedIsRead }
{}

/// Where boxes, slots and told words have names, none of them twice, each command that can be printed has words by
/// which its box, slots and word are found again.
pub fn named_is_found()
    ensures { NamedIsFound }
{}
