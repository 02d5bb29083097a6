//! Laws of the lines of programs, over their definitions alone: each function's contract is the law's sentence.

ghost use Rattle.mc_program_lines.specs.BlockLaws.{FinishedBlocksFit, GoalLinesFit, LinkLinesFit, NewPartsFit, NewProgramsFit, WhenLinesFit};

/// A line that breaks no rule keeps that the program of its block fits the slots of its box.
pub fn lines_keep_fitting()
    ensures program { NewProgramsFit }
    ensures state { NewPartsFit }
    ensures goal { GoalLinesFit }
    ensures link { LinkLinesFit }
    ensures when { WhenLinesFit }
{}

/// A block that fits the slots of its box and is finished is a program for them.
pub fn finished_blocks_fit()
    ensures { FinishedBlocksFit }
{}
