//! Laws of counts of faults, over the definitions alone: each function's contract is the law's sentence.

ghost use Rattle.mc_io.specs.CountLaws.{CountsNeverFall, RoseOrStands};

/// That a count rose is that it is greater than before, or that it stands at the last value, where it can't rise.
pub fn rose_or_stands()
    ensures { RoseOrStands }
{}

/// A count of faults never falls.
pub fn counts_never_fall()
    ensures { CountsNeverFall }
{}
