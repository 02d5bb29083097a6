//! Laws of boxes that run freely, over the definitions alone: each function's contract is the law's sentence.

ghost use Rattle.mc_live.specs.Ends.{EndsAreAll};
ghost use Rattle.mc_live.specs.Phases.{FreeRunsAreRuns, LeftIsOnly};

/// Where each operator has asked for its hand and has then ended, a box that has taken as many ends as there are
/// operators has left nothing, and has taken just what each has asked.
pub fn ends_are_all()
    ensures { EndsAreAll }
{}

/// The turns of a team's boxes that ran freely are, in the order of their stamps, one run of the network.
pub fn free_runs_are_runs()
    ensures { FreeRunsAreRuns }
{}

/// What is left to boxes that ran freely and were asked only for what they can make is left only after their last turns,
/// or where a Hear of a slot at its last version is next.
pub fn left_is_only()
    ensures { LeftIsOnly }
{}
