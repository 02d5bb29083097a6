//! Laws of settles on one thread, over the definitions alone.

ghost use Rattle.mc_seq.specs.Draws.{DrawsEnd, RoundsAreFew, ScheduleIsOne, ScheduleSettles, ShiftsAreFew};
ghost use Rattle.mc_seq.specs.Draws.{TakesEndDraws};
ghost use Rattle.mc_seq.specs.Ready.{CountIsSum, KthIsFound};

/// Turns by the schedule of draws are a settled segment for their batch.
pub fn schedule_settles()
    ensures { ScheduleSettles }
{}

/// There are no two such lists of turns for one world, batch and state of the draws.
pub fn schedule_is_one()
    ensures { ScheduleIsOne }
{}

/// Where a search in the sums of what each box lists ends, there is the k-th candidate.
pub fn kth_is_found()
    ensures { KthIsFound }
{}

/// There are as many candidates as that sum.
pub fn count_is_sum()
    ensures { CountIsSum }
{}

/// While commands are left, drawn turns are few, whether links make a ring or not.
pub fn draws_end()
    ensures { DrawsEnd }
{}

/// Where none are left, and there is no ring, each drawn turn that is no Shift lowers the measure of Takes.
pub fn takes_end_draws()
    ensures { TakesEndDraws }
{}

/// No box makes more Shifts than the limit in a settle.
pub fn shifts_are_few()
    ensures { ShiftsAreFew }
{}

/// There is at most one round of retries more than there are Shifts.
pub fn rounds_are_few()
    ensures { RoundsAreFew }
{}
