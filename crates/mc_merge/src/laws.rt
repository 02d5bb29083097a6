//! Laws of merged logs, of what parts have done, and of their logs in one list, over the definitions alone: each
//! function's contract is the law's sentence.

ghost use Rattle.mc_merge.specs.Claims.{ClaimsKeep, ClaimedAreLogged, ClaimedSendsFit, ClaimedStampsFit, OwnEvents, RingKeeps};
ghost use Rattle.mc_merge.specs.Fronts.{FrontsAreLawful};
ghost use Rattle.mc_merge.specs.Lanes.{LanesHaveBoxes};
ghost use Rattle.mc_merge.specs.Merging.{MergeKeepsSound, MergeLaw, OwnTurns};
ghost use Rattle.mc_merge.specs.WorkedMerge.{WorkedMerge};
ghost use Rattle.mc_merge.specs.Account.{PartsJoin};
ghost use Rattle.mc_merge.specs.Clocks.{ClocksJoin, PartStampsFit, TurnsAreClocked};
ghost use Rattle.mc_merge.specs.Fits.{KeptLogsFit, PhaseIsClocked, PutsFit};
ghost use Rattle.mc_merge.specs.Order.{OwnInOrder, RunsInOrder};
ghost use Rattle.mc_merge.specs.Passing.{LanesMeet, PassesJoin};
ghost use Rattle.mc_merge.specs.Phases.{EntriesAreTurns, NoneStrange, PhaseGoesOn, PhaseIsRun, PhaseKeepsSound, PhasePlays};
ghost use Rattle.mc_merge.specs.Steps.{ComingIsWork, GoingIsWork, RingsAreClocked, StepsAreTurns};
ghost use Rattle.mc_merge.specs.Together.{PartsAreLogged};
ghost use Rattle.mc_merge.specs.Turns.{TurnsAreWork};
ghost use Rattle.mc_merge.specs.Uses.{UsesBegin, UsesGoOn, UsesJoin};
ghost use Rattle.mc_merge.specs.Wholes.{MergedInOrder, MergedIsRun, WovenIsMerged};

/// What boxes have logged, each by itself, is one run of the world in the order of the stamps, with no signal lost,
/// doubled or overtaken.
pub fn merge()
    ensures { MergeLaw }
{}

/// In that order each box's turns stand in the order of its own log: all of them, and those whose events are of a kind.
pub fn own_turns()
    ensures { OwnTurns }
{}

/// Such logs of a sound world lead to a sound world, so what is under way then can be taken.
pub fn merge_keeps_sound()
    ensures { MergeKeepsSound }
{}

/// After such logs of a sound world, the front of each lane is for a slot of the box at the lane's end, which may take
/// it.
pub fn fronts_are_lawful()
    ensures { FrontsAreLawful }
{}

/// Each lane of a numbered world leads from a box of the world to a box of the world.
pub fn lanes_have_boxes()
    ensures { LanesHaveBoxes }
{}

/// A lane keeps its order where each taking claims the stamp with which the signal was sent, and what was under way
/// before counts 0.
pub fn claims_keep()
    ensures { ClaimsKeep }
{}

/// A ring loses and overtakes nothing, whether or not it has a place for each signal.
pub fn ring_keeps()
    ensures { RingKeeps }
{}

/// Logs with such claims, each stamp one more than the greatest before it, are what the merge law asks for.
pub fn claimed_are_logged()
    ensures { ClaimedAreLogged }
{}

/// In the order of such logs a box's turns of a kind, as its commands, are the events of that kind in its own log.
pub fn own_events()
    ensures { OwnEvents }
{}

/// No stamp of such logs is greater than the number of all their entries.
pub fn claimed_stamps_fit()
    ensures { ClaimedStampsFit }
{}

/// And nothing that they send has a greater one.
pub fn claimed_sends_fit()
    ensures { ClaimedSendsFit }
{}

/// Two phones' logs have an order in which they are a run, and box by box they are none.
pub fn worked_merge()
    ensures { WorkedMerge }
{}

/// What passes through a lane in two goes passes in one, where all that was sent first has a stamp below what is taken
/// then.
pub fn passes_join()
    ensures { PassesJoin }
{}

/// A lane that leaves one part, a ring, and a lane that comes into another are one lane, whose order is kept.
pub fn lanes_meet()
    ensures { LanesMeet }
{}

/// A turn of a box, with a stamp above all that the part made and heard, is work of the part: so an inner lane keeps
/// its order without any stamp of its own.
pub fn turns_are_work()
    ensures { TurnsAreWork }
{}

/// A step of the part's boxes and lanes as a world is a turn of the part. No soundness of that world is asked for.
pub fn steps_are_turns()
    ensures { StepsAreTurns }
{}

/// What comes in by a ring is work of the part.
pub fn coming_is_work()
    ensures { ComingIsWork }
{}

/// What goes out into a ring is work of the part.
pub fn going_is_work()
    ensures { GoingIsWork }
{}

/// What a part does in two goes is what it does in one.
pub fn parts_join()
    ensures { PartsJoin }
{}

/// Parts that stand for all boxes of a world, and carry its lanes inside or by rings, have logged what the merge law
/// asks for.
pub fn parts_are_logged()
    ensures { PartsAreLogged }
{}

/// All entries in one list, in which no stamp is below one before it and each box's entries stand in their own order,
/// are a run of the world.
pub fn runs_in_order()
    ensures { RunsInOrder }
{}

/// No stamp of parts that began from 0 is above the number of all their turns.
pub fn part_stamps_fit()
    ensures { PartStampsFit }
{}

/// A part's stamps in two goes come from where they come in one.
pub fn clocks_join()
    ensures { ClocksJoin }
{}

/// The stamp of a turn is one more than that of the turn before, or than the greatest that was heard.
pub fn turns_are_clocked()
    ensures { TurnsAreClocked }
{}

/// What comes by a ring is heard, and what goes has a stamp of a turn.
pub fn rings_are_clocked()
    ensures { RingsAreClocked }
{}

/// And in such a list a box's turns of a kind, as its commands, stand in the order of its own log.
pub fn own_in_order()
    ensures { OwnInOrder }
{}

/// The entries of all parts, each part's in their own order and no stamp below one before it, are a merge of the logs of
/// all boxes.
pub fn woven_is_merged()
    ensures { WovenIsMerged }
{}

/// So the turns that `merge` adds are a run from the world before the parts to the world after them.
pub fn merged_is_run()
    ensures { MergedIsRun }
{}

/// And among them each box's turns of a kind, as its commands, are those of its own log, in their order.
pub fn merged_in_order()
    ensures { MergedInOrder }
{}

/// What parts did in a phase, after which their rings were drained, is a run from the world that they stood for to the
/// one that they stand for.
pub fn phase_is_run()
    ensures { PhaseIsRun }
{}

/// And the next phase may begin: all stands where it stood, and nothing waits before a ring.
pub fn phase_goes_on()
    ensures { PhaseGoesOn }
{}

/// In it each box's first commands were used in their order, its Shifts are counted, and of retries there is one for
/// each slot that owed one, where they were asked for.
pub fn phase_plays()
    ensures { PhasePlays }
{}

/// What a box uses up and counts in two goes is what it does in one.
pub fn uses_join()
    ensures { UsesJoin }
{}

/// A box that has an entry made a turn.
pub fn entries_are_turns()
    ensures { EntriesAreTurns }
{}

/// Logs that parts have kept may be merged.
pub fn kept_logs_fit()
    ensures { KeptLogsFit }
{}

/// Where a phase begins with all stamps at 0, a stamp that came by a ring was put into it by a part of the phase.
pub fn phase_is_clocked()
    ensures { PhaseIsClocked }
{}

/// So no stamp that went into a ring is above the number of all turns of the phase.
pub fn puts_fit()
    ensures { PutsFit }
{}

/// A part that has made no entry has used nothing up.
pub fn uses_begin()
    ensures { UsesBegin }
{}

/// With each entry of a part the uses of its boxes go on: a command was the first that was left, a Shift and a retry
/// count.
pub fn uses_go_on()
    ensures { UsesGoOn }
{}

/// From a sound world a phase leads to a sound one.
pub fn phase_keeps_sound()
    ensures { PhaseKeepsSound }
{}

/// So no part ends at a signal that its box can't take.
pub fn none_strange()
    ensures { NoneStrange }
{}
