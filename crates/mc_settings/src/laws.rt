//! Laws of settings, over the definitions alone: each function's contract is the law's sentence.

ghost use Rattle.mc_settings.specs.SettingLaws.{AlikeHaveSamePaths, AlikeIsEquivalence, CommandsAlone, CommandsKeepAlike};
ghost use Rattle.mc_settings.specs.SettingLaws.{BatchIsLeft, BatchesAreLeft, RunsFollowCommands, SettlesAreAlike, StoppedUsesUp};
ghost use Rattle.mc_settings.specs.SettingLaws.{LinkFreeLeavesNoRing, NoRingIsMet, NoRingStays, RingsAreLeft};
ghost use Rattle.mc_settings.specs.SettingLaws.{DecidedIsLeft, DecidedPathsAgree, DecidedStays, HeldPathsAgree};

/// After any run of a sound world without Shifts each box has the goals and the media that its own commands, in their
/// order, make of those before, and is else as it was, but for what signals change: the states and kept values of its
/// slots.
pub fn runs_follow_commands()
    ensures { RunsFollowCommands }
{}

/// Turns with the same commands of each box, in the same order, make the same world, whatever else is among them and
/// however boxes take turns.
pub fn commands_alone()
    ensures { CommandsAlone }
{}

/// To be alike but for what signals change is an equivalence of worlds.
pub fn alike_is_equivalence()
    ensures { AlikeIsEquivalence }
{}

/// The same commands leave worlds alike that were so.
pub fn commands_keep_alike()
    ensures { CommandsKeepAlike }
{}

/// Two settled segments of one batch, whatever the order of their turns, lead from worlds that are alike, and have no
/// programs, to worlds that are alike.
pub fn settles_are_alike()
    ensures { SettlesAreAlike }
{}

/// Worlds that are alike have the same paths, the same rings and the same least slot on one, and at each path the same
/// goals, descriptors and senders, so that the same is to be heard there.
pub fn alike_have_same_paths()
    ensures { AlikeHaveSamePaths }
{}

/// Turns that stopped within a batch use it up exactly where no box has a next command.
pub fn stopped_uses_up()
    ensures { StoppedUsesUp }
{}

/// A run that uses a batch up, of a sound world without programs, leaves a world that is as the commands of the batch
/// make it.
pub fn batch_is_left()
    ensures { BatchIsLeft }
{}

/// After settled segments of several batches a sound world without programs is as the commands of all of them make it.
pub fn batches_are_left()
    ensures { BatchesAreLeft }
{}

/// When a batch is used up there is a ring exactly where its commands make one, if no box has a program.
pub fn rings_are_left()
    ensures { RingsAreLeft }
{}

/// Where no box has a program and the commands of no batch leave a ring, no slot stands on one when the next batch is
/// used up: no settle stops there.
pub fn no_ring_is_met()
    ensures { NoRingIsMet }
{}

/// And after a settled segment of that batch the commands of the batches after it leave none.
pub fn no_ring_stays()
    ensures { NoRingStays }
{}

/// Batches that set no link leave no ring in a world without links.
pub fn link_free_leaves_no_ring()
    ensures { LinkFreeLeavesNoRing }
{}

/// Where the goals at its ends decide each path, since none is hold against hold, the paths of worlds that are alike
/// are in the same states.
pub fn decided_paths_agree()
    ensures { DecidedPathsAgree }
{}

/// And where those paths are as the path table says, as they are after settles, both end slots of each are in the same
/// states, and where it flows they last got the same descriptors and selectors.
pub fn held_paths_agree()
    ensures { HeldPathsAgree }
{}

/// Where no box has a program and the commands of no batch leave a path of hold against hold, none is there when the
/// next batch is used up.
pub fn decided_is_left()
    ensures { DecidedIsLeft }
{}

/// And after a settled segment of that batch the commands of the batches after it leave none.
pub fn decided_stays()
    ensures { DecidedStays }
{}
