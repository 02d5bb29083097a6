//! Laws of steps and runs, over the definitions alone: each function's contract is the law's sentence.

ghost use Rattle.mc_laws.specs.Chains.{NamedLinksCloseNone, NamedLinksMakeRings, RingsAreNamed, RunKeepsNamed, StepKeepsNamed};
ghost use Rattle.mc_laws.specs.Versions.{LastIsPassed, SettlesCountHears, VersionsCountHears};
ghost use Rattle.mc_laws.specs.Exchanges.{WorkedExchanges};
ghost use Rattle.mc_laws.specs.Measures.{TakeLowers, TakesEnd, MeasureBound, TakesBound};
ghost use Rattle.mc_laws.specs.Sendings.{StepIsMade, StepAppends};
ghost use Rattle.mc_laws.specs.StepLaws.{StepActs, StepKeepsSound, RunKeepsSound, FrontIsTaken, FrontStepGoes, UnderWayGoes, FirstIsSound};
ghost use Rattle.mc_laws.specs.Stepped.{SteppedStays};
ghost use Rattle.mc_laws.specs.Words.{RestAwaitsWords, RunKeepsWords, WordsBoundShifts};
ghost use Rattle.mc_model.specs.LinkFree.{RunKeepsLinkFree};
ghost use Rattle.mc_model.specs.Rings.{RingsMeetNoEnd, WalksNeverReturn, RestKeepsRings};
ghost use Rattle.mc_model.specs.Settles.{SettledMakesItsBatch};
ghost use Rattle.mc_model.specs.Shapes.{StepKeepsShape, RunKeepsShape, CommandGoes, RetryGoes};
ghost use Rattle.mc_model.specs.Unprogrammed.{QuietRests, RunMakesNoShift};

/// The definitions give the worked exchanges of two phones what a telephony engineer expects of them.
pub fn worked_exchanges()
    ensures { WorkedExchanges }
{}

/// A turn of a sound world is what the slots of its box do: each takes its front or nothing and sends, and what it
/// sends is under way to the slot at the other end of its tunnel. No other box does anything.
pub fn step_acts()
    ensures { StepActs }
{}

/// In a turn of a sound world the turn's box makes its step, in a Take with the front of its slot's lane, and is what
/// the step leaves. The other boxes stay.
pub fn step_is_made()
    ensures { StepIsMade }
{}

/// After a turn of a sound world each lane is as it was, without its front where the turn takes that, and then exactly
/// what the box sends to it, in the order of sending.
pub fn step_appends()
    ensures { StepAppends }
{}

/// Whatever a box does by whichever of its slots, as long as each of them takes lawfully and sends what it may: the
/// tunnels stay sound, all stays numbered, and each signal under way is for a slot of its lane.
pub fn stepped_stays()
    ensures { SteppedStays }
{}

/// A turn of a sound world leads to a sound world, whatever its boxes and channels.
pub fn step_keeps_sound()
    ensures { StepKeepsSound }
{}

/// A run of a sound world leads to a sound world.
pub fn run_keeps_sound()
    ensures { RunKeepsSound }
{}

/// In a sound world, a signal at the front of a lane is one that its slot may take: no answer for unlawful signals is
/// needed.
pub fn front_is_taken()
    ensures { FrontIsTaken }
{}

/// In a sound world, a Take is enabled at each slot that has its signal at the front of its lane.
pub fn front_step_goes()
    ensures { FrontStepGoes }
{}

/// A sound world is never stuck: as long as a signal is under way, some slot can take one.
pub fn under_way_goes()
    ensures { UnderWayGoes }
{}

/// A world of new boxes is sound where tunnels join their slots, whatever the number of boxes and channels.
pub fn first_is_sound()
    ensures { FirstIsSound }
{}

/// In a sound world without a ring each Take lowers the measure: what is still to come of all slots.
pub fn take_lowers()
    ensures { TakeLowers }
{}

/// A run of Takes alone, from a sound world without a ring, ends: it has at most as many turns as the measure.
pub fn takes_end()
    ensures { TakesEnd }
{}

/// The measure of a sound world is at most half of its delivery bound: the fourth power of one more than its tunnels,
/// for each signal under way and each slot.
pub fn measure_bound()
    ensures { MeasureBound }
{}

/// So a run of Takes alone, from a sound world without a ring, has at most half as many turns as the delivery bound.
pub fn takes_bound()
    ensures { TakesBound }
{}

/// A run without Shifts of turns that set no link leaves a sound world without links so.
pub fn run_keeps_link_free()
    ensures { RunKeepsLinkFree }
{}

/// A world whose boxes have no programs rests where nothing is under way.
pub fn quiet_rests()
    ensures { QuietRests }
{}

/// A run of such a world has no Shift.
pub fn run_makes_no_shift()
    ensures { RunMakesNoShift }
{}

/// A turn changes neither the channels nor the shapes of the boxes.
pub fn step_keeps_shape()
    ensures { StepKeepsShape }
{}

/// Nor does a run.
pub fn run_keeps_shape()
    ensures { RunKeepsShape }
{}

/// In a sound world, a command that the shape of its box enables can happen at any time, unless it is a Hear of a slot
/// that has the last version.
pub fn command_goes()
    ensures { CommandGoes }
{}

/// In a sound world, a retry that is owed can happen.
pub fn retry_goes()
    ensures { RetryGoes }
{}

/// In a sound world, a walk over as many tunnels as there are meets no end exactly where its slot stands on a ring: it
/// comes back to the slot then, since it can't go over a tunnel both ways, and links are mutual.
pub fn rings_meet_no_end()
    ensures { RingsMeetNoEnd }
{}

/// In a sound world a walk over tunnels and links goes over no tunnel both ways.
pub fn walks_never_return()
    ensures { WalksNeverReturn }
{}

/// Takes and Retries make no ring and break none.
pub fn rest_keeps_rings()
    ensures { RestKeepsRings }
{}

/// A settled segment has the Sets, the Media events and the Tells of its batch, box by box and in order, each once, and
/// no others.
pub fn settled_makes_its_batch()
    ensures { SettledMakesItsBatch }
{}

/// After a run of a sound world, the version of each slot's descriptor is greater by the number of the run's Hears of
/// that slot.
pub fn versions_count_hears()
    ensures { VersionsCountHears }
{}

/// A settled segment has as many Hears of each slot as its batch.
pub fn settles_count_hears()
    ensures { SettlesCountHears }
{}

/// Where turns have stopped because the next command of a box is a Hear of a slot that has the last version, the
/// version of a slot before them and its Hears in the batch are more than the last version together.
pub fn last_is_passed()
    ensures { LastIsPassed }
{}

/// A run of a sound world has at most as many Shifts of a box whose program goes by told words alone as it has Tells of
/// the box, and as were still to come before it, less those that are still to come after it.
pub fn words_bound_shifts()
    ensures { WordsBoundShifts }
{}

/// A run leaves each program by told words alone so.
pub fn run_keeps_words()
    ensures { RunKeepsWords }
{}

/// In a world that rests no Shift is still to come.
pub fn rest_awaits_words()
    ensures { RestAwaitsWords }
{}

/// A turn of a sound world leaves its links such as the first world, programs or commands name, if the turn is no
/// command or is one of them.
pub fn step_keeps_named()
    ensures { StepKeepsNamed }
{}

/// And so does a run of such turns.
pub fn run_keeps_named()
    ensures { RunKeepsNamed }
{}

/// Where all links of a sound world are named, a ring is a closed chain of tunnels and named links.
pub fn rings_are_named()
    ensures { RingsAreNamed }
{}

/// So where tunnels and named links close no chain there is no ring.
pub fn named_links_close_none()
    ensures { NamedLinksCloseNone }
{}

/// Rings come only from named links: where the links that a sound world has, and that its programs and the commands of
/// batches name, close no chain with its tunnels, no run of it with such commands leaves a ring.
pub fn named_links_make_rings()
    ensures { NamedLinksMakeRings }
{}
