//! Laws of divisions and of parts, over the definitions alone: each function's contract is the law's sentence.

ghost use Rattle.mc_part.specs.Carrying.{LeftFitsChannel, WorkFitsChannels};
ghost use Rattle.mc_part.specs.Drains.{DrainsMeet, RingsAreDrained};
ghost use Rattle.mc_part.specs.Networks.{PartsGoOn, PartsKeepSound, PartsPlay};
ghost use Rattle.mc_part.specs.Running.{NextIsFirst};
ghost use Rattle.mc_part.specs.Spans.{NothingIsSpan, SpansJoin};
ghost use Rattle.mc_part.specs.DivisionLaws.{ChannelsHaveBoxes, DivisionsAreHomes, DivisionsAreLayouts, DivisionsHaveNumbers, DivisionsLeadAway};
ghost use Rattle.mc_part.specs.DivisionLaws.{FirstPartsAreDivided, NonePastParts, SharesAreBoxes};

/// Where a ring was drained before, what it gave since then, and what is left in it, is what was put into it since.
pub fn drains_meet()
    ensures { DrainsMeet }
{}

/// Where a part does nothing, that is a span.
pub fn nothing_is_span()
    ensures { NothingIsSpan }
{}

/// Two spans one after the other are one: what the ports received and gave in both is counted once.
pub fn spans_join()
    ensures { SpansJoin }
{}

/// A ring that both ports went on with, and that was drained, is one of a phase.
pub fn rings_are_drained()
    ensures { RingsAreDrained }
{}

/// The next command of a part is the first of those that are left to its box.
pub fn next_is_first()
    ensures { NextIsFirst }
{}

/// What parts of a network did in a phase, each by itself, after which what crosses was carried over, is what a settle
/// asks for of one: a run of the network, in which each box's first commands were used in their order, its Shifts are
/// counted, and each retry that was owed came once, where they were asked for.
pub fn parts_play()
    ensures { PartsPlay }
{}

/// And the next phase may begin: each box and lane stands where it stood, nothing waits before a ring, and nothing is in
/// one.
pub fn parts_go_on()
    ensures { PartsGoOn }
{}

/// From a sound network a phase leads to a sound one.
pub fn parts_keep_sound()
    ensures { PartsKeepSound }
{}

/// What a part puts into the ring of a lane, and what waits before it in the end, is for tunnels of the lane's channel,
/// where that holds of what waited at the beginning.
pub fn work_fits_channels()
    ensures { WorkFitsChannels }
{}

/// And so is what is left in the ring.
pub fn left_fits_channel()
    ensures { LeftFitsChannel }
{}

/// Parts as they are defined divide a network.
pub fn first_parts_are_divided()
    ensures { FirstPartsAreDivided }
{}

/// What `share` gives of the boxes of a network are the boxes of its parts, and what it gives of their numbers in order
/// are the numbers of these.
pub fn shares_are_boxes()
    ensures { SharesAreBoxes }
{}

/// Each channel of a numbered network joins two of its boxes.
pub fn channels_have_boxes()
    ensures { ChannelsHaveBoxes }
{}

/// Whatever box is assigned to whatever part, each box and each lane of the world stands in the parts, and they stand
/// for the world.
pub fn divisions_are_layouts()
    ensures { DivisionsAreLayouts }
{}

/// Past the last part there are no boxes and no channels.
pub fn none_past_parts()
    ensures { NonePastParts }
{}

/// The boxes of parts are those of the world, each once.
pub fn divisions_are_homes()
    ensures { DivisionsAreHomes }
{}

/// At the far end of each channel that crosses stands a place holder, and no part has too many channels or tunnels.
pub fn divisions_lead_away()
    ensures { DivisionsLeadAway }
{}

/// In a part each slot of each box has one number, and so has each of each place holder.
pub fn divisions_have_numbers()
    ensures { DivisionsHaveNumbers }
{}
