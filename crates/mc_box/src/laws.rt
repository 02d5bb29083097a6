//! Laws of the events of a box, over its definitions alone: each function's contract is the law's sentence.

ghost use Rattle.mc_box.specs.EventLaws.{CommandTable, EventActs, EventGoes, EventKeepsSound, EventSendsFromSlots, EventSendsTwice, EventWasEnabled, ShapeEnables, TakeActs, TakeGoes, TakeSendsThree, TakeWasLawful, VersionEndStops};
ghost use Rattle.mc_box.specs.LinkFree.{EventKeepsLinkFree};

/// Each event of a sound box leaves it sound.
pub fn event_keeps_sound()
    ensures { EventKeepsSound }
{}

/// An event of a sound box that takes a signal sends at most three.
pub fn take_sends_three()
    ensures { TakeSendsThree }
{}

/// Any other event of a sound box sends at most twice as many signals as it has slots.
pub fn event_sends_twice()
    ensures { EventSendsTwice }
{}

/// Each signal that a sound box sends in an event is sent by one of its slots.
pub fn event_sends_from_slots()
    ensures { EventSendsFromSlots }
{}

/// Where a slot of a sound box takes a signal, that slot takes the first of what is under way to it and then sends
/// its answer and its part, and each other slot sends its part.
pub fn take_acts()
    ensures { TakeActs }
{}

/// In any other event of a sound box each slot sends its part, and takes nothing.
pub fn event_acts()
    ensures { EventActs }
{}

/// A slot of a sound box can take each signal that is lawful for it.
pub fn take_goes()
    ensures { TakeGoes }
{}

/// A Take that happens has a slot of the box, and a signal that is lawful for it.
pub fn take_was_lawful()
    ensures { TakeWasLawful }
{}

/// Each enabled event of a sound box that takes nothing can happen, unless it is a Hear of a slot that has the last
/// version.
pub fn event_goes()
    ensures { EventGoes }
{}

/// An event that takes nothing and happens is enabled.
pub fn event_was_enabled()
    ensures { EventWasEnabled }
{}

/// Events come from commands exactly where they are Sets, Media events or Tells.
pub fn command_table()
    ensures { CommandTable }
{}

/// The shape of a box enables each command that is enabled, and no other event.
pub fn shape_enables()
    ensures { ShapeEnables }
{}

/// A Hear of a slot that has the last version doesn't happen.
pub fn version_end_stops()
    ensures { VersionEndStops }
{}

/// A box without links has none after an event that links no slots.
pub fn event_keeps_link_free()
    ensures { EventKeepsLinkFree }
{}
