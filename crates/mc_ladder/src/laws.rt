//! The law of a ladder's arrows, over the definitions alone: the function's contract is the law's sentence.

ghost use Rattle.mc_ladder.specs.Senders.{ArrowsBeginAtSenders};

/// An arrow begins at the box that sent the very signal that it carries: in one of the turns before, that box put it
/// after what was under way to the slot where the arrow ends.
pub fn arrows_begin_at_senders()
    ensures { ArrowsBeginAtSenders }
{}
