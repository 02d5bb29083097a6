//! Laws of a link's turn, over its definitions alone: each function's contract is the law's sentence.

ghost use Rattle.mc_link.specs.LinkLaws.{LinkMirror, LinkRestsAfterTurn, LinkSendsThree, SecondSlotSendsThree};
ghost use Rattle.mc_link.specs.LinkWeights.{LinkPays, SecondSlotPays};

/// A link's turn that is made a second time sends nothing the second time.
pub fn link_rests_after_turn()
    ensures { LinkRestsAfterTurn }
{}

/// A link is alike from both sides: each slot sends the same, whichever of the two is called the first.
pub fn link_mirror()
    ensures { LinkMirror }
{}

/// Where the first slot of a link at rest takes a signal, its answer and the link's turn are at most three signals.
pub fn link_sends_three()
    ensures { LinkSendsThree }
{}

/// And so where the second slot takes one.
pub fn second_slot_sends_three()
    ensures { SecondSlotSendsThree }
{}

/// A signal that the first slot of a link at rest takes weighs more than all that the link then sends.
pub fn link_pays()
    ensures { LinkPays }
{}

/// And so does one that the second slot takes.
pub fn second_slot_pays()
    ensures { SecondSlotPays }
{}
