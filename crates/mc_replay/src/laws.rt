//! Laws of journals, over the definitions alone: each function's contract is the law's sentence.

ghost use Rattle.mc_replay.specs.Laws.{FaultsStandThere, GoodOrFaulty, JournalsHold, OneJournalFault, OnePlace};

/// A journal has one fault at most: one number, and one place.
pub fn one_journal_fault()
    ensures { OneJournalFault }
{}

/// How many lines stand before a fault is one number, and the fault's turn comes after the turns among them.
pub fn one_place()
    ensures place { OnePlace }
    ensures turn { FaultsStandThere }
{}

/// A journal of the batches has no fault.
pub fn good_or_faulty()
    ensures { GoodOrFaulty }
{}

/// At each settle of a journal of the batches each path is as the path table says.
pub fn journals_hold()
    ensures { JournalsHold }
{}
