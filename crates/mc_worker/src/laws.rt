//! Laws of rounds, over their accounts alone: each function's contract is the law's sentence.

ghost use Rattle.mc_worker.specs.Account.{JoinAccounts, SendingsHaveEnds};
ghost use Rattle.mc_worker.specs.Carrying.{CarryingKeepsOrder};

/// The accounts of two calls, between which only further stimuli came, are one account.
pub fn join_accounts()
    ensures { JoinAccounts }
{}

/// Each signal that a box sends is of a slot that has a tunnel at one of its channel ends, so none is lost.
pub fn sendings_have_ends()
    ensures { SendingsHaveEnds }
{}

/// Over the turns of both boxes of a channel and the carrying after them, what was taken at an end and what waits
/// there then are what waited there before and what was sent to it, in order.
pub fn carrying_keeps_order()
    ensures { CarryingKeepsOrder }
{}
