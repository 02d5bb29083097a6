//! Laws of one tunnel, and of an end's turns, over the slot's definitions alone: each function's contract is the law's
//! sentence.
#![tactic(auto)]

ghost use Rattle.mc_slot_laws.specs.TunnelLaws.{FrontIsLawful, TunnelTurns, TakeKeepsTunnel, SendsKeepTunnel, ClosedTunnelSound};
ghost use Rattle.mc_slot_laws.specs.Turns.{EndRestsAfterTurn, EndSendsTwo, TurnSendsTwo};
ghost use Rattle.mc_slot_laws.specs.Weights.{EndPays};

/// The next signal that is under way to a slot of a sound tunnel is one that the slot may take.
pub fn front_is_lawful()
    ensures { FrontIsLawful }
{}

/// The two sides of a sound tunnel are alike: seen from its other side, it is sound too.
pub fn tunnel_turns()
    ensures { TunnelTurns }
{}

/// Where a slot takes the next signal under way to it, and its answer goes out, a sound tunnel stays sound.
pub fn take_keeps_tunnel()
    ensures { TakeKeepsTunnel }
{}

/// Where a slot sends signals, each of which it may send, a sound tunnel stays sound.
pub fn sends_keep_tunnel()
    ensures { SendsKeepTunnel }
{}

/// Two closed slots of one medium, one of them the initiator's, are a sound tunnel while nothing is under way.
pub fn closed_tunnel_sound()
    ensures { ClosedTunnelSound }
{}

/// A turn that is made a second time sends nothing the second time.
pub fn end_rests_after_turn()
    ensures { EndRestsAfterTurn }
{}

/// An end at rest that takes a signal sends at most two signals for it, the answer among them.
pub fn end_sends_two()
    ensures { EndSendsTwo }
{}

/// A turn of an end that takes nothing sends at most two signals.
pub fn turn_sends_two()
    ensures { TurnSendsTwo }
{}

/// The signal that an end at rest takes weighs more than `y` times all that the end then sends, for each `y` below `n`.
/// An open that an end stores until its closeack comes counts as sent, before and after.
pub fn end_pays()
    ensures { EndPays }
{}
