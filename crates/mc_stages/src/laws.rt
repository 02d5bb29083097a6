//! Laws of stages of networks that grow, over the definitions alone: each function's contract is the law's sentence.

ghost use Rattle.mc_stages.specs.StageLaws.{SettlesHold};

/// At each settle of a run in which a network grows, each path of the network then is as the path table says: closed
/// where an end closes, flowing where one opens and none closes, and either of the two for hold against hold.
pub fn settles_hold()
    ensures { SettlesHold }
{}
