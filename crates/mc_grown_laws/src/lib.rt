//! Laws of runs in which a network grows, over the definitions alone: each function's contract is the law's sentence.
//! So what is known of a network with all its channels from the beginning is known of one that they join.
#![tactic(auto)]

ghost use Rattle.mc_grown_laws.specs.GrownLaws.{GrownIsOne, JoinedPaths, SettledJoins};

/// The turns of a run in which a network grows are, one stage after another, one run of the world that all channels of
/// the run have joined at the beginning, and lead to the same world.
pub fn grown_is_one()
    ensures { GrownIsOne }
{}

/// Turns that settle a batch settle it in the world that a channel has joined, too.
pub fn settled_joins()
    ensures { SettledJoins }
{}

/// The paths of a world that a channel has joined are those of the world, as they were, and after them the channel's
/// one tunnel.
pub fn joined_paths()
    ensures { JoinedPaths }
{}
