//! The law of the plans that a text makes, over the definitions alone: the function's contract is the law's sentence.

ghost use Rattle.mc_stage_plans.specs.PlanLaws.{PlansAreFew, PlansAreNamed, PlansMayHappen};

/// The plans that a text makes may be asked for: each join joins two boxes that are there, without programs and with
/// room, each cut cuts a channel that is there and not out, each command is one that the network of its time allows,
/// and none is a Set on a slot that is out. All that is ever in the network has names, and the plans are few.
pub fn plans_may_happen()
    ensures may { PlansMayHappen }
    ensures named { PlansAreNamed }
    ensures few { PlansAreFew }
{}
