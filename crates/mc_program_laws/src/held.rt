//! Laws of tunnels that flow on, over the definitions alone: each function's contract is the law's sentence.

ghost use Rattle.mc_program_laws.specs.Held.{HeldTunnelsFlowOn, OpenEndsFlowOn, QuietTunnelsFlow, RestsFlowOn, TellsLeaveFlowing};

/// Where nothing is under way in a sound world, a tunnel flows if one of its slots does.
pub fn quiet_tunnels_flow()
    ensures { QuietTunnelsFlow }
{}

/// A tunnel flows on in any turn after which both of its slots are ends that hold or open: nothing but describes and
/// selects is ever under way in it, whatever else happens in its boxes.
pub fn open_ends_flow_on()
    ensures { OpenEndsFlowOn }
{}

/// In a Tell each tunnel that flows does so on, whatever the goals of its slots.
pub fn tells_leave_flowing()
    ensures { TellsLeaveFlowing }
{}

/// While only Takes and Retries come, a tunnel that flows between two ends that hold or open does so on, and they stay
/// such ends.
pub fn rests_flow_on()
    ensures { RestsFlowOn }
{}

/// Whatever a told word makes of other tunnels, one that flowed where nothing was under way flows on through the Tell,
/// the Shift, and the Takes and Retries after it, if its slots are then ends that hold or open. So the goals of a path
/// of hold with hold leave no choice where its tunnel flowed.
pub fn held_tunnels_flow_on()
    ensures { HeldTunnelsFlowOn }
{}
