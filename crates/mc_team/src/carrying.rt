// What is under way between boxes goes into the far inboxes.

ghost use Rattle.std.specs.Prelude.{◌≡◌, ◌<◌, length, map, slice_get, OnOk};
ghost use Rattle.mc_port.specs.Ends.{in_ring, out_ring};
ghost use Rattle.mc_team.specs.Carries.{AreLanesApart, AreReady, AreTied, CarriesLanes, IsCarriedTo, IsCarriedWithin, IsLaneCarried};
ghost use Rattle.mc_team.specs.Ends.{IsTied};
ghost use Rattle.mc_worker.specs.Ready.{IsReady};

use crate::layout::LaneEnds;
use crate::member::Member;
use mc_worker::{carry, carry_within};
use std::alloc::AllocError;

/// Carries what is under way on each lane. It fails only for want of memory, and a part of it may have been carried
/// then.
pub fn carry_all(members: &mut [Member], lanes: &[LaneEnds]) -> Result<(), AllocError>
    requires ready { AreReady members.old }
    requires tied { AreTied members.old lanes.now }
    requires apart { AreLanesApart lanes.now }
    ensures { OnOk result (CarriesLanes lanes.now members.old members.new) }
{
    for ends in lanes {
        carry_lane(members, *ends)?;
    }
    Ok(())
}

// Carries what is under way on a lane.
fn carry_lane(members: &mut [Member], ends: LaneEnds) -> Result<(), AllocError>
    requires ready { AreReady members.old }
    requires tied { IsTied members.old ends }
    ensures { OnOk result (IsLaneCarried members.old members.new ends) }
{
    let from = ends.from as usize;
    let to = ends.to as usize;
    if from == to {
        return carry_back(&mut members[to], ends.from_end, ends.to_end);
    }
    if from < to {
        let (front, back) = members.split_at_mut(to);
        return carry_to(&mut front[from], ends.from_end, &mut back[0], ends.to_end);
    }
    let (front, back) = members.split_at_mut(from);
    carry_to(&mut back[0], ends.from_end, &mut front[to], ends.to_end)
}

// The same between two boxes.
fn carry_to(from: &mut Member, end: u8, to: &mut Member, far: u8) -> Result<(), AllocError>
    requires ready_from { IsReady from.old.worker }
    requires ready_to { IsReady to.old.worker }
    requires end { end < length from.old.worker.outs.items }
    requires far { far < length to.old.worker.ins.items }
    requires ring { slice_get (map out_ring from.old.worker.outs.items) end
        ≡ slice_get (map in_ring to.old.worker.ins.items) far }
    ensures { OnOk result (IsCarriedTo from.old to.old end far from.new to.new) }
{
    carry(&mut from.worker, end, &mut to.worker, far)?;
    Ok(())
}

// The same within one, where a channel joins a box to itself.
fn carry_back(member: &mut Member, end: u8, far: u8) -> Result<(), AllocError>
    requires ready { IsReady member.old.worker }
    requires end { end < length member.old.worker.outs.items }
    requires far { far < length member.old.worker.ins.items }
    requires ring { slice_get (map out_ring member.old.worker.outs.items) end
        ≡ slice_get (map in_ring member.old.worker.ins.items) far }
    ensures { OnOk result (IsCarriedWithin member.old end far member.new) }
{
    carry_within(&mut member.worker, end, far)?;
    Ok(())
}
