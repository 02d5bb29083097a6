// A team as it is taken apart.

ghost use Rattle.std.specs.Prelude.{◌≡◌, ◌<◌, [], length, map, slice_set, IfOk};
ghost use Rattle.mc_team.specs.Teams.{IsTeam, team_state};
ghost use Rattle.mc_team.specs.Made.{LeadApart, inbox_at, inboxes_of, world_with};
ghost use Rattle.mc_team.specs.Layouts.{of_box};
ghost use Rattle.mc_worker.specs.Boxes.{items_of};

use crate::boxes::TeamBoxes;
use crate::layout::LaneEnds;
use crate::member::Member;
use mc_box::MediaBox;
use mc_lane::Lane;
use mc_model::Channel;
use mc_signal::Tagged;
use std::alloc::{AllocError, Global};
use std::mem;

/// What is left of a team that was taken apart.
#[derive(Drop)]
pub struct NetworkParts {
    pub boxes: Vec<MediaBox>,
    pub channels: Vec<Channel>,
    /// Of each lane, what waited in the inbox at its end.
    pub lanes: Vec<Lane<Tagged>>,
}

/// The boxes, channels and lanes of a team, each lane with what waits in the inbox at its end. Commands that are left
/// are lost. It fails only for want of memory.
pub fn take_apart(alloc: Global, team: TeamBoxes) -> Result<NetworkParts, AllocError>
    requires { IsTeam team }
    ensures { IfOk result (λ parts. world_with parts.boxes.items parts.channels.items parts.lanes.items
        ≡ (team_state team).world) }
{
    let TeamBoxes {
        channels,
        members,
        lanes,
        ..
    } = team;
    let mut boxes = Vec::with_capacity(alloc, members.len())?;
    let mut inboxes = Vec::with_capacity(alloc, members.len())?;
    for member in members {
        let (part, own) = take_member(member);
        boxes.push(part)?;
        inboxes.push(own)?;
    }
    let lanes = take_each(alloc, &lanes, inboxes)?;
    Ok(NetworkParts {
        boxes,
        channels,
        lanes,
    })
}

// The box of a member, and its inboxes.
fn take_member(member: Member) -> (MediaBox, Vec<Lane<Tagged>>)
    ensures part { result.0 ≡ member.worker.part }
    ensures inboxes { items_of result.1.items ≡ member.worker.inboxes }
{
    let worker = member.worker;
    (worker.part, worker.inboxes.into_lanes())
}

// What is in the inboxes to which these lanes lead, lane by lane.
fn take_each(
    alloc: Global,
    lanes: &[LaneEnds],
    mut inboxes: Vec<Vec<Lane<Tagged>>>,
) -> Result<Vec<Lane<Tagged>>, AllocError>
    requires { LeadApart lanes.now (inboxes_of inboxes.items) }
    ensures { IfOk result (λ taken. items_of taken.items ≡ map (inbox_at (inboxes_of inboxes.items)) lanes.now) }
{
    let mut taken = Vec::with_capacity(alloc, lanes.len())?;
    for ends in lanes {
        taken.push(take_inbox(alloc, &mut inboxes, *ends))?;
    }
    Ok(taken)
}

// What is in the inbox to which a lane leads, which leaves an empty one.
fn take_inbox(alloc: Global, inboxes: &mut Vec<Vec<Lane<Tagged>>>, ends: LaneEnds) -> Lane<Tagged>
    requires { ends.to_end < length (of_box (inboxes_of inboxes.old.items) ends.to) }
    ensures taken { result.items ≡ inbox_at (inboxes_of inboxes.old.items) ends }
    ensures left { inboxes_of inboxes.new.items ≡ slice_set (inboxes_of inboxes.old.items) ends.to
        (slice_set (of_box (inboxes_of inboxes.old.items) ends.to) ends.to_end []) }
{
    mem::replace(
        &mut inboxes[ends.to as usize][ends.to_end as usize],
        Lane::new(alloc),
    )
}
