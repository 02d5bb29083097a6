// The boxes of a team as it is made.

ghost use Rattle.std.specs.Prelude.{◌≡◌, ◌<◌, ◌≤◌, [], ℕ, Some, length, map, slice_get, slice_set, IfOk, OnOk};
ghost use Rattle.mc_team.specs.Teams.{IsTeam, team_state, new_team};
ghost use Rattle.mc_team.specs.Made.{AreApart, CanMake, IsNewMember, IsTakenFor, LeavesOthers, world_with};
ghost use Rattle.mc_team.specs.declared.limit.TheConstants.{TEAM_LIMIT};
ghost use Rattle.mc_team.specs.Layouts.{inner_lists, of_box};
ghost use Rattle.mc_model.specs.Sound.{IsSound};
ghost use Rattle.mc_model.specs.Worlds.{AreChannels};
ghost use Rattle.mc_worker.specs.Boxes.{box_of, items_of};

use crate::boxes::TeamBoxes;
use crate::layout::{TeamLayout, lay_out};
use crate::member::Member;
use mc_box::MediaBox;
use mc_lane::Lane;
use mc_model::Channel;
use mc_signal::Tagged;
use mc_worker::{Inboxes, Places, Worker};
use std::alloc::{AllocError, Global};
use std::mem;

/// The boxes of a team, of these boxes, channels and lanes: each with a worker of its own, a new ring for each lane, and
/// what is under way in the inboxes. It fails only for want of memory.
pub fn make(
    alloc: Global,
    boxes: Vec<MediaBox>,
    channels: Vec<Channel>,
    mut lanes: Vec<Lane<Tagged>>,
) -> Result<TeamBoxes, AllocError>
    requires channels { AreChannels channels.items }
    requires sound { IsSound (world_with boxes.items channels.items lanes.items) }
    requires few { length boxes.items ≤ TEAM_LIMIT }
    ensures team { IfOk result IsTeam }
    ensures new { IfOk result (λ team. team_state team ≡ new_team (world_with boxes.items channels.items lanes.items)) }
{
    let mut layout = lay_out(alloc, &boxes, &channels)?;
    let mut members = Vec::with_capacity(alloc, boxes.len())?;
    for part in boxes {
        let who = members.len();
        members.push(make_member(alloc, part, who, &mut layout, &mut lanes)?)?;
    }
    Ok(TeamBoxes {
        channels,
        members,
        lanes: layout.lanes,
        ends: layout.ends,
    })
}

// A box with what a layout has for it, and what is under way on the lanes that lead to it.
fn make_member(
    alloc: Global,
    part: MediaBox,
    who: usize,
    layout: &mut TeamLayout,
    lanes: &mut Vec<Lane<Tagged>>,
) -> Result<Member, AllocError>
    requires { CanMake layout.old (length lanes.old.items) (length part.slots) who }
    ensures part { IfOk result (λ member. member.worker.part ≡ part) }
    ensures made { IfOk result (IsNewMember layout.old (items_of lanes.old.items) who) }
    ensures taken { OnOk result (IsTakenFor who layout.old layout.new) }
    ensures lanes { OnOk result (LeavesOthers (of_box (inner_lists layout.old.ends.items) who)
        (items_of lanes.old.items) (items_of lanes.new.items)) }
{
    let under_way = take_lanes(alloc, &layout.ends[who], lanes)?;
    let place = Places::new(take_list(alloc, &mut layout.places, who));
    let ins = take_list(alloc, &mut layout.ins, who);
    let outs = take_list(alloc, &mut layout.outs, who);
    let mut worker = Worker::new(alloc, part, place, ins, outs)?;
    worker.inboxes = Inboxes::new(under_way);
    Ok(Member { worker, end: None })
}

// The list of a box, which leaves an empty one.
fn take_list<T: Drop>(alloc: Global, lists: &mut Vec<Vec<T>>, who: usize) -> Vec<T>
    requires { who < length lists.old.items }
    ensures taken { result.items ≡ of_box (inner_lists lists.old.items) who }
    ensures left { inner_lists lists.new.items ≡ slice_set (inner_lists lists.old.items) who [] }
{
    mem::replace(&mut lists[who], Vec::new(alloc))
}

// The lanes of these numbers, each of which leaves an empty one.
fn take_lanes(
    alloc: Global,
    numbers: &[u32],
    lanes: &mut Vec<Lane<Tagged>>,
) -> Result<Vec<Lane<Tagged>>, AllocError>
    requires there { (i : ℕ) (lane : ℕ) → slice_get numbers.now i ≡ Some lane → lane < length lanes.old.items }
    requires apart { AreApart numbers.now }
    ensures taken { IfOk result (λ taken. items_of taken.items ≡ map (box_of (items_of lanes.old.items)) numbers.now) }
    ensures left { OnOk result (LeavesOthers numbers.now (items_of lanes.old.items) (items_of lanes.new.items)) }
{
    let mut taken = Vec::with_capacity(alloc, numbers.len())?;
    for lane in numbers {
        taken.push(take_lane(alloc, lanes, *lane as usize))?;
    }
    Ok(taken)
}

// A lane, which leaves an empty one.
fn take_lane(alloc: Global, lanes: &mut Vec<Lane<Tagged>>, at: usize) -> Lane<Tagged>
    requires { at < length lanes.old.items }
    ensures taken { result.items ≡ box_of (items_of lanes.old.items) at }
    ensures left { items_of lanes.new.items ≡ slice_set (items_of lanes.old.items) at [] }
{
    mem::replace(&mut lanes[at], Lane::new(alloc))
}
