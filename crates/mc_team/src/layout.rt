// The layout of a network.

ghost use Rattle.std.specs.Prelude.{◌≡◌, ◌≤◌, [], length, replicate, All, IfOk};
ghost use Rattle.mc_box.specs.declared.limit.TheConstants.{SLOT_LIMIT};
ghost use Rattle.mc_team.specs.Layouts.{AreBare, IsLayoutOf, IsLayoutSoFar, inner_lists};
ghost use Rattle.mc_model.specs.Sound.{IsNumbered};
ghost use Rattle.mc_model.specs.Worlds.{AreChannels, first_world};

use crate::joining::join;
use mc_box::MediaBox;
use mc_model::Channel;
use mc_port::{InPort, OutPort};
use std::alloc::{AllocError, Global};

/// The two ends of a lane: the box and its channel end from which it leads, and those to which it leads.
#[derive(Clone, Copy, PartialEq, Eq, Debug)]
pub struct LaneEnds {
    pub from: u32,
    pub from_end: u8,
    pub to: u32,
    pub to_end: u8,
}

/// The channel ends of the boxes of a network. A box has one for each channel that joins it, or two where a channel
/// joins it to itself, numbered in the order of the channels.
#[derive(Drop)]
pub struct TeamLayout {
    /// The ends of each lane. Lane `2k` leads to the initiator's end of channel `k`, and lane `2k + 1` to the other.
    pub lanes: Vec<LaneEnds>,
    /// Of each box, by channel end, the lane that leads to it.
    pub ends: Vec<Vec<u32>>,
    /// Of each box, the channel end and the tunnel of each slot.
    pub places: Vec<Vec<(u8, u8)>>,
    /// Of each box, by channel end, the end of a ring by which it takes.
    pub ins: Vec<Vec<InPort>>,
    /// Of each box, by channel end, the end of a ring by which it gives.
    pub outs: Vec<Vec<OutPort>>,
}

/// The layout of these boxes, with a new ring for each lane. It fails only for want of memory.
pub fn lay_out(
    alloc: Global,
    boxes: &[MediaBox],
    channels: &[Channel],
) -> Result<TeamLayout, AllocError>
    requires numbered { IsNumbered (first_world boxes.now channels.now) }
    requires channels { AreChannels channels.now }
    requires small { All (λ one. length one.slots ≤ SLOT_LIMIT) boxes.now }
    ensures { IfOk result (IsLayoutOf boxes.now channels.now) }
{
    let mut layout = bare(alloc, boxes)?;
    for number in 0..channels.len() {
        join(alloc, boxes, channels, number, &mut layout)?;
    }
    Ok(layout)
}

// Boxes that nothing joins, whose slots have no places yet.
fn bare(alloc: Global, boxes: &[MediaBox]) -> Result<TeamLayout, AllocError>
    ensures { IfOk result (IsLayoutSoFar boxes.now []) }
{
    let count = boxes.len();
    Ok(TeamLayout {
        lanes: Vec::new(alloc),
        ends: empty_lists(alloc, count)?,
        places: bare_places(alloc, boxes)?,
        ins: empty_lists(alloc, count)?,
        outs: empty_lists(alloc, count)?,
    })
}

// So many empty lists.
fn empty_lists<T: Drop>(alloc: Global, count: usize) -> Result<Vec<Vec<T>>, AllocError>
    ensures { IfOk result (λ lists. inner_lists lists.items ≡ replicate count []) }
{
    let mut lists = Vec::with_capacity(alloc, count)?;
    for _done in 0..count {
        lists.push(Vec::new(alloc))?;
    }
    Ok(lists)
}

// An entry for each slot of each box.
fn bare_places(alloc: Global, boxes: &[MediaBox]) -> Result<Vec<Vec<(u8, u8)>>, AllocError>
    ensures { IfOk result (λ places. AreBare boxes.now (inner_lists places.items)) }
{
    let mut places = Vec::with_capacity(alloc, boxes.len())?;
    for one in boxes {
        places.push(vec![in alloc; (0, 0); one.slots().len()]?)?;
    }
    Ok(places)
}
