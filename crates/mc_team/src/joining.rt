// Channels, joined one after the other.

ghost use Rattle.std.specs.Prelude.{◌≡◌, ◌+◌, ◌<◌, ◌≤◌, length, take, All, IfOk, OnOk};
ghost use Rattle.mc_box.specs.declared.limit.TheConstants.{SLOT_LIMIT};
ghost use Rattle.mc_team.specs.Layouts.{IsEndAdded, IsLayoutSoFar, inner_lists, of_box};
ghost use Rattle.mc_model.specs.Sound.{IsNumbered};
ghost use Rattle.mc_model.specs.Worlds.{AreChannels, first_world};

use crate::layout::{LaneEnds, TeamLayout};
use crate::placing::place_tunnels;
use mc_box::MediaBox;
use mc_model::Channel;
use mc_port::{InPort, OutPort, pair};
use std::alloc::{AllocError, Global};

/// Joins the two boxes of a channel, after all channels before it.
pub fn join(
    alloc: Global,
    boxes: &[MediaBox],
    channels: &[Channel],
    number: usize,
    layout: &mut TeamLayout,
) -> Result<(), AllocError>
    requires numbered { IsNumbered (first_world boxes.now channels.now) }
    requires channels { AreChannels channels.now }
    requires small { All (λ one. length one.slots ≤ SLOT_LIMIT) boxes.now }
    requires there { number < length channels.now }
    requires so_far { IsLayoutSoFar boxes.now (take number channels.now) layout.old }
    ensures { OnOk result (IsLayoutSoFar boxes.now (take (number + 1) channels.now) layout.new) }
{
    let channel = &channels[number];
    let lane = 2 * number as u32;
    let (to_initiator, as_initiator) = pair(alloc)?;
    let (to_other, as_other) = pair(alloc)?;
    let from_end = add_end(layout, channel.from, lane, as_initiator, to_other)?;
    let to_end = add_end(layout, channel.to, lane + 1, as_other, to_initiator)?;
    layout.lanes.push(LaneEnds {
        from: channel.to,
        from_end: to_end,
        to: channel.from,
        to_end: from_end,
    })?;
    layout.lanes.push(LaneEnds {
        from: channel.from,
        from_end,
        to: channel.to,
        to_end,
    })?;
    place_tunnels(channel, from_end, to_end, &mut layout.places);
    Ok(())
}

// A box gets one channel end more. Its number.
fn add_end(
    layout: &mut TeamLayout,
    who: u32,
    lane: u32,
    taking: InPort,
    giving: OutPort,
) -> Result<u8, AllocError>
    requires here { who < length layout.old.ends.items }
    requires ins { length layout.old.ins.items ≡ length layout.old.ends.items }
    requires outs { length layout.old.outs.items ≡ length layout.old.ends.items }
    requires few { length (of_box (inner_lists layout.old.ends.items) who) < 256 }
    ensures end { IfOk result (λ end. end ≡ length (of_box (inner_lists layout.old.ends.items) who)) }
    ensures added { OnOk result (IsEndAdded layout.old layout.new who lane taking giving) }
{
    let end = layout.ends[who as usize].len() as u8;
    layout.ends[who as usize].push(lane)?;
    layout.ins[who as usize].push(taking)?;
    layout.outs[who as usize].push(giving)?;
    Ok(end)
}
