// The boxes that channels join, in the order of a walk.

ghost use Rattle.std.specs.Prelude.{◌≤◌};
ghost use Rattle.mc_divided.specs.declared.limit.TheConstants.{NETWORK_LIMIT};

use crate::limit::NETWORK_LIMIT;
use mc_model::Channel;
use std::alloc::{AllocError, Global};

/// The boxes of a network, a list for those that channels join, also over other boxes: in the order of a walk along the
/// channels from one that is as far out as may be, so that few channels lead from a first half of them to the rest.
pub fn walks(alloc: Global, channels: &[Channel], boxes: usize) -> Result<Vec<Vec<u32>>, AllocError>
    requires { boxes ≤ NETWORK_LIMIT }
{
    let near = neighbours(alloc, channels, boxes)?;
    let mut met = vec![in alloc; false; boxes]?;
    let mut seen = vec![in alloc; false; boxes]?;
    let mut walks = Vec::new(alloc);
    for who in 0..boxes {
        if !met[who] {
            let walk = walk_from(alloc, &near, who as u32, &mut met)?;
            let last = walk.last().copied().unwrap_or(who as u32);
            walks.push(walk_from(alloc, &near, last, &mut seen)?)?;
        }
    }
    Ok(walks)
}

// Of each box those at the other ends of its channels.
fn neighbours(
    alloc: Global,
    channels: &[Channel],
    boxes: usize,
) -> Result<Vec<Vec<u32>>, AllocError> {
    let mut near = Vec::with_capacity(alloc, boxes)?;
    for _box in 0..boxes {
        near.push(Vec::new(alloc))?;
    }
    for channel in channels {
        add(&mut near, channel.from, channel.to)?;
        add(&mut near, channel.to, channel.from)?;
    }
    Ok(near)
}

// A box gets one neighbour more.
fn add(near: &mut [Vec<u32>], who: u32, other: u32) -> Result<(), AllocError> {
    if let Some(others) = near.get_mut(who as usize) {
        others.push(other)?;
    }
    Ok(())
}

// A walk from a box over channels to all that it can reach and that isn't met yet: the nearest first.
fn walk_from(
    alloc: Global,
    near: &[Vec<u32>],
    first: u32,
    met: &mut [bool],
) -> Result<Vec<u32>, AllocError> {
    let mut walk = Vec::new(alloc);
    meet(&[first], met, &mut walk)?;
    for place in 0..near.len() {
        let Some(who) = walk.get(place).copied() else {
            return Ok(walk);
        };
        if let Some(others) = near.get(who as usize) {
            meet(others, met, &mut walk)?;
        }
    }
    Ok(walk)
}

// Those of these boxes that weren't met yet come next.
fn meet(others: &[u32], met: &mut [bool], walk: &mut Vec<u32>) -> Result<(), AllocError> {
    for who in others {
        if let Some(seen) = met.get_mut(*who as usize) {
            if !*seen {
                *seen = true;
                walk.push(*who)?;
            }
        }
    }
    Ok(())
}
