// The channels of a part.

ghost use Rattle.std.specs.Prelude.{◌≡◌, ◌≤◌, ◌<◌, if◌then◌else◌, length, All, IfOk, OnOk};
ghost use Rattle.mc_part.specs.Divisions.{channel_in, channels_in, home_at, is_part, members, part_of, tunnel_in, tunnels_in};
ghost use Rattle.mc_part.specs.DividedParts.{AreNumbersIn, HasBoxes, with_crossing, with_inner};
ghost use Rattle.mc_model.specs.Worlds.{AreChannels, HasTunnels, channel_number_limit};
ghost use Rattle.mc_model.specs.declared.channel.TheConstants.{TUNNEL_LIMIT};

use mc_model::{Channel, Tunnel};
use std::alloc::{AllocError, Global};

/// The channels of a part that has so many boxes: those that cross, each with a place holder of its own past the last
/// box, and then the inner ones. `assigned` has the part of each box, and `numbers` its number there.
pub fn channels_in(
    alloc: Global,
    assigned: &[u32],
    numbers: &[u32],
    part: u32,
    boxes: u32,
    channels: &[Channel],
) -> Result<Vec<Channel>, AllocError>
    requires numbers { AreNumbersIn assigned.now numbers.now }
    requires boxes { boxes ≡ length (members assigned.now part) }
    requires few { boxes ≤ channel_number_limit }
    requires joins { All (HasBoxes (length assigned.now)) channels.now }
    requires channels { AreChannels channels.now }
    ensures { IfOk result (λ made. made.items ≡ channels_in assigned.now channels.now part) }
{
    let mut made = Vec::new(alloc);
    for crossing in channels {
        add_crossing(alloc, assigned, numbers, part, boxes, crossing, &mut made)?;
    }
    for inner in channels {
        add_inner(alloc, assigned, numbers, part, boxes, inner, &mut made)?;
    }
    Ok(made)
}

// Adds a channel that crosses.
fn add_crossing(
    alloc: Global,
    assigned: &[u32],
    numbers: &[u32],
    part: u32,
    boxes: u32,
    channel: &Channel,
    made: &mut Vec<Channel>,
) -> Result<(), AllocError>
    requires numbers { AreNumbersIn assigned.now numbers.now }
    requires joins { HasBoxes (length assigned.now) channel.now }
    requires few { boxes ≤ channel_number_limit }
    requires short { length made.old.items ≤ channel_number_limit }
    requires tunnels { HasTunnels channel.now }
    ensures { OnOk result (made.new.items ≡ with_crossing assigned.now part boxes made.old.items channel.now) }
{
    let from_here = is_here(assigned, part, channel.from);
    let to_here = is_here(assigned, part, channel.to);
    if from_here != to_here {
        let holder = boxes + made.len() as u32;
        let here = channel_in(alloc, assigned, numbers, part, holder, channel)?;
        made.push(here)?;
    }
    Ok(())
}

// Adds an inner channel.
fn add_inner(
    alloc: Global,
    assigned: &[u32],
    numbers: &[u32],
    part: u32,
    holder: u32,
    channel: &Channel,
    made: &mut Vec<Channel>,
) -> Result<(), AllocError>
    requires numbers { AreNumbersIn assigned.now numbers.now }
    requires joins { HasBoxes (length assigned.now) channel.now }
    requires tunnels { HasTunnels channel.now }
    ensures { OnOk result (made.new.items ≡ with_inner assigned.now part holder made.old.items channel.now) }
{
    if is_here(assigned, part, channel.from) && is_here(assigned, part, channel.to) {
        let here = channel_in(alloc, assigned, numbers, part, holder, channel)?;
        made.push(here)?;
    }
    Ok(())
}

// Whether a box is in the part.
fn is_here(assigned: &[u32], part: u32, who: u32) -> bool
    requires { who < length assigned.now }
    ensures { result ≡ is_part part (part_of assigned.now who) }
{
    assigned[who as usize] == part
}

// The number of a box that is here, or of a place holder.
fn end_in(assigned: &[u32], numbers: &[u32], part: u32, holder: u32, who: u32) -> u32
    requires numbers { AreNumbersIn assigned.now numbers.now }
    requires there { who < length assigned.now }
    ensures { result ≡ (if is_part part (part_of assigned.now who) then (home_at assigned.now who).1 else holder) }
{
    if assigned[who as usize] == part {
        numbers[who as usize]
    } else {
        holder
    }
}

// A channel as the part has it.
fn channel_in(
    alloc: Global,
    assigned: &[u32],
    numbers: &[u32],
    part: u32,
    holder: u32,
    channel: &Channel,
) -> Result<Channel, AllocError>
    requires numbers { AreNumbersIn assigned.now numbers.now }
    requires joins { HasBoxes (length assigned.now) channel.now }
    requires tunnels { HasTunnels channel.now }
    ensures { IfOk result (λ made. made ≡ channel_in assigned.now part holder channel.now) }
{
    let from_here = is_here(assigned, part, channel.from);
    let to_here = is_here(assigned, part, channel.to);
    let tunnels = tunnels_in(alloc, &channel.tunnels, from_here, to_here)?;
    Ok(Channel {
        from: end_in(assigned, numbers, part, holder, channel.from),
        to: end_in(assigned, numbers, part, holder, channel.to),
        tunnels,
    })
}

// The tunnels of a channel, with their numbers within it for the local numbers at an end that isn't here.
fn tunnels_in(
    alloc: Global,
    tunnels: &[Tunnel],
    from_here: bool,
    to_here: bool,
) -> Result<Vec<Tunnel>, AllocError>
    requires few { length tunnels.now ≤ TUNNEL_LIMIT }
    ensures { IfOk result (λ made. made.items ≡ tunnels_in from_here to_here 0 tunnels.now) }
{
    let mut made = Vec::new(alloc);
    for within in 0..tunnels.len() {
        let tunnel = &tunnels[within];
        made.push(tunnel_in(tunnel, within as u8, from_here, to_here))?;
    }
    Ok(made)
}

// One of them.
fn tunnel_in(tunnel: &Tunnel, within: u8, from_here: bool, to_here: bool) -> Tunnel
    ensures { result ≡ tunnel_in from_here to_here within tunnel.now }
{
    Tunnel {
        medium: tunnel.medium,
        from: if from_here { tunnel.from } else { within },
        to: if to_here { tunnel.to } else { within },
    }
}
