// The tunnels of a new channel and of the last one, and the counts of the slots that they take.

ghost use Rattle.std.specs.Prelude.{◌≡◌, ◌+◌, ◌<◌, ◌≤◌, length, slice_index_or, IfOk, OnErr, OnOk};
ghost use Rattle.mc_plan.specs.LaidOut.{MayCount, raised};
ghost use Rattle.mc_plan.specs.Plans.{last_channel, tunnels_between, with_tunnel_at};
ghost use Rattle.mc_box.specs.declared.limit.TheConstants.{SLOT_LIMIT};

use mc_signal::Medium;
use mc_world::{Channel, Tunnel};
use std::alloc::{AllocError, Global};

// Tunnels of these media, whose slots have local numbers from `near` and from `far` on.
pub fn tunnels_between(
    alloc: Global,
    near: u8,
    far: u8,
    media: &[Medium],
) -> Result<Vec<Tunnel>, AllocError>
    requires near { near + length media.now ≤ SLOT_LIMIT }
    requires far { far + length media.now ≤ SLOT_LIMIT }
    ensures { IfOk result (λ tunnels. tunnels.items ≡ tunnels_between near far media.now) }
{
    let mut tunnels = Vec::new(alloc);
    for i in 0..media.len() {
        let from = near + i as u8;
        let to = far + i as u8;
        tunnels.push(Tunnel {
            medium: media[i],
            from,
            to,
        })?;
    }
    Ok(tunnels)
}

// The channel that comes last.
pub fn last_channel(channels: &[Channel]) -> &Channel
    requires { 0 < length channels.now }
    ensures { result.now ≡ last_channel channels.now }
{
    &channels[channels.len() - 1]
}

// A channel gets a tunnel, as its last.
pub fn add_tunnel(
    channels: &mut Vec<Channel>,
    number: usize,
    tunnel: Tunnel,
) -> Result<(), AllocError>
    requires { number < length channels.old.items }
    ensures added { OnOk result (channels.new.items ≡ with_tunnel_at channels.old.items number tunnel) }
    ensures unchanged { OnErr result (channels.new.items ≡ channels.old.items) }
{
    let channel = &mut channels[number];
    channel.tunnels.push(tunnel)?;
    Ok(())
}

// How many slots a box has by these counts, and 0 after the last of them.
pub fn count_of(counts: &[u8], who: u32) -> u8
    ensures { result ≡ slice_index_or counts.now who 0 }
{
    counts.get(who as usize).copied().unwrap_or(0)
}

// Two boxes have so many slots more.
pub fn count_slots(counts: &mut [u8], from: u32, to: u32, more: usize)
    requires { MayCount counts.old from to more }
    ensures { counts.new ≡ raised (raised counts.old from more) to more }
{
    count_more(counts, from, more);
    count_more(counts, to, more);
}

// A box has so many slots more.
fn count_more(counts: &mut [u8], who: u32, more: usize)
    requires there { who < length counts.old }
    requires few { slice_index_or counts.old who 0 + more ≤ SLOT_LIMIT }
    ensures { counts.new ≡ raised counts.old who more }
{
    counts[who as usize] += more as u8;
}
