// Channels and their slots.

ghost use Rattle.std.specs.Prelude.{◌≡◌, ◌<◌, length, slice_index_or};
ghost use Rattle.mc_plan.specs.Plans.{no_channel};
ghost use Rattle.mc_tail.specs.Rules.{is_programmed, joins_programmed_at};
ghost use Rattle.mc_tail.specs.SoFar.{channel_of, has_end};

use mc_box::Shape;
use mc_model::Channel;

/// The number of the channel that has a slot. None where no channel has it.
pub fn channel_of(channels: &[Channel], who: u32, local: u8) -> Option<usize>
    ensures { result ≡ channel_of channels.now who local }
{
    channels
        .iter()
        .position(|channel| has_end(channel, who, local))
}

// Whether a slot is at an end of one of a channel's tunnels.
fn has_end(channel: &Channel, who: u32, local: u8) -> bool
    ensures { result ≡ has_end who local channel.now }
{
    channel.tunnels.iter().any(|tunnel| {
        channel.from == who && tunnel.from == local || channel.to == who && tunnel.to == local
    })
}

/// Whether one of the boxes of a channel has a program.
pub fn joins_programmed(shape: &Shape, channels: &[Channel], channel: usize) -> bool
    requires { channel < length channels.now }
    ensures { result ≡ joins_programmed_at shape.now channels.now channel }
{
    let ends = &channels[channel];
    is_programmed(shape, ends.from) || is_programmed(shape, ends.to)
}

// Whether a box has a program.
fn is_programmed(shape: &Shape, who: u32) -> bool
    ensures { result ≡ is_programmed shape.now who }
{
    match shape.boxes.get(who as usize) {
        Some(of_box) => of_box.programmed,
        None => false,
    }
}
