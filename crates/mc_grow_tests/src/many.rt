// As many channels as a network may have join it, and are cut.

use crate::changes::{cut, devices, join, network, slots};
use crate::fault::TestFault;
use mc_grow::Grown;
use std::alloc::Global;
use std::process::Abort;

const BOXES: u32 = 256;

const CHANNELS: u32 = 1_000;

// The boxes of a channel, which differ, and so that each box has seven or eight slots.
fn ends(channel: u32) -> (u32, u32) {
    let from = channel % BOXES;
    (from, (from + 1 + channel / BOXES) % BOXES)
}

// So many channels join a network.
fn join_many(alloc: Global, grown: Grown) -> Result<Grown, TestFault> {
    let mut grown = grown;
    for channel in 0..CHANNELS {
        let (from, to) = ends(channel);
        grown = join(alloc, grown, from, to)?;
    }
    Ok(grown)
}

// They are cut, every second one first.
fn cut_many(grown: &mut Grown) -> Result<(), TestFault> {
    for channel in 0..CHANNELS / 2 {
        cut(grown, 2 * channel)?;
    }
    for channel in 0..CHANNELS / 2 {
        cut(grown, 2 * channel + 1)?;
    }
    Ok(())
}

// How many slots are out.
fn count_out(grown: &Grown) -> u32 {
    let mut count: u32 = 0;
    for slot in 0..slots(grown) {
        if grown.is_out(slot) {
            count = count.saturating_add(1);
        }
    }
    count
}

#[test]
fn a_thousand_channels_join_and_are_cut(rt: HostRuntime) -> Result<(), TestFault> {
    let empty = network(rt.alloc(), devices(rt.alloc(), BOXES)?)?;
    let mut grown = join_many(rt.alloc(), empty)?;
    assert!(rt; grown.world().slot_count() == 2_000);
    assert!(rt; count_out(&grown) == 0);
    cut_many(&mut grown)?;
    assert!(rt; count_out(&grown) == 2_000);
    Ok(())
}
