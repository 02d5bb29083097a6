// What is under way goes into the lanes of the parts that take it.

ghost use Rattle.std.specs.Prelude.{◌≡◌, ◌<◌, ◌≤◌, ◌+◌, ◌*◌, ◌-◌, ◌^◌, ◌++◌, ◌∷◌, if◌then◌else◌, [], length, replicate};
ghost use Rattle.std.specs.Prelude.{slice_index_or, slice_set, All, IfOk, IsTrue, OnOk};
ghost use Rattle.mc_part.specs.Divisions.{channels_in, is_part, part_of};
ghost use Rattle.mc_part.specs.DividedParts.{HasBoxes};
ghost use Rattle.mc_merge.specs.Lanes.{absent_channel};
ghost use Rattle.mc_model.specs.Worlds.{AreChannels, channel_number_limit};
ghost use Rattle.mc_divided.specs.Laying.{AllFit, AreFilled, LeadsTo, channel_numbers, first_slots, is_kind, kind_of};
ghost use Rattle.mc_divided.specs.Laying.{lane_here, numbers_of_kind, slot_after};
ghost use Rattle.mc_world.specs.Lanes.{signals_of};
ghost use Rattle.mc_world.specs.Pumping.{is_slot_at, with_last};

use mc_lane::Lane;
use mc_model::Channel;
use mc_signal::Tagged;
use mc_world::{Engine, PutFault};
use std::alloc::{AllocError, Global};

/// Puts what is under way to the boxes of a part into its lanes. It fails only for want of memory.
pub(crate) fn fill(
    alloc: Global,
    assigned: &[u32],
    channels: &[Channel],
    lanes: &[Lane<Tagged>],
    part: u32,
    firsts: &[u32],
    engine: &mut Engine,
) -> Result<(), AllocError>
    requires channels { AreChannels channels.now }
    requires joins { All (HasBoxes (length assigned.now)) channels.now }
    requires lanes { length lanes.now ≡ 2 * length channels.now }
    requires fit { AllFit channels.now (signals_of lanes.now) }
    requires own { engine.old.channels ≡ channels_in assigned.now channels.now part }
    requires empty { engine.old.lanes ≡ replicate (2 * length engine.old.channels) [] }
    requires firsts { firsts.now ≡ first_slots engine.old.channels }
    ensures filled { OnOk result (AreFilled assigned.now channels.now (signals_of lanes.now) part
        (channel_numbers assigned.now channels.now part) (length (channel_numbers assigned.now channels.now part))
        engine.new.lanes) }
    ensures kept { OnOk result (engine.new ≡ record engine.old { lanes = engine.new.lanes }) }
    ensures count { OnOk result (length engine.new.lanes ≡ length engine.old.lanes) }
{
    let numbers = channel_numbers(alloc, assigned, channels, part)?;
    for place in 0..numbers.len() {
        let channel = numbers[place] as usize;
        let first = firsts[place];
        fill_channel(
            assigned, channels, lanes, part, channel, place, first, engine,
        )?;
    }
    Ok(())
}

// The lanes of a channel.
fn fill_channel(
    assigned: &[u32],
    channels: &[Channel],
    lanes: &[Lane<Tagged>],
    part: u32,
    channel: usize,
    place: usize,
    first: u32,
    engine: &mut Engine,
) -> Result<(), AllocError>
    requires there { channel < length channels.now }
    requires few { length channels.now ≤ channel_number_limit }
    requires place_few { place ≤ channel_number_limit }
    requires first_fits { first < 2 ^ 32 - 1 }
    requires joins { All (HasBoxes (length assigned.now)) channels.now }
    requires lanes { length lanes.now ≡ 2 * length channels.now }
    requires fit { AllFit channels.now (signals_of lanes.now) }
    requires leads { LeadsTo engine.old (2 * place)
        (length (slice_index_or channels.now channel absent_channel).tunnels) first }
    requires leads_next { LeadsTo engine.old (2 * place + 1)
        (length (slice_index_or channels.now channel absent_channel).tunnels) (first + 1) }
    requires empty { slice_index_or engine.old.lanes (2 * place) [] ≡ [] }
    requires empty_next { slice_index_or engine.old.lanes (2 * place + 1) [] ≡ [] }
    ensures { OnOk result (engine.new ≡ record engine.old {
      lanes = slice_set
          (slice_set engine.old.lanes (2 * place) (lane_here assigned.now channels.now (signals_of lanes.now) part channel 0))
          (2 * place + 1) (lane_here assigned.now channels.now (signals_of lanes.now) part channel 1);
    }) }
{
    let ends = &channels[channel];
    let to_from = assigned[ends.from as usize] == part;
    fill_lane(to_from, 2 * place, first, &lanes[2 * channel], engine)?;
    let to_to = assigned[ends.to as usize] == part;
    fill_lane(
        to_to,
        2 * place + 1,
        first + 1,
        &lanes[2 * channel + 1],
        engine,
    )
}

// An empty lane gets these signals, where they come here.
fn fill_lane(
    here: bool,
    lane: usize,
    first: u32,
    signals: &Lane<Tagged>,
    engine: &mut Engine,
) -> Result<(), AllocError>
    requires leads { All (λ tagged. IsTrue (is_slot_at engine.old lane tagged.tunnel (slot_after first tagged.tunnel)))
        signals.now.items }
    requires empty { slice_index_or engine.old.lanes lane [] ≡ [] }
    ensures { OnOk result (engine.new ≡ record engine.old {
      lanes = slice_set engine.old.lanes lane (if here then signals.now.items else []);
    }) }
{
    if !here {
        return Ok(());
    }
    for place in 0..signals.len() {
        put_last(lane, first, signals.get(place), engine)?;
    }
    Ok(())
}

// A signal goes to the end of a lane.
fn put_last(lane: usize, first: u32, tagged: Tagged, engine: &mut Engine) -> Result<(), AllocError>
    requires { IsTrue (is_slot_at engine.old lane tagged.tunnel (slot_after first tagged.tunnel)) }
    ensures put { OnOk result (engine.new ≡ with_last engine.old lane tagged) }
    ensures there { OnOk result (lane < length engine.old.lanes) }
{
    let slot = first.saturating_add(2 * tagged.tunnel as u32);
    match engine.put_in(lane, tagged.tunnel, slot, tagged.signal) {
        Ok(()) => Ok(()),
        Err(PutFault::NoMemory(e)) => Err(e),
        Err(PutFault::Stray) => unreachable!(),
    }
}

// The numbers in the network of the channels of a part, in the part's order.
fn channel_numbers(
    alloc: Global,
    assigned: &[u32],
    channels: &[Channel],
    part: u32,
) -> Result<Vec<u32>, AllocError>
    requires few { length channels.now ≤ channel_number_limit }
    requires joins { All (HasBoxes (length assigned.now)) channels.now }
    ensures { IfOk result (λ numbers. numbers.items ≡ channel_numbers assigned.now channels.now part) }
{
    let mut numbers = Vec::new(alloc);
    add_numbers(assigned, channels, part, true, &mut numbers)?;
    add_numbers(assigned, channels, part, false, &mut numbers)?;
    Ok(numbers)
}

// Adds those of the channels that cross, or of the inner ones.
fn add_numbers(
    assigned: &[u32],
    channels: &[Channel],
    part: u32,
    crossing: bool,
    numbers: &mut Vec<u32>,
) -> Result<(), AllocError>
    requires few { length channels.now ≤ channel_number_limit }
    requires joins { All (HasBoxes (length assigned.now)) channels.now }
    ensures { OnOk result (numbers.new.items ≡ numbers.old.items
        ++ numbers_of_kind (kind_of assigned.now part crossing) channels.now (length channels.now)) }
{
    for number in 0..channels.len() {
        let is_one = is_kind(assigned, part, crossing, &channels[number]);
        add_number(is_one, number as u32, numbers)?;
    }
    Ok(())
}

// Adds a number, or not.
fn add_number(is_one: bool, number: u32, numbers: &mut Vec<u32>) -> Result<(), AllocError>
    ensures { OnOk result (numbers.new.items ≡ numbers.old.items ++ (if is_one then number ∷ [] else [])) }
{
    if is_one {
        numbers.push(number)?;
    }
    Ok(())
}

// Whether a channel crosses, or is an inner one.
fn is_kind(assigned: &[u32], part: u32, crossing: bool, channel: &Channel) -> bool
    requires { HasBoxes (length assigned.now) channel.now }
    ensures { result ≡ kind_of assigned.now part crossing channel.now }
{
    let from_here = is_here(assigned, part, channel.from);
    let to_here = is_here(assigned, part, channel.to);
    if crossing {
        from_here != to_here
    } else {
        from_here && to_here
    }
}

// Whether a box is in the part.
fn is_here(assigned: &[u32], part: u32, who: u32) -> bool
    requires { who < length assigned.now }
    ensures { result ≡ is_part part (part_of assigned.now who) }
{
    assigned[who as usize] == part
}
