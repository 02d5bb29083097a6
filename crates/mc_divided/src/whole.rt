// The world that the parts of a network stand for.

ghost use Rattle.std.specs.Prelude.{◌≡◌, ◌<◌, ◌≤◌, ◌+◌, ◌*◌, ◌^◌, ℕ, [], length, replicate, slice_index_or, slice_set, All, IfOk};
ghost use Rattle.mc_box.specs.Boxes.{BoxState};
ghost use Rattle.mc_part.specs.Divisions.{is_crossing, part_of, place_in};
ghost use Rattle.mc_part.specs.DividedParts.{HasBoxes, inner_lists};
ghost use Rattle.mc_model.specs.Worlds.{channel_number_limit};
ghost use Rattle.mc_divided.specs.Networks.{IsDividedNetwork, network_state};
ghost use Rattle.mc_divided.specs.Whole.{AreCounted, AreRanks, boxes_among, end_part, lanes_among, lanes_by, lanes_of, no_base};
ghost use Rattle.mc_world.specs.Lanes.{signals_of};

use crate::network::DividedNetwork;
use mc_box::MediaBox;
use mc_lane::Lane;
use mc_model::Channel;
use mc_part::{PartRun, gather};
use mc_signal::Tagged;
use mc_world::{Pieces, World};
use std::alloc::{AllocError, Global};

/// The world that the parts of a network stand for. It fails only for want of memory; the network is gone then.
pub fn whole_world(alloc: Global, network: DividedNetwork) -> Result<World, AllocError>
    requires { IsDividedNetwork network }
    ensures { IfOk result (λ world. world ≡ (network_state network).world) }
{
    let DividedNetwork {
        frame,
        assigned,
        runs,
        ..
    } = network;
    let taken = take_apart(alloc, runs)?;
    let lanes = whole_lanes(alloc, &assigned, &frame.channels, &taken.lanes)?;
    let boxes = gather(alloc, &assigned, taken.boxes)?;
    let mut frame = frame;
    frame.boxes = boxes;
    frame.lanes = lanes;
    World::from_parts(alloc, frame)
}

// The boxes of each part, and its lanes.
#[derive(Drop)]
struct Taken {
    boxes: Vec<Vec<MediaBox>>,
    lanes: Vec<Vec<Lane<Tagged>>>,
}

// Those of parts that are given up.
fn take_apart(alloc: Global, runs: Vec<PartRun>) -> Result<Taken, AllocError>
    ensures boxes { IfOk result (λ taken. inner_lists taken.boxes.items ≡ boxes_among runs.items) }
    ensures lanes { IfOk result (λ taken. lanes_of taken.lanes.items ≡ lanes_among runs.items) }
{
    let mut boxes = Vec::with_capacity(alloc, runs.len())?;
    let mut lanes = Vec::with_capacity(alloc, runs.len())?;
    for run in runs {
        let pieces = pieces_of(run);
        boxes.push(pieces.boxes)?;
        lanes.push(pieces.lanes)?;
    }
    Ok(Taken { boxes, lanes })
}

// What the engine of a part is made of.
fn pieces_of(run: PartRun) -> Pieces
    ensures boxes { result.boxes.items ≡ run.part.engine.boxes }
    ensures lanes { signals_of result.lanes.items ≡ run.part.engine.lanes }
{
    run.part.engine.into_pieces()
}

// The lanes of the network: each is that of the part that takes from it.
fn whole_lanes(
    alloc: Global,
    assigned: &[u32],
    channels: &[Channel],
    taken: &[Vec<Lane<Tagged>>],
) -> Result<Vec<Lane<Tagged>>, AllocError>
    requires parts { All (λ part. part < length taken.now) assigned.now }
    requires joins { All (HasBoxes (length assigned.now)) channels.now }
    requires few { length channels.now ≤ channel_number_limit }
    ensures { IfOk result (λ lanes. signals_of lanes.items ≡ lanes_by assigned.now channels.now (lanes_of taken.now)) }
{
    let mut inner = crossing_counts(alloc, assigned, taken.len(), channels)?;
    let mut crossed = zeros(alloc, taken.len())?;
    let mut lanes = Vec::with_capacity(alloc, 2 * channels.len())?;
    for number in 0..channels.len() {
        let (from, to) = next_places(assigned, channels, number, &mut crossed, &mut inner);
        let (start, end) = parts_at(assigned, channels, number);
        lanes.push(lane_of_part(alloc, taken, start, 2 * from as usize)?)?;
        lanes.push(lane_of_part(alloc, taken, end, 2 * to as usize + 1)?)?;
    }
    Ok(lanes)
}

// A lane of a part; an empty one where it has none with this number.
fn lane_of_part(
    alloc: Global,
    taken: &[Vec<Lane<Tagged>>],
    part: u32,
    lane: usize,
) -> Result<Lane<Tagged>, AllocError>
    ensures { IfOk result (λ copy. copy.items ≡ slice_index_or (slice_index_or (lanes_of taken.now) part []) lane []) }
{
    match taken.get(part as usize) {
        Some(lanes) => lane_among(alloc, lanes, lane),
        None => Ok(Lane::new(alloc)),
    }
}

// One of these lanes; an empty one where there is none with this number.
fn lane_among(
    alloc: Global,
    lanes: &[Lane<Tagged>],
    lane: usize,
) -> Result<Lane<Tagged>, AllocError>
    ensures { IfOk result (λ copy. copy.items ≡ slice_index_or (signals_of lanes.now) lane []) }
{
    match lanes.get(lane) {
        Some(signals) => copy_of(alloc, signals),
        None => Ok(Lane::new(alloc)),
    }
}

// The same signals. Where there are none it takes no memory.
fn copy_of(alloc: Global, signals: &Lane<Tagged>) -> Result<Lane<Tagged>, AllocError>
    ensures { IfOk result (λ copy. copy.items ≡ signals.now.items) }
{
    let mut copy = Lane::new(alloc);
    for place in 0..signals.len() {
        copy.reserve(1)?;
        copy.push(signals.get(place));
    }
    Ok(copy)
}

// How many channels of each part cross.
fn crossing_counts(
    alloc: Global,
    assigned: &[u32],
    count: usize,
    channels: &[Channel],
) -> Result<Vec<u32>, AllocError>
    requires parts { All (λ part. part < count) assigned.now }
    requires joins { All (HasBoxes (length assigned.now)) channels.now }
    requires few { length channels.now ≤ channel_number_limit }
    ensures count { IfOk result (λ counts. length counts.items ≡ count) }
    ensures ranks { IfOk result (λ counts. AreRanks (is_crossing assigned.now) no_base channels.now
        (length channels.now) counts.items) }
{
    let mut counts = zeros(alloc, count)?;
    for number in 0..channels.len() {
        let (from, to) = parts_at(assigned, channels, number);
        if from != to {
            let _from = count_one(&mut counts, from);
            let _to = count_one(&mut counts, to);
        }
    }
    Ok(counts)
}

// The numbers of a channel in the parts at its initiator's end and at the other, which are counted up.
fn next_places(
    assigned: &[u32],
    channels: &[Channel],
    number: usize,
    crossed: &mut Vec<u32>,
    inner: &mut Vec<u32>,
) -> (u32, u32)
    requires there { number < length channels.now }
    requires few { length channels.now ≤ channel_number_limit }
    requires parts { All (λ part. part < length crossed.old.items) assigned.now }
    requires same { length inner.old.items ≡ length crossed.old.items }
    requires joins { All (HasBoxes (length assigned.now)) channels.now }
    requires counted { AreCounted assigned.now channels.now number crossed.old.items inner.old.items }
    ensures counted { AreCounted assigned.now channels.now (number + 1) crossed.new.items inner.new.items }
    ensures crossed { length crossed.new.items ≡ length crossed.old.items }
    ensures inner { length inner.new.items ≡ length inner.old.items }
    ensures from { result.0 ≡ place_in assigned.now channels.now (end_part assigned.now channels.now number 0) number }
    ensures to { result.1 ≡ place_in assigned.now channels.now (end_part assigned.now channels.now number 1) number }
{
    let (from, to) = parts_at(assigned, channels, number);
    if from == to {
        let place = count_one(inner, from);
        return (place, place);
    }
    let start = count_one(crossed, from);
    let end = count_one(crossed, to);
    (start, end)
}

// The parts at the two ends of a channel.
fn parts_at(assigned: &[u32], channels: &[Channel], number: usize) -> (u32, u32)
    requires there { number < length channels.now }
    requires joins { All (HasBoxes (length assigned.now)) channels.now }
    ensures from { result.0 ≡ end_part assigned.now channels.now number 0 }
    ensures to { result.1 ≡ end_part assigned.now channels.now number 1 }
{
    let ends = &channels[number];
    (assigned[ends.from as usize], assigned[ends.to as usize])
}

// The next number of a part.
fn count_one(counts: &mut Vec<u32>, part: u32) -> u32
    requires there { part < length counts.old.items }
    requires few { slice_index_or counts.old.items part 0 < 2 ^ 31 }
    ensures number { result ≡ slice_index_or counts.old.items part 0 }
    ensures counted { counts.new.items ≡ slice_set counts.old.items part (slice_index_or counts.old.items part 0 + 1) }
{
    let number = counts[part as usize];
    counts[part as usize] = number + 1;
    number
}

// So many zeros.
fn zeros(alloc: Global, count: usize) -> Result<Vec<u32>, AllocError>
    ensures { IfOk result (λ zeros. zeros.items ≡ replicate count 0) }
{
    vec![in alloc; 0; count]
}
