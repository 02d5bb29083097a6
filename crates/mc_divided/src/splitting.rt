// Where a walk over boxes is split in two.

use mc_model::Channel;
use std::alloc::{AllocError, Global};

/// How many boxes of a walk come into the first of two parts: so many that the fewest channels cross from one to the
/// other, and of those the number nearest to half. Both parts have boxes, where the walk has two.
pub fn split_place(
    alloc: Global,
    channels: &[Channel],
    boxes: usize,
    walk: &[u32],
) -> Result<usize, AllocError> {
    let crossing = crossings(alloc, channels, boxes, walk)?;
    let middle = walk.len() / 2;
    let mut best = middle;
    for place in 1..walk.len() {
        if is_better(&crossing, middle, place, best) {
            best = place;
        }
    }
    Ok(best)
}

// Whether fewer channels cross at one place than at another, or as many and it is nearer to the middle.
fn is_better(crossing: &[usize], middle: usize, place: usize, best: usize) -> bool {
    let here = crossing.get(place).copied().unwrap_or(usize::MAX);
    let there = crossing.get(best).copied().unwrap_or(usize::MAX);
    here < there || here == there && place.abs_diff(middle) < best.abs_diff(middle)
}

// How many channels cross at each place of a walk.
fn crossings(
    alloc: Global,
    channels: &[Channel],
    boxes: usize,
    walk: &[u32],
) -> Result<Vec<usize>, AllocError> {
    let places = places_of(alloc, boxes, walk)?;
    let mut begun = vec![in alloc; 0; walk.len()]?;
    let mut ended = vec![in alloc; 0; walk.len()]?;
    for channel in channels {
        let from = places.get(channel.from as usize).copied().flatten();
        let to = places.get(channel.to as usize).copied().flatten();
        if let (Some(from), Some(to)) = (from, to) {
            count_one(&mut begun, from.min(to));
            count_one(&mut ended, from.max(to));
        }
    }
    sum_up(alloc, &begun, &ended)
}

// The place of each box in a walk, if it is there.
fn places_of(alloc: Global, boxes: usize, walk: &[u32]) -> Result<Vec<Option<usize>>, AllocError> {
    let mut places = vec![in alloc; None; boxes]?;
    for place in 0..walk.len() {
        if let Some(entry) = places.get_mut(walk[place] as usize) {
            *entry = Some(place);
        }
    }
    Ok(places)
}

// One more is counted at a place.
fn count_one(counts: &mut [usize], place: usize) {
    if let Some(count) = counts.get_mut(place) {
        *count = count.saturating_add(1);
    }
}

// Before each place, how many have begun before it and not ended.
fn sum_up(alloc: Global, begun: &[usize], ended: &[usize]) -> Result<Vec<usize>, AllocError> {
    let mut open: usize = 0;
    let mut sums = Vec::with_capacity(alloc, begun.len())?;
    for (begins, ends) in begun.iter().zip(ended.iter()) {
        sums.push(open)?;
        open = open.saturating_add(*begins).saturating_sub(*ends);
    }
    Ok(sums)
}
