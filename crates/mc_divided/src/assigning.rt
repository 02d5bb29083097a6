// Which part each box goes to.

ghost use Rattle.std.specs.Prelude.{◌≡◌, ◌*◌, ◌<◌, ◌≤◌, replicate, All, IfOk, IsTrue};
ghost use Rattle.mc_box.specs.declared.limit.TheConstants.{SLOT_LIMIT};
ghost use Rattle.mc_divided.specs.Assigning.{AreAssigned, HaveParts};
ghost use Rattle.mc_divided.specs.Networks.{turn_budget};
ghost use Rattle.mc_divided.specs.declared.limit.TheConstants.{NETWORK_LIMIT};
ghost use Rattle.mc_part.specs.declared.limit.TheConstants.{STAMP_LIMIT};

use crate::limit::NETWORK_LIMIT;
use crate::splitting::split_place;
use crate::walking::walks;
use mc_box::limit::SLOT_LIMIT;
use mc_model::Channel;
use mc_part::homes_of;
use mc_part::limit::STAMP_LIMIT;
use std::alloc::{AllocError, Global};

/// The part of each box, and how many parts there are.
#[derive(Debug, Drop)]
pub struct Assigned {
    pub parts: Vec<u32>,
    pub count: usize,
}

/// Assigns boxes to at most so many parts. Boxes that channels join go to one part, where they are no more than its
/// share, and else, or where there are no others, to two: so two boxes make two parts where there may be two. They are
/// split where few channels cross, and near the middle where that is as good. No clause tells where the boxes go.
pub fn assign(
    alloc: Global,
    channels: &[Channel],
    boxes: usize,
    most: usize,
) -> Result<Assigned, AllocError>
    requires { boxes ≤ NETWORK_LIMIT }
    ensures { IfOk result (AreAssigned boxes) }
{
    let count = most.min(boxes).max(1);
    let parts = spread(alloc, channels, boxes, count)?;
    if fits(alloc, &parts, boxes, count)? {
        return Ok(Assigned { parts, count });
    }
    let parts = zeros(alloc, boxes)?;
    Ok(Assigned { parts, count: 1 })
}

// So many zeros.
fn zeros(alloc: Global, count: usize) -> Result<Vec<u32>, AllocError>
    ensures { IfOk result (λ zeros. zeros.items ≡ replicate count 0) }
{
    vec![in alloc; 0; count]
}

// Spreads boxes over so many parts: what channels join as a whole, or divided in two where it is more than a share.
fn spread(
    alloc: Global,
    channels: &[Channel],
    boxes: usize,
    count: usize,
) -> Result<Vec<u32>, AllocError>
    requires boxes { boxes ≤ NETWORK_LIMIT }
    requires some { 0 < count }
{
    let share = boxes.div_ceil(count);
    let mut parts = zeros(alloc, boxes)?;
    let mut sizes = vec![in alloc; 0; count]?;
    for walk in &walks(alloc, channels, boxes)? {
        if walk.len() <= share {
            place(walk, &mut sizes, &mut parts);
        } else {
            let middle = split_place(alloc, channels, boxes, walk)?;
            let (front, back) = walk.split_at(middle.min(walk.len()));
            place(front, &mut sizes, &mut parts);
            place(back, &mut sizes, &mut parts);
        }
    }
    Ok(parts)
}

// Boxes go to the part that has the fewest.
fn place(boxes: &[u32], sizes: &mut [usize], parts: &mut [u32]) {
    let part = smallest(sizes);
    if let Some(size) = sizes.get_mut(part) {
        *size = size.saturating_add(boxes.len());
    }
    for who in boxes {
        if let Some(place) = parts.get_mut(*who as usize) {
            *place = u32::try_from(part).unwrap_or(0);
        }
    }
}

// The place of the least of these numbers.
fn smallest(sizes: &[usize]) -> usize {
    let mut best = 0;
    for place in 0..sizes.len() {
        if sizes[place] < sizes.get(best).copied().unwrap_or(0) {
            best = place;
        }
    }
    best
}

// Whether these are parts of so many boxes, each of so few that their retries fit into a phase.
fn fits(alloc: Global, parts: &[u32], boxes: usize, count: usize) -> Result<bool, AllocError>
    requires boxes { boxes ≤ NETWORK_LIMIT }
    requires some { 0 < count }
    requires few { count ≤ STAMP_LIMIT }
    ensures { IfOk result (λ fits. IsTrue fits → HaveParts boxes parts.now count) }
{
    if parts.len() != boxes || parts.iter().any(|part| *part as usize >= count) {
        return Ok(false);
    }
    let homes = homes_of(alloc, parts, count)?;
    Ok(are_small(&homes.counts, count))
}

// Whether each part has so few boxes.
fn are_small(counts: &[u32], count: usize) -> bool
    requires { 0 < count }
    ensures { IsTrue result → All (λ boxes. SLOT_LIMIT * boxes ≤ turn_budget count) counts.now }
{
    let budget = STAMP_LIMIT as usize / count;
    counts
        .iter()
        .all(|boxes| SLOT_LIMIT * *boxes as usize <= budget)
}
