// The parts that boxes are in, and their numbers there.

ghost use Rattle.std.specs.Prelude.{◌≡◌, ◌≤◌, length, IfOk};
ghost use Rattle.std.specs.List.{range_with_len};
ghost use Rattle.mc_divided.specs.Laying.{IsDivision};
ghost use Rattle.mc_divided.specs.declared.limit.TheConstants.{NETWORK_LIMIT};

use crate::assigning::{Assigned, assign};
use mc_model::Channel;
use mc_part::homes_of;
use std::alloc::{AllocError, Global};

/// The part of each box, its number there, and how many parts there are.
#[derive(Debug, Drop)]
pub(crate) struct Division {
    pub assigned: Vec<u32>,
    pub numbers: Vec<u32>,
    pub count: usize,
}

/// Divides so many boxes into at most so many parts, or into one where that is 0. It fails only for want of memory.
pub(crate) fn divide(
    alloc: Global,
    channels: &[Channel],
    boxes: usize,
    most: usize,
) -> Result<Division, AllocError>
    requires { boxes ≤ NETWORK_LIMIT }
    ensures division { IfOk result IsDivision }
    ensures each { IfOk result (λ division. length division.assigned.items ≡ boxes) }
{
    let Assigned { parts, count } = assign(alloc, channels, boxes, most)?;
    let homes = homes_of(alloc, &parts, count)?;
    Ok(Division {
        assigned: parts,
        numbers: homes.numbers,
        count,
    })
}

/// The numbers from 0 on, so many.
pub(crate) fn count_up(alloc: Global, count: usize) -> Result<Vec<u32>, AllocError>
    requires { count ≤ NETWORK_LIMIT }
    ensures { IfOk result (λ numbers. numbers.items ≡ range_with_len 0 count) }
{
    let mut numbers = Vec::with_capacity(alloc, count)?;
    for number in 0..count {
        numbers.push(number as u32)?;
    }
    Ok(numbers)
}
