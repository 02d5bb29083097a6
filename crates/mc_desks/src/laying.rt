// Desks as they are laid.

ghost use Rattle.std.specs.Prelude.{◌≡◌, ◌<◌, ◌≤◌, [], replicate, IfOk};
ghost use Rattle.mc_desk.specs.declared.limit.TheConstants.{OPERATOR_LIMIT, ROOM_LIMIT};
ghost use Rattle.mc_desks.specs.Laid.{AreLaid};
ghost use Rattle.mc_desks.specs.Passes.{lists_of};

use crate::dealing::deal;
use mc_desk::{Desk, Operator, Taker};
use std::alloc::{AllocError, Global};

/// The desks of several boxes, in the order of the boxes.
#[derive(Drop)]
pub struct Desks {
    pub desks: Vec<Desk>,
    /// The taker of each desk.
    pub takers: Vec<Taker>,
    /// Of each operator, the right to ask at each desk.
    pub passes: Vec<Vec<Operator>>,
}

/// So many empty desks, each with so many operators, 1 to 8, and with room for 1 to 1,024 requests. It fails only for
/// want of memory.
pub fn lay_desks(
    alloc: Global,
    operators: u32,
    boxes: usize,
    room: usize,
) -> Result<Desks, AllocError>
    requires operators { (0 < operators) × (operators ≤ OPERATOR_LIMIT) }
    requires room { (0 < room) × (room ≤ ROOM_LIMIT) }
    ensures { IfOk result (AreLaid operators boxes room) }
{
    let mut desks = Vec::with_capacity(alloc, boxes)?;
    let mut takers = Vec::with_capacity(alloc, boxes)?;
    let mut passes = empty_lists(alloc, operators as usize)?;
    for _done in 0..boxes {
        let (desk, row, taker) = Desk::new(alloc, operators, room)?;
        deal(row, &mut passes)?;
        desks.push(desk)?;
        takers.push(taker)?;
    }
    Ok(Desks {
        desks,
        takers,
        passes,
    })
}

/// So many empty lists. It fails only for want of memory.
pub(crate) fn empty_lists(alloc: Global, count: usize) -> Result<Vec<Vec<Operator>>, AllocError>
    ensures { IfOk result (λ lists. lists_of lists.items ≡ replicate count []) }
{
    let mut lists = Vec::with_capacity(alloc, count)?;
    for _done in 0..count {
        lists.push(Vec::new(alloc))?;
    }
    Ok(lists)
}
