// The commands of a batch, dealt to operators.

ghost use Rattle.std.specs.Prelude.{◌≡◌, ◌<◌, IfOk};
ghost use Rattle.mc_live_settle.specs.Orders.{hand_of, hands_of};
ghost use Rattle.mc_phase.specs.Asked.{hand_lists};

use mc_box::Turn;
use std::alloc::{AllocError, Global};

/// Deals the commands of a batch to so many operators in turn: the one at place `i`, counted from 0, to operator `i`
/// modulo their number, which is at least 1. It fails only for want of memory.
pub fn deal(alloc: Global, operators: u32, batch: &[Turn]) -> Result<Vec<Vec<Turn>>, AllocError>
    requires some { 0 < operators }
    ensures { IfOk result (λ hands. hand_lists hands.items ≡ hands_of operators batch.now) }
{
    let mut hands = Vec::new(alloc);
    for operator in 0..operators {
        hands.push(deal_hand(alloc, operators, operator, batch)?)?;
    }
    Ok(hands)
}

// The hand of one operator.
fn deal_hand(
    alloc: Global,
    operators: u32,
    operator: u32,
    batch: &[Turn],
) -> Result<Vec<Turn>, AllocError>
    requires some { 0 < operators }
    ensures { IfOk result (λ hand. hand.items ≡ hand_of operators batch.now operator) }
{
    let mut hand = Vec::new(alloc);
    for place in 0..batch.len() {
        if place % operators as usize == operator as usize {
            hand.push(batch[place])?;
        }
    }
    Ok(hand)
}
