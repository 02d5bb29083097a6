// Turns with their stamps, and two lists of them as one.

ghost use Rattle.std.specs.Prelude.{◌≡◌, ◌++◌, ◌<◌, ◌≤◌, drop, length, slice_index_or, IfOk};
ghost use Rattle.mc_shard_merge.specs.Stamped.{before_stamp, from_stamp, merged_with, stamped_turn, stamped_turns};
ghost use Rattle.mc_shard_merge.specs.Turns.{EachNamed};

use mc_box::Turn;
use mc_shard::Entry;
use std::alloc::{AllocError, Global};

/// A turn with its stamp.
#[derive(Clone, Copy, Debug)]
pub struct StampedTurn {
    pub stamp: u64,
    pub turn: Turn,
}

// An entry's turn.
fn stamped_turn(entry: &Entry, names: &[u32]) -> StampedTurn
    requires { entry.now.who < length names.now }
    ensures { result ≡ stamped_turn (λ at. slice_index_or names.now at 0) entry.now }
{
    let turn = Turn {
        who: names[entry.who as usize],
        event: entry.event,
    };
    StampedTurn {
        stamp: entry.stamp,
        turn,
    }
}

// Those from this place on that have lower stamps come to the end. The answer is the place after them.
fn add_before(
    turns: &mut Vec<StampedTurn>,
    others: &[StampedTurn],
    start: usize,
    stamp: u64,
) -> Result<usize, AllocError>
    requires { start ≤ length others.now }
    ensures within { IfOk result (λ next. next ≤ length others.now) }
    ensures added { IfOk result (λ next. turns.new.items
        ≡ turns.old.items ++ before_stamp stamp (drop start others.now)) }
    ensures rest { IfOk result (λ next. drop next others.now ≡ from_stamp stamp (drop start others.now)) }
{
    for next in start..others.len() {
        let other = others[next];
        if other.stamp >= stamp {
            return Ok(next);
        }
        turns.push(other)?;
    }
    Ok(others.len())
}

/// The turns of a journal, and others, as one list: each stands after those of the others that have lower stamps.
pub fn merged_with(
    alloc: Global,
    journal: &[Entry],
    names: &[u32],
    others: &[StampedTurn],
) -> Result<Vec<StampedTurn>, AllocError>
    requires { EachNamed names.now journal.now }
    ensures { IfOk result (λ turns. turns.items
        ≡ merged_with (stamped_turns (λ at. slice_index_or names.now at 0) journal.now) others.now) }
{
    let mut turns = Vec::new(alloc);
    let mut next = 0;
    for entry in journal {
        next = add_before(&mut turns, others, next, entry.stamp)?;
        turns.push(stamped_turn(entry, names))?;
    }
    turns.extend_from_slice(&others[next..])?;
    Ok(turns)
}
