//! The retries of a journal by their running numbers, from 1 on.

ghost use Rattle.std.specs.Prelude.{◌≡◌, ◌<◌, ◌≤◌, ◌+◌, ◌^◌, length, IfOk};
ghost use Rattle.mc_model.specs.Worlds.{slot_count};
ghost use Rattle.mc_replay.specs.Moments.{AreNumbered, CountsRetry, WasRetried};

use mc_box::{Event, Turn};
use mc_world::World;
use std::alloc::{AllocError, Global};

/// How many retries were made, for each slot the number of its last one (0 where there is none), and the greatest such
/// number of a slot that was retried again. So no slot was retried twice after the first `n` retries where that number
/// is at most `n`.
#[derive(Drop)]
pub struct Retries {
    pub made: u64,
    pub last: Vec<u64>,
    pub low: u64,
}

/// Where none was made.
pub fn no_retries(alloc: Global, world: &World) -> Result<Retries, AllocError>
    ensures numbered { IfOk result (AreNumbered (slot_count world.now)) }
    ensures none { IfOk result (λ retries. retries.made ≡ 0) }
{
    let last = vec![in alloc; 0; world.slot_count()]?;
    Ok(Retries {
        made: 0,
        last,
        low: 0,
    })
}

/// Counts a turn that was made, where it is a retry.
pub fn count_retry(retries: &mut Retries, world: &World, turn: Turn)
    requires slots { length retries.old.last.items ≡ slot_count world.now }
    requires few { retries.old.made + 1 < 2 ^ 64 }
    ensures counts { CountsRetry world.now retries.old retries.new turn.who turn.event }
    ensures made { retries.new.made ≤ retries.old.made + 1 }
{
    let Event::Retry(local) = turn.event else {
        return;
    };
    if let Some(slot) = world.number(turn.who, local) {
        count_at(retries, slot);
    }
}

// The same by the number of its slot.
fn count_at(retries: &mut Retries, slot: u32)
    requires slot { slot < length retries.old.last.items }
    requires few { retries.old.made + 1 < 2 ^ 64 }
    ensures { WasRetried retries.old retries.new slot }
{
    let number = retries.made + 1;
    retries.low = retries.low.max(retries.last[slot as usize]);
    retries.last[slot as usize] = number;
    retries.made = number;
}
