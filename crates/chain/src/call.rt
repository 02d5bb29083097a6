// Calls, and the turns that they take.

use crate::fault::ChainFault;
use crate::network::{CALLEE, CALLER};
use mc_box::{Change, Event};
use mc_slot::Goal;
use mc_world::{StepFault, World};

// How many sweeps over all slots a call may take: more than any needs.
const MOST_SWEEPS: u32 = 1_000_000;

/// The caller opens and the callee holds, and all boxes take what comes to them until nothing is under way. How many
/// turns that takes.
pub fn call(world: &mut World) -> Result<u64, ChainFault> {
    world.step(CALLEE, Event::Set(Change::End(0, Goal::Hold)))?;
    world.step(CALLER, Event::Set(Change::End(0, Goal::Open)))?;
    sweep_until_quiet(world)
}

/// The caller closes, and so does the callee, and all boxes take what comes to them, as in a call. How many turns that
/// takes.
pub fn hang_up(world: &mut World) -> Result<u64, ChainFault> {
    world.step(CALLER, Event::Set(Change::End(0, Goal::Close)))?;
    world.step(CALLEE, Event::Set(Change::End(0, Goal::Close)))?;
    sweep_until_quiet(world)
}

// A slot takes what waits for it, if anything does.
fn take_at(world: &mut World, slot: u32) -> Result<bool, StepFault> {
    if world.slot_count() <= slot as usize || world.front(slot).is_none() {
        return Ok(false);
    }
    let (who, local) = world.place(slot);
    world.step(who, Event::Take(local))?;
    Ok(true)
}

// Sweeps over all slots, forth and back, until nothing is under way.
fn sweep_until_quiet(world: &mut World) -> Result<u64, ChainFault> {
    let mut turns: u64 = 0;
    for _sweep in 0..MOST_SWEEPS {
        if world.quiet() {
            return Ok(turns);
        }
        turns = turns.saturating_add(sweep_forth(world)?);
        turns = turns.saturating_add(sweep_back(world)?);
    }
    Err(ChainFault::Unsettled)
}

// Each slot in turn takes what waits for it.
fn sweep_forth(world: &mut World) -> Result<u64, StepFault> {
    let mut turns: u64 = 0;
    world.keeps();
    for slot in 0..world.slot_count() {
        if take_at(world, slot as u32)? {
            turns = turns.saturating_add(1);
        }
    }
    Ok(turns)
}

// And from the last slot to the first.
fn sweep_back(world: &mut World) -> Result<u64, StepFault> {
    let mut turns: u64 = 0;
    world.keeps();
    for slot in (0..world.slot_count()).rev() {
        if take_at(world, slot as u32)? {
            turns = turns.saturating_add(1);
        }
    }
    Ok(turns)
}
