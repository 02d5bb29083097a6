// The retries that a part owes, each once.

ghost use Rattle.std.specs.Prelude.{◌≡◌, ◌≢◌, ◌<◌, ◌≤◌, ◌+◌, ◌*◌, ℕ, true, length, OnOk};
ghost use Rattle.mc_box.specs.declared.limit.TheConstants.{SLOT_LIMIT};
ghost use Rattle.mc_part.specs.Parts.{IsWithin, Runs};
ghost use Rattle.mc_part.specs.Retries.{HasRetried, box_only, owes, slot_only};
ghost use Rattle.mc_part.specs.Running.{ChangesOnly, RunsSome, owed_of};
ghost use Rattle.mc_part.specs.declared.limit.TheConstants.{STAMP_LIMIT};

use crate::part::Part;
use crate::steps::act;
use mc_box::Event;
use mc_io::Gate;
use std::alloc::AllocError;

/// Makes each retry that is owed, by box and slot in rising order. It fails only for want of memory; some of them may
/// be made then.
pub fn retry_all<G: Gate>(part: &mut Part, gate: &G) -> Result<(), AllocError>
    requires within { IsWithin part.old }
    requires room { length part.old.log.items + SLOT_LIMIT * length part.old.engine.boxes ≤ STAMP_LIMIT }
    ensures run { OnOk result (Runs part.old part.new (owed_of true part.old)) }
    ensures some { RunsSome part.old part.new }
    ensures within { IsWithin part.new }
    ensures few { length part.new.log.items ≤ length part.old.log.items + SLOT_LIMIT * length part.old.engine.boxes }
{
    let boxes = part.engine.boxes().len();
    for who in 0..boxes {
        retry_box(part, gate, who as u32)?;
    }
    Ok(())
}

// The same for one box.
fn retry_box<G: Gate>(part: &mut Part, gate: &G, who: u32) -> Result<(), AllocError>
    requires within { IsWithin part.old }
    requires room { length part.old.log.items + SLOT_LIMIT ≤ STAMP_LIMIT }
    requires here { who < length part.old.engine.boxes }
    ensures retried { OnOk result (HasRetried (box_only who) part.old part.new) }
    ensures some { RunsSome part.old part.new }
    ensures only { ChangesOnly part.old part.new who }
    ensures within { IsWithin part.new }
    ensures few { length part.new.log.items ≤ length part.old.log.items + SLOT_LIMIT }
{
    let home = &part.engine.boxes()[who as usize];
    home.keeps();
    let slots = home.slots().len();
    for local in 0..slots {
        retry_slot(part, gate, who, local as u8)?;
    }
    Ok(())
}

// The retry of one slot, if it is owed.
fn retry_slot<G: Gate>(part: &mut Part, gate: &G, who: u32, local: u8) -> Result<(), AllocError>
    requires within { IsWithin part.old }
    requires room { length part.old.log.items < STAMP_LIMIT }
    requires here { who < length part.old.engine.boxes }
    ensures retried { OnOk result (HasRetried (slot_only who local) part.old part.new) }
    ensures some { RunsSome part.old part.new }
    ensures only { ChangesOnly part.old part.new who }
    ensures others { (other : ℕ) → other ≢ local → owes part.new who other ≡ owes part.old who other }
    ensures within { IsWithin part.new }
    ensures few { length part.new.log.items ≤ length part.old.log.items + 1 }
{
    let event = Event::Retry(local);
    if !part.engine.boxes()[who as usize].enabled(&event) {
        return Ok(());
    }
    act(part, gate, who, event)
}
