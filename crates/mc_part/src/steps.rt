// The turns of a part, one of each kind, each within the budget.

ghost use Rattle.std.specs.Prelude.{◌≡◌, ◌<◌, ◌≤◌, ◌+◌, ℕ, false, true, length, Some, IfErr, OnErr, OnOk};
ghost use Rattle.mc_box.specs.BoxEvents.{is_enabled, is_take, is_version_end, turn_of};
ghost use Rattle.mc_box.specs.declared.event.Event.{Event};
ghost use Rattle.mc_box.specs.declared.event.Turn.{Turn};
ghost use Rattle.mc_box.specs.declared.limit.TheConstants.{SHIFT_LIMIT};
ghost use Rattle.mc_model.specs.Worlds.{box_at};
ghost use Rattle.mc_world.specs.StepAnswers.{LacksVersion};
ghost use Rattle.mc_world.specs.Waiting.{take_waits};
ghost use Rattle.mc_part.specs.Parts.{IsRefused, IsWithin, TurnsOnce, shifts_of};
ghost use Rattle.mc_part.specs.Running.{ChangesOnly, Goes, StopsAs, next_command};
ghost use Rattle.mc_part.specs.declared.limit.TheConstants.{STAMP_LIMIT};

use crate::part::Part;
use crate::stop::PartStop;
use mc_box::{Event, MediaChange, Turn};
use mc_io::Gate;
use mc_world::StepFault;
use std::alloc::AllocError;

/// The next command.
pub fn command<G: Gate>(part: &mut Part, gate: &G, budget: u32) -> Result<(), PartStop>
    requires budget { budget ≤ STAMP_LIMIT }
    requires within { IsWithin part.old }
    requires some { part.old.used < length part.old.commands.items }
    ensures goes { Goes budget part.old part.new }
    ensures stops { IfErr result (λ stop. StopsAs stop part.new budget) }
    ensures only { (turn : Turn) → next_command part.old ≡ Some turn → ChangesOnly part.old part.new turn.who }
    ensures used { OnOk result (part.new.used ≡ part.old.used + 1) }
    ensures log { OnErr result (part.new.log.items ≡ part.old.log.items) }
{
    if part.log.len() >= budget as usize {
        return Err(PartStop::Spent);
    }
    let Turn { who, event } = part.commands[part.used];
    match part.turn(gate, who, event) {
        Ok(()) => {
            part.used += 1;
            Ok(())
        }
        Err(fault) => Err(refused_command(part, who, event, fault)),
    }
}

// Why the next command isn't made.
fn refused_command(part: &Part, who: u32, event: Event, fault: StepFault) -> PartStop
    requires next { next_command part.now ≡ Some (turn_of who event) }
    requires refused { IsRefused part.now.engine (turn_of who event) fault }
    ensures { (budget : ℕ) → StopsAs result part.now budget }
{
    match fault {
        StepFault::NoMemory(e) => PartStop::NoMemory(e),
        StepFault::NotEnabled => PartStop::Unable(who),
        StepFault::VersionEnd => version_end(part, who, event),
    }
}

// The slot of the next command, which is a Hear.
fn version_end(part: &Part, who: u32, event: Event) -> PartStop
    requires next { next_command part.now ≡ Some (turn_of who event) }
    requires lacks { LacksVersion part.now.engine (turn_of who event) }
    ensures { (budget : ℕ) → StopsAs result part.now budget }
{
    match event {
        Event::Media(MediaChange::Hear(local, _)) => PartStop::VersionEnd(who, local),
        _ => unreachable!(),
    }
}

/// A box takes what waits at a slot of it.
pub fn take<G: Gate>(
    part: &mut Part,
    gate: &G,
    who: u32,
    local: u8,
    budget: u32,
) -> Result<(), PartStop>
    requires budget { budget ≤ STAMP_LIMIT }
    requires within { IsWithin part.old }
    requires here { who < length part.old.engine.boxes }
    requires waits { take_waits part.old.engine who local ≡ true }
    ensures goes { Goes budget part.old part.new }
    ensures stops { IfErr result (λ stop. StopsAs stop part.new budget) }
    ensures only { ChangesOnly part.old part.new who }
    ensures made { OnOk result (length part.new.log.items ≡ length part.old.log.items + 1) }
{
    if part.log.len() >= budget as usize {
        return Err(PartStop::Spent);
    }
    match part.turn(gate, who, Event::Take(local)) {
        Ok(()) => Ok(()),
        Err(fault) => Err(refused_take(part, who, local, fault)),
    }
}

// Why a signal isn't taken.
fn refused_take(part: &Part, who: u32, local: u8, fault: StepFault) -> PartStop
    requires here { who < length part.now.engine.boxes }
    requires waits { take_waits part.now.engine who local ≡ true }
    requires refused { IsRefused part.now.engine (turn_of who (Event.Take local)) fault }
    ensures { (budget : ℕ) → StopsAs result part.now budget }
{
    match fault {
        StepFault::NoMemory(e) => PartStop::NoMemory(e),
        StepFault::NotEnabled => PartStop::Strange(who, local),
        StepFault::VersionEnd => unreachable!(),
    }
}

/// A box makes a Shift, which counts.
pub fn shift<G: Gate>(part: &mut Part, gate: &G, who: u32, budget: u32) -> Result<(), PartStop>
    requires budget { budget ≤ STAMP_LIMIT }
    requires within { IsWithin part.old }
    requires here { who < length part.old.engine.boxes }
    requires enabled { is_enabled (box_at part.old.engine who) Event.Shift ≡ true }
    requires fewer { shifts_of part.old who < SHIFT_LIMIT }
    ensures goes { Goes budget part.old part.new }
    ensures stops { IfErr result (λ stop. StopsAs stop part.new budget) }
    ensures only { ChangesOnly part.old part.new who }
    ensures counted { OnOk result (shifts_of part.new who ≡ shifts_of part.old who + 1) }
{
    if part.log.len() >= budget as usize {
        return Err(PartStop::Spent);
    }
    act(part, gate, who, Event::Shift)?;
    part.shifts[who as usize] += 1;
    Ok(())
}

/// An enabled event that takes no signal and ends no version. It fails only for want of memory.
pub fn act<G: Gate>(part: &mut Part, gate: &G, who: u32, event: Event) -> Result<(), AllocError>
    requires within { IsWithin part.old }
    requires few { length part.old.log.items < STAMP_LIMIT }
    requires here { who < length part.old.engine.boxes }
    requires other { is_take event ≡ false }
    requires enabled { is_enabled (box_at part.old.engine who) event ≡ true }
    requires goes_on { is_version_end (box_at part.old.engine who) event ≡ false }
    ensures made { OnOk result (TurnsOnce part.old part.new who event) }
    ensures same { OnErr result (part.new ≡ record part.old { log = part.new.log }) }
    ensures log { OnErr result (part.new.log.items ≡ part.old.log.items) }
{
    part.engine.boxes()[who as usize].keeps();
    match part.turn(gate, who, event) {
        Ok(()) => Ok(()),
        Err(StepFault::NoMemory(e)) => Err(e),
        Err(StepFault::NotEnabled) => unreachable!(),
        Err(StepFault::VersionEnd) => unreachable!(),
    }
}
