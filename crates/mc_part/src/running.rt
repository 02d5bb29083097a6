// A part as it runs to its rest: retries and commands first, then what boxes do by themselves, then what waits.

ghost use Rattle.std.specs.Prelude.{◌≡◌, ◌⊎◌, ◌<◌, ◌≤◌, ◌^◌, true, false, length, max, IfErr, IfOk, IsTrue, IsFalse, OnOk};
ghost use Rattle.mc_box.specs.BoxEvents.{is_enabled};
ghost use Rattle.mc_box.specs.declared.event.Event.{Event};
ghost use Rattle.mc_box.specs.declared.limit.TheConstants.{SHIFT_LIMIT};
ghost use Rattle.mc_world.specs.Waiting.{take_waits};
ghost use Rattle.mc_part.specs.Parts.{IsWithin, LeadsAway, Runs, no_retries};
ghost use Rattle.mc_part.specs.Running.{AreCalm, AreCalmFrom, ChangesOnly, EndsAs, Goes, HasBegun, HasRoom, HasTried, IsCalm, MayShift, NoneLeft, NothingWaits, Progresses, RunsAs, StopsAs, StraysAs, UsesAs, UsesFirst, UsesTo};
ghost use Rattle.mc_part.specs.declared.limit.TheConstants.{STAMP_LIMIT};

use crate::limit::LOOK_LIMIT;
use crate::part::Part;
use crate::patience::Patience;
use crate::pumping::{pump_all_in, pump_all_out};
use crate::retrying::retry_all;
use crate::steps::{command, shift, take};
use crate::stop::{Ended, PartStop};
use mc_box::limit::SHIFT_LIMIT;
use mc_box::{Event, MediaBox};
use mc_io::Gate;
use std::sync::atomic::AtomicU64;

// At most so many slots take in a batch.
const BATCH: u32 = 64;

/// Makes each retry that is owed, where they are asked for; then the commands that are left, in their order; and then
/// all that comes of them, and of what rings give meanwhile, until nothing waits at any box of the part for so many
/// looks in turn (`Rest`), or it has looked as often as it may (`Late`).
///
/// It stops where its log has as many turns as the budget, where the next command can't happen or would be a version
/// after the last, where a signal waits that its slot must not take, where a ring gives what is for none of its slots,
/// and where memory wants. All that was made before stands then, and a command that isn't made is among those left.
/// Retries are all made, but where memory wants. Where there is something to do, it makes a turn or stops; and where no
/// retries are asked for, it begins with a command, where some are left.
///
/// The boxes that have no commands can't shift when it begins, unless they have made all their Shifts, or `every` is set,
/// as it is where retries are asked for: then each box is tried. Retries fit into the budget.
///
/// The gate is told of each turn before memory for it is asked for, so of turns too that are refused then: of the box,
/// by its number in the network, and of how many turns the log has with this one. No clause speaks of it.
///
/// Parts count in `busy` how many of them may still find something. That ends them sooner, and no clause rests on it.
pub fn run_part<G: Gate>(
    part: &mut Part,
    gate: &G,
    retries: bool,
    every: bool,
    budget: u32,
    busy: &AtomicU64,
) -> Result<Ended, PartStop>
    requires budget { budget ≤ STAMP_LIMIT }
    requires away { LeadsAway part.old }
    requires within { IsWithin part.old }
    requires asked { IsTrue retries → IsTrue every }
    requires calm { IsFalse every → AreCalmFrom 0 part.old }
    requires few { length part.old.engine.boxes < 2 ^ 32 }
    requires room { HasRoom retries budget part.old }
    ensures run { RunsAs retries part.old part.new result }
    ensures within { IsWithin part.new }
    ensures few { length part.new.log.items ≤ max budget (length part.old.log.items) }
    ensures ends { EndsAs result part.new budget }
    ensures progress { Progresses retries budget part.old part.new result }
    ensures used { IsFalse retries → UsesAs budget part.old part.new result }
{
    let mut patience = Patience::new();
    let ended = run_on(part, gate, retries, every, budget, &mut patience, busy);
    patience.count(busy, false);
    ended
}

// The same while it is counted as busy.
fn run_on<G: Gate>(
    part: &mut Part,
    gate: &G,
    retries: bool,
    every: bool,
    budget: u32,
    patience: &mut Patience,
    busy: &AtomicU64,
) -> Result<Ended, PartStop>
    requires budget { budget ≤ STAMP_LIMIT }
    requires away { LeadsAway part.old }
    requires within { IsWithin part.old }
    requires asked { IsTrue retries → IsTrue every }
    requires calm { IsFalse every → AreCalmFrom 0 part.old }
    requires few { length part.old.engine.boxes < 2 ^ 32 }
    requires room { HasRoom retries budget part.old }
    ensures run { RunsAs retries part.old part.new result }
    ensures within { IsWithin part.new }
    ensures few { length part.new.log.items ≤ max budget (length part.old.log.items) }
    ensures ends { EndsAs result part.new budget }
    ensures tried { OnOk result (HasTried part.old part.new) }
    ensures used { IsFalse retries → OnOk result (UsesFirst budget part.old part.new) }
    ensures spent { IsFalse retries → IfErr result (UsesTo budget part.old part.new) }
{
    retry_first(part, gate, retries, budget)?;
    go_on(part, gate, every, budget, patience, busy)
}

// The retries, where they are asked for. There is room for them.
fn retry_first<G: Gate>(
    part: &mut Part,
    gate: &G,
    retries: bool,
    budget: u32,
) -> Result<(), PartStop>
    requires budget { budget ≤ STAMP_LIMIT }
    requires within { IsWithin part.old }
    requires room { HasRoom retries budget part.old }
    ensures run { RunsAs retries part.old part.new result }
    ensures within { IsWithin part.new }
    ensures few { length part.new.log.items ≤ max budget (length part.old.log.items) }
    ensures stops { IfErr result (StraysAs part.new) }
    ensures none { IsFalse retries → part.new ≡ part.old }
{
    if !retries {
        return Ok(());
    }
    retry_all(part, gate)?;
    Ok(())
}

// What comes after the retries.
fn go_on<G: Gate>(
    part: &mut Part,
    gate: &G,
    every: bool,
    budget: u32,
    patience: &mut Patience,
    busy: &AtomicU64,
) -> Result<Ended, PartStop>
    requires budget { budget ≤ STAMP_LIMIT }
    requires away { LeadsAway part.old }
    requires within { IsWithin part.old }
    requires calm { IsFalse every → AreCalmFrom 0 part.old }
    requires few { length part.old.engine.boxes < 2 ^ 32 }
    ensures goes { Goes budget part.old part.new }
    ensures ends { EndsAs result part.new budget }
    ensures tried { OnOk result (HasTried part.old part.new) }
    ensures used { OnOk result (UsesFirst budget part.old part.new) }
    ensures spent { IfErr result (UsesTo budget part.old part.new) }
{
    begin(part, gate, every, budget)?;
    if part.ports.is_empty() {
        return take_all(part, gate, budget);
    }
    take_over(part, gate, budget, patience, busy)
}

// The commands, and the Shifts of their boxes, or where it is asked for those of all boxes.
fn begin<G: Gate>(part: &mut Part, gate: &G, every: bool, budget: u32) -> Result<(), PartStop>
    requires budget { budget ≤ STAMP_LIMIT }
    requires within { IsWithin part.old }
    requires calm { IsFalse every → AreCalmFrom 0 part.old }
    requires few { length part.old.engine.boxes < 2 ^ 32 }
    ensures goes { Goes budget part.old part.new }
    ensures stops { IfErr result (λ stop. StopsAs stop part.new budget) }
    ensures begun { OnOk result (HasBegun part.new) }
    ensures used { OnOk result (UsesFirst budget part.old part.new) }
    ensures spent { IfErr result (UsesTo budget part.old part.new) }
{
    command_all(part, gate, budget)?;
    if every {
        return shift_every(part, gate, budget);
    }
    shift_commanded(part, gate, budget)
}

// Makes the commands that are left.
fn command_all<G: Gate>(part: &mut Part, gate: &G, budget: u32) -> Result<(), PartStop>
    requires budget { budget ≤ STAMP_LIMIT }
    requires within { IsWithin part.old }
    ensures goes { Goes budget part.old part.new }
    ensures stops { IfErr result (λ stop. StopsAs stop part.new budget) }
    ensures left { OnOk result (NoneLeft part.new) }
    ensures calm { AreCalmFrom 0 part.old → AreCalmFrom 0 part.new }
    ensures used { OnOk result (UsesFirst budget part.old part.new) }
    ensures spent { IfErr result (UsesTo budget part.old part.new) }
{
    'commands: while part.used < part.commands.len() {
        command(part, gate, budget)?;
    }
    Ok(())
}

// The boxes that have commands do what they can by themselves.
fn shift_commanded<G: Gate>(part: &mut Part, gate: &G, budget: u32) -> Result<(), PartStop>
    requires budget { budget ≤ STAMP_LIMIT }
    requires within { IsWithin part.old }
    requires calm { AreCalmFrom 0 part.old }
    ensures goes { Goes budget part.old part.new }
    ensures stops { IfErr result (λ stop. StopsAs stop part.new budget) }
    ensures calm { OnOk result (AreCalm part.new) }
{
    for at in 0..part.commands.len() {
        let who = part.commands[at].who;
        shift_on(part, gate, who, budget)?;
    }
    Ok(())
}

// All boxes do what they can by themselves.
fn shift_every<G: Gate>(part: &mut Part, gate: &G, budget: u32) -> Result<(), PartStop>
    requires budget { budget ≤ STAMP_LIMIT }
    requires few { length part.old.engine.boxes < 2 ^ 32 }
    requires within { IsWithin part.old }
    ensures goes { Goes budget part.old part.new }
    ensures stops { IfErr result (λ stop. StopsAs stop part.new budget) }
    ensures calm { OnOk result (AreCalm part.new) }
{
    for who in 0..part.engine.boxes().len() {
        shift_on(part, gate, who as u32, budget)?;
    }
    Ok(())
}

// Goes on with what waits and with what rings give, until so many looks in turn have found nothing.
fn take_over<G: Gate>(
    part: &mut Part,
    gate: &G,
    budget: u32,
    patience: &mut Patience,
    busy: &AtomicU64,
) -> Result<Ended, PartStop>
    requires budget { budget ≤ STAMP_LIMIT }
    requires some { 0 < length part.old.ports.items }
    requires away { LeadsAway part.old }
    requires within { IsWithin part.old }
    requires begun { HasBegun part.old }
    ensures goes { Goes budget part.old part.new }
    ensures ends { EndsAs result part.new budget }
    ensures tried { OnOk result (HasTried part.old part.new) }
{
    let mut last = 0;
    for _look in 0..LOOK_LIMIT {
        let before = part.log.len();
        let crossed = pump(part)?;
        let rests = take_some(part, gate, &mut last, budget)?;
        let found = either(crossed, part.log.len() > before);
        if is_over(rests, found, patience, busy) {
            return Ok(Ended::Rest);
        }
    }
    Ok(Ended::Late)
}

// Whether a look was the last, where nothing waits.
fn is_over(rests: bool, found: bool, patience: &mut Patience, busy: &AtomicU64) -> bool
    ensures { IsTrue result → IsTrue rests }
{
    if rests {
        return patience.ends(busy, found);
    }
    let _ends = patience.ends(busy, true);
    false
}

// Whether one of two is so.
fn either(one: bool, two: bool) -> bool {
    one || two
}

// What waits at place holders goes out, and what rings give comes in. Whether something crossed.
fn pump(part: &mut Part) -> Result<bool, PartStop>
    requires away { LeadsAway part.old }
    requires within { IsWithin part.old }
    ensures run { Runs part.old part.new no_retries }
    ensures within { IsWithin part.new }
    ensures log { part.new.log.items ≡ part.old.log.items }
    ensures stops { IfErr result (StraysAs part.new) }
{
    let went = pump_all_out(part);
    let came = pump_all_in(part)?;
    Ok(either(went, came))
}

// Where no channel crosses: takes what waits, and each box that took does what it can by itself then.
fn take_all<G: Gate>(part: &mut Part, gate: &G, budget: u32) -> Result<Ended, PartStop>
    requires budget { budget ≤ STAMP_LIMIT }
    requires within { IsWithin part.old }
    requires begun { HasBegun part.old }
    ensures goes { Goes budget part.old part.new }
    ensures ends { EndsAs result part.new budget }
    ensures tried { OnOk result (HasTried part.old part.new) }
{
    let mut last = 0;
    for _done in 0..budget {
        if take_some(part, gate, &mut last, budget)? {
            return Ok(Ended::Rest);
        }
    }
    Err(PartStop::Spent)
}

// Takes what waits, for one batch; whether nothing waits then. It begins at the box that took last.
fn take_some<G: Gate>(
    part: &mut Part,
    gate: &G,
    last: &mut u32,
    budget: u32,
) -> Result<bool, PartStop>
    requires budget { budget ≤ STAMP_LIMIT }
    requires within { IsWithin part.old }
    requires calm { AreCalm part.old }
    ensures goes { Goes budget part.old part.new }
    ensures stops { IfErr result (λ stop. StopsAs stop part.new budget) }
    ensures calm { OnOk result (AreCalm part.new) }
    ensures rests { IfOk result (λ rests. IsTrue rests → NothingWaits part.new) }
    ensures made { IfOk result (λ rests. IsFalse rests → length part.old.log.items < length part.new.log.items) }
{
    for _done in 0..BATCH {
        let Some((who, local)) = part.engine.next_take(*last) else {
            return Ok(true);
        };
        take_at(part, gate, who, local, budget)?;
        *last = who;
    }
    Ok(false)
}

// A box takes what waits at a slot of it, and does what it can by itself then.
fn take_at<G: Gate>(
    part: &mut Part,
    gate: &G,
    who: u32,
    local: u8,
    budget: u32,
) -> Result<(), PartStop>
    requires budget { budget ≤ STAMP_LIMIT }
    requires within { IsWithin part.old }
    requires here { who < length part.old.engine.boxes }
    requires waits { take_waits part.old.engine who local ≡ true }
    requires calm { AreCalm part.old }
    ensures goes { Goes budget part.old part.new }
    ensures stops { IfErr result (λ stop. StopsAs stop part.new budget) }
    ensures calm { OnOk result (AreCalm part.new) }
    ensures made { OnOk result (length part.old.log.items < length part.new.log.items) }
{
    take(part, gate, who, local, budget)?;
    shift_on(part, gate, who, budget)
}

// A box makes Shifts while it can.
fn shift_on<G: Gate>(part: &mut Part, gate: &G, who: u32, budget: u32) -> Result<(), PartStop>
    requires budget { budget ≤ STAMP_LIMIT }
    requires within { IsWithin part.old }
    ensures goes { Goes budget part.old part.new }
    ensures stops { IfErr result (λ stop. StopsAs stop part.new budget) }
    ensures only { ChangesOnly part.old part.new who }
    ensures calm { OnOk result (who < length part.old.engine.boxes → IsCalm part.new who) }
    ensures grows { length part.old.log.items ≤ length part.new.log.items }
{
    for _done in 0..SHIFT_LIMIT {
        if !can_shift(part, who) {
            return Ok(());
        }
        shift(part, gate, who, budget)?;
    }
    Ok(())
}

// Whether a box's program can go on, and may.
fn can_shift(part: &Part, who: u32) -> bool
    requires counts { length part.now.shifts.items ≡ length part.now.engine.boxes }
    ensures may { IsTrue result → MayShift part.now who }
    ensures calm { IsFalse result → who < length part.now.engine.boxes → IsCalm part.now who }
{
    match part.engine.boxes().get(who as usize) {
        Some(home) => may_shift(home, part.shifts[who as usize]),
        None => false,
    }
}

// Whether a box that has made so many Shifts can make one more.
fn may_shift(home: &MediaBox, shifts: u32) -> bool
    ensures may { IsTrue result → IsTrue (is_enabled home.now Event.Shift) × (shifts < SHIFT_LIMIT) }
    ensures calm { IsFalse result → (is_enabled home.now Event.Shift ≡ false) ⊎ (SHIFT_LIMIT ≤ shifts) }
{
    shifts < u32::from(SHIFT_LIMIT) && home.enabled(&Event::Shift)
}
