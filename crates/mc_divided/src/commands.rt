// The commands of a settle.

ghost use Rattle.std.specs.Prelude.{◌≡◌, ◌<◌, ◌≤◌, ◌∷◌, ℕ, [], length, slice_index_or, IsFalse, IsTrue, OnErr, OnOk, true};
ghost use Rattle.mc_box.specs.BoxEvents.{is_command};
ghost use Rattle.mc_box.specs.declared.limit.TheConstants.{SHIFT_LIMIT};
ghost use Rattle.mc_model.specs.Shapes.{is_allowed};
ghost use Rattle.mc_divided.specs.Commanding.{AddsAt, HasAdded, HasBegunSettle, HasSpare, IsLeftIn, IsNoneLeft};
ghost use Rattle.mc_divided.specs.Networks.{IsDividedNetwork, network_state};
ghost use Rattle.mc_divided.specs.States.{HasCommands, NoneLeft, new_state, with_command};
ghost use Rattle.mc_part.specs.Phases.{EachChanged, EachOf, IsKnown};

use crate::network::DividedNetwork;
use mc_box::Turn;
use mc_box::limit::SHIFT_LIMIT;
use mc_part::{Part, PartRun};
use std::alloc::AllocError;

/// A settle begins: no command is left to a box, and none has made a Shift.
pub fn begin_settle(network: &mut DividedNetwork)
    requires { IsDividedNetwork network.old }
    ensures divided { IsDividedNetwork network.new }
    ensures state { network_state network.new ≡ new_state (network_state network.old).world }
{
    network.calm = stays_calm(network.calm, &network.runs);
    begin_parts(&mut network.runs);
}

// Whether no box can make a Shift once it has all its Shifts again.
fn stays_calm(calm: bool, runs: &[PartRun]) -> bool
    requires { EachOf IsKnown runs.now }
    ensures calm { IsTrue result → IsTrue calm }
    ensures spare { IsTrue result → EachOf HasSpare runs.now }
{
    for run in runs {
        if !has_spare(run) {
            return false;
        }
    }
    calm
}

// Whether no box of a part has made all its Shifts.
fn has_spare(run: &PartRun) -> bool
    requires { IsKnown run.now }
    ensures { IsTrue result → HasSpare run.now }
{
    run.known.unshifted || are_below(&run.part.shifts)
}

// Whether none of these counts is at the limit.
fn are_below(counts: &[u32]) -> bool
    ensures { IsTrue result → (who : ℕ) → slice_index_or counts.now who 0 < SHIFT_LIMIT }
{
    for place in 0..counts.len() {
        if counts[place] >= u32::from(SHIFT_LIMIT) {
            return false;
        }
    }
    true
}

// No command is left in any part.
fn begin_parts(runs: &mut [PartRun])
    requires { EachOf IsKnown runs.old }
    ensures { EachChanged HasBegunSettle runs.old runs.new }
{
    for place in 0..runs.len() {
        begin_part(&mut runs[place]);
    }
}

// The same of one part.
fn begin_part(run: &mut PartRun)
    requires { IsKnown run.old }
    ensures { HasBegunSettle run.old run.new }
{
    run.part.begin_settle(run.known.unshifted);
    run.known.unshifted = true;
}

/// Gives a box a command more, which its shape allows, after those that it has. It fails only for want of memory, and
/// the network is as it was then.
pub fn add_command(network: &mut DividedNetwork, turn: Turn) -> Result<(), AllocError>
    requires divided { IsDividedNetwork network.old }
    requires allowed { IsTrue (is_allowed (network_state network.old).world turn) }
    ensures divided { IsDividedNetwork network.new }
    ensures added { OnOk result (network_state network.new ≡ with_command (network_state network.old) turn) }
    ensures kept { OnErr result (network_state network.new ≡ network_state network.old) }
{
    let part = network.assigned[turn.who as usize];
    let who = network.numbers[turn.who as usize];
    let event = turn.event;
    add_at(&mut network.runs, part, Turn { who, event })
}

// A part gets a command more.
fn add_at(runs: &mut Vec<PartRun>, part: u32, turn: Turn) -> Result<(), AllocError>
    requires there { part < length runs.old.items }
    requires command { IsTrue (is_command turn.event) }
    ensures added { OnOk result (AddsAt runs.old.items runs.new.items part (turn ∷ [])) }
    ensures kept { OnErr result (AddsAt runs.old.items runs.new.items part []) }
{
    add_to(&mut runs[part as usize].part, turn)
}

// The same of this part.
fn add_to(part: &mut Part, turn: Turn) -> Result<(), AllocError>
    requires { IsTrue (is_command turn.event) }
    ensures added { OnOk result (HasAdded part.old part.new (turn ∷ [])) }
    ensures kept { OnErr result (HasAdded part.old part.new []) }
{
    drop_made(part);
    part.commands.push(turn)?;
    Ok(())
}

// Where all commands are made they are dropped.
fn drop_made(part: &mut Part)
    ensures same { HasAdded part.old part.new [] }
    ensures used { part.new.used ≤ length part.new.commands.items }
{
    if part.used >= part.commands.len() {
        part.commands.clear();
        part.used = 0;
    }
}

/// Whether a command is left to some box.
pub fn has_commands(network: &DividedNetwork) -> bool
    requires { IsDividedNetwork network.now }
    ensures some { IsTrue result → HasCommands (network_state network.now) }
    ensures none { IsFalse result → NoneLeft (network_state network.now) }
{
    any_left(&network.runs)
}

// Whether one is left in some part.
fn any_left(runs: &[PartRun]) -> bool
    ensures some { IsTrue result → IsLeftIn runs.now }
    ensures none { IsFalse result → EachOf IsNoneLeft runs.now }
{
    for place in 0..runs.len() {
        if has_left(&runs[place]) {
            return true;
        }
    }
    false
}

// Whether one is left in this part.
fn has_left(run: &PartRun) -> bool
    ensures some { IsTrue result → run.now.part.used < length run.now.part.commands.items }
    ensures none { IsFalse result → IsNoneLeft run.now }
{
    run.part.used < run.part.commands.len()
}
