// A phase of a network: its parts run side by side, and what crosses is carried over.

ghost use Rattle.std.specs.Prelude.{◌≡◌, ◌<◌, ◌≤◌, false, true, length, IfOk, IsTrue, OnOk};
ghost use Rattle.mc_divided.specs.Networks.{IsDividedNetwork, network_state, turn_budget};
ghost use Rattle.mc_divided.specs.Phasing.{AreOf, EndAs, EndsCalm, EndsLawfully, HasMemory, HasPlayed, StopIs};
ghost use Rattle.mc_divided.specs.States.{PlaysOn};
ghost use Rattle.mc_part.specs.Phases.{EachOf};
ghost use Rattle.mc_part.specs.declared.part_run.PartRun.{PartRun};
ghost use Rattle.mc_merge.specs.Weaving.{numbers_of};
ghost use Rattle.mc_merge.specs.Wholes.{numbers_in};

use crate::carrying_over::carry_over;
use crate::choosing::choose;
use crate::merging::merge_logs;
use crate::network::{Crossing, DividedNetwork};
use mc_box::Turn;
use mc_io::Gate;
use mc_part::limit::STAMP_LIMIT;
use mc_part::{Ended, PartLog, PartRun, PartStop, run_parts};
use std::alloc::AllocError;
use std::sync::atomic::AtomicU64;
use std::thread::Threads;

// A part of a short phase makes so many turns at most, beside its commands.
const SHORT_BUDGET: u32 = 4_096;

/// Runs the parts that have something to do, and those that theirs can reach, side by side on threads: the retries that
/// are owed first, where they are asked for, then the commands that are left, and then what comes of them. Where
/// `short` is set, each part makes few turns beside. Answers the box and the slot whose next command is a Hear at the
/// last version, where one stopped there.
///
/// The turns are added to those before. It fails only for want of memory; the network is in pieces then.
pub fn run_phase<R: Threads + Sync, G: Gate + Sync>(
    rt: &R,
    gate: &G,
    retries: bool,
    short: bool,
    network: &mut DividedNetwork,
    turns: &mut Vec<Turn>,
) -> Result<Option<(u32, u8)>, AllocError>
    requires { IsDividedNetwork network.old }
    ensures divided { OnOk result (IsDividedNetwork network.new) }
    ensures played { IfOk result (PlaysOn retries (network_state network.old) (network_state network.new)
        turns.old.items turns.new.items) }
{
    play_parts(
        rt,
        gate,
        retries,
        short,
        network.calm,
        &network.crossings,
        &mut network.logs,
        &mut network.runs,
        turns,
    )?;
    network.calm = are_calm(network.calm, &network.runs);
    network.free = false;
    first_end(&network.logs, &network.runs)
}

// The same of the parts alone.
fn play_parts<R: Threads + Sync, G: Gate + Sync>(
    rt: &R,
    gate: &G,
    retries: bool,
    short: bool,
    calm: bool,
    crossings: &[Crossing],
    logs: &mut [PartLog],
    runs: &mut [PartRun],
    turns: &mut Vec<Turn>,
) -> Result<(), AllocError>
    requires { AreOf calm crossings.now runs.old logs.old }
    ensures { OnOk result (HasPlayed retries calm crossings.now runs.old runs.new logs.old logs.new
        turns.old.items turns.new.items) }
{
    let every = is_every(retries, calm);
    let budget = budget_of(retries, short, runs);
    let busy = AtomicU64::new(choose(every, logs, runs));
    let size = runs.len();
    run_parts(rt, gate, retries, every, budget, size, &busy, runs, logs);
    check_memory(runs)?;
    carry_over(crossings, runs)?;
    merge_logs(runs, logs, turns)
}

// Whether the Shifts of each box are tried.
fn is_every(retries: bool, calm: bool) -> bool
    ensures asked { IsTrue retries → IsTrue result }
    ensures calm { result ≡ false → calm ≡ true }
    ensures unasked { result ≡ false → retries ≡ false }
{
    retries || !calm
}

// How many turns each part may make.
fn budget_of(retries: bool, short: bool, runs: &[PartRun]) -> u32
    requires { 0 < length runs.now }
    ensures few { result ≤ turn_budget (length runs.now) }
    ensures some { 0 < turn_budget (length runs.now) → 0 < result }
    ensures full { IsTrue retries → result ≡ turn_budget (length runs.now) }
{
    let full = (STAMP_LIMIT as usize / runs.len()) as u32;
    if retries || !short {
        return full;
    }
    full.min(most_commands(runs).saturating_add(SHORT_BUDGET))
}

// The most commands that a part has.
fn most_commands(runs: &[PartRun]) -> u32 {
    let mut most = 0;
    for run in runs {
        most = most.max(run.part.commands.len());
    }
    most.min(STAMP_LIMIT as usize) as u32
}

// Whether there was memory in each part.
fn check_memory(runs: &[PartRun]) -> Result<(), AllocError>
    ensures { OnOk result (EachOf (λ (run : PartRun). HasMemory run.ended) runs.now) }
{
    for run in runs {
        if !has_memory(run) {
            return Err(AllocError);
        }
    }
    Ok(())
}

// The same of one part.
fn has_memory(run: &PartRun) -> bool
    ensures { IsTrue result → HasMemory run.now.ended }
{
    match run.ended {
        None => true,
        Some(Ok(_)) => true,
        Some(Err(PartStop::NoMemory(_))) => false,
        Some(Err(_)) => true,
    }
}

// Whether no box can make a Shift after a run, where none could before it, or each part ended by itself.
fn are_calm(calm: bool, runs: &[PartRun]) -> bool
    ensures { IsTrue result → EachOf (λ (run : PartRun). EndsCalm calm run.ended) runs.now }
{
    for run in runs {
        if !ends_calm(calm, run) {
            return false;
        }
    }
    true
}

// The same of one part.
fn ends_calm(calm: bool, run: &PartRun) -> bool
    ensures { IsTrue result → EndsCalm calm run.now.ended }
{
    match run.ended {
        None => calm,
        Some(Ok(Ended::Rest)) => true,
        Some(Ok(Ended::Late)) => true,
        Some(Err(_)) => false,
    }
}

// The first part that stopped at a last version, by the network's numbers.
fn first_end(logs: &[PartLog], runs: &[PartRun]) -> Result<Option<(u32, u8)>, AllocError>
    requires { EachOf (λ (run : PartRun). EndsLawfully run.ended) runs.now }
    ensures { IfOk result (EndAs (numbers_of logs.now) runs.now) }
{
    for part in 0..runs.len() {
        if let Some((who, local)) = stop_of(&runs[part])? {
            return Ok(Some((number_in(logs, part, who), local)));
        }
    }
    Ok(None)
}

// Where a part stopped at a last version.
fn stop_of(run: &PartRun) -> Result<Option<(u32, u8)>, AllocError>
    requires { EndsLawfully run.now.ended }
    ensures { IfOk result (StopIs run.now.ended) }
{
    match run.ended {
        None => Ok(None),
        Some(Ok(_)) => Ok(None),
        Some(Err(PartStop::Spent)) => Ok(None),
        Some(Err(PartStop::VersionEnd(who, local))) => Ok(Some((who, local))),
        Some(Err(PartStop::Unable(_))) => unreachable!(),
        Some(Err(PartStop::Strange(_, _))) => unreachable!(),
        Some(Err(PartStop::Stray(_))) => unreachable!(),
        Some(Err(PartStop::NoMemory(_))) => Err(AllocError),
    }
}

// The network's number of a part's box.
fn number_in(logs: &[PartLog], part: usize, who: u32) -> u32
    ensures { result ≡ numbers_in (numbers_of logs.now) part who }
{
    match logs.get(part) {
        Some(log) => log.numbers.get(who as usize).copied().unwrap_or(0),
        None => 0,
    }
}
