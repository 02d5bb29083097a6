// A settle of a batch.

ghost use Rattle.std.specs.Prelude.{◌≡◌, ◌||◌, [], false, IfErr, IfOk, IsTrue, OnOk, Some};
ghost use Rattle.mc_box.specs.LinkFree.{is_linking};
ghost use Rattle.mc_model.specs.Settles.{IsSettled};
ghost use Rattle.mc_model.specs.Shapes.{AreAllowed};
ghost use Rattle.mc_model.specs.Worlds.{number};
ghost use Rattle.mc_divided.specs.Networks.{IsDividedNetwork, network_state};
ghost use Rattle.mc_divided.specs.States.{IsAtLast};
ghost use Rattle.mc_seq.specs.ShiftLimit.{KeepsShiftLimit};
ghost use Rattle.mc_rounds.specs.Settling.{EndsSettle, sets_link};
ghost use Rattle.mc_rounds.specs.Stops.{Stops};

use crate::answers::answer;
use crate::commands::{begin, use_up};
use crate::finishing::finish;
use mc_box::{Change, Event, Turn};
use mc_divided::{DividedNetwork, slot_number};
use mc_io::Gate;
use mc_seq::{SettleFault, SettleStop};
use std::alloc::{AllocError, Global};
use std::thread::Threads;

/// Settles a batch by phases of a network in parts, with the boxes' turns in any order. Which interleaving of the boxes
/// its turns are no clause tells: any settled segment may be the answer, and any turns that stop with their cause, in
/// which no box makes more than `mc_box::limit::SHIFT_LIMIT` Shifts.
///
/// The network's world allows each command. It always ends: at rest, at a ring of links that the batch or a Shift left,
/// at a box that has made all its Shifts and has one more enabled, or at a Hear of a descriptor that has the last
/// version; or for want of memory. The network is gone where it doesn't rest.
pub fn settle<R: Threads + Sync, G: Gate + Sync>(
    rt: &R,
    alloc: Global,
    gate: &G,
    network: DividedNetwork,
    batch: &[Turn],
) -> Result<(DividedNetwork, Vec<Turn>), SettleFault>
    requires divided { IsDividedNetwork network }
    requires allowed { AreAllowed (network_state network).world batch.now }
    ensures divided { IfOk result (λ done. IsDividedNetwork done.0) }
    ensures settled { IfOk result (λ done.
        IsSettled (network_state network).world batch.now done.1.items (network_state done.0).world) }
    ensures shift_limit { IfOk result (λ done. KeepsShiftLimit done.1.items) }
    ensures stops { IfErr result (Stops (network_state network).world batch.now) }
{
    let mut network = network;
    let mut turns = Vec::new(alloc);
    let ending = run_batch(rt, alloc, gate, batch, &mut network, &mut turns)?;
    answer(network, turns, ending)
}

// The phases of a batch, and how they ended.
fn run_batch<R: Threads + Sync, G: Gate + Sync>(
    rt: &R,
    alloc: Global,
    gate: &G,
    batch: &[Turn],
    network: &mut DividedNetwork,
    turns: &mut Vec<Turn>,
) -> Result<Option<SettleStop>, AllocError>
    requires divided { IsDividedNetwork network.old }
    requires allowed { AreAllowed (network_state network.old).world batch.now }
    requires none_yet { turns.old.items ≡ [] }
    ensures divided { OnOk result (IsDividedNetwork network.new) }
    ensures ended { IfOk result (EndsSettle (network_state network.old).world batch.now turns.new.items
        (network_state network.new).world) }
{
    let free = network.free;
    let short = may_link(network.programs, batch);
    begin(network, batch)?;
    match use_up(rt, gate, short, network, turns)? {
        Some((who, local)) => Ok(Some(SettleStop::VersionEnd(number(network, who, local)))),
        None => {
            let linked = may_be_linked(free, turns);
            finish(rt, alloc, gate, linked, network, turns)
        }
    }
}

// The number of a slot that is at its last version.
fn number(network: &DividedNetwork, who: u32, local: u8) -> u32
    requires divided { IsDividedNetwork network.now }
    requires last { IsAtLast (network_state network.now) (who, local) }
    ensures { number (network_state network.now).world who local ≡ Some result }
{
    match slot_number(network, who, local) {
        Some(slot) => slot,
        None => unreachable!(),
    }
}

// Whether a ring may come about while commands of a batch are left, round which no phase should go for long.
fn may_link(programs: bool, batch: &[Turn]) -> bool
    ensures { result ≡ (programs || sets_link batch.now) }
{
    programs || sets_link(batch)
}

// Whether slots may stand on a ring: they were linked by these turns, or before them.
fn may_be_linked(free: bool, turns: &[Turn]) -> bool
    ensures free { result ≡ false → IsTrue free }
    ensures links { result ≡ false → sets_link turns.now ≡ false }
{
    !free || sets_link(turns)
}

// Whether one of these turns may link slots.
fn sets_link(turns: &[Turn]) -> bool
    ensures { result ≡ sets_link turns.now }
{
    turns.iter().any(|turn| is_linking(turn.event))
}

// Whether an event may link slots.
fn is_linking(event: Event) -> bool
    ensures { result ≡ is_linking event }
{
    matches!(event, Event::Set(Change::Link(..)) | Event::Shift)
}
