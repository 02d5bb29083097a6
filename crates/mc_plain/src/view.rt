//! What C can see of a box and of its slots.

ghost use Rattle.std.specs.Prelude.{◌≡◌, ◌<◌, length};
ghost use Rattle.mc_box.specs.Boxes.{box_owes, goal_at, slot_at};
ghost use Rattle.mc_plain.specs.Views.{box_view, flag_number, flow, goal_number, hears, kind_number, partner, sends, slot_view, state_number};

use crate::signals::medium_number;
use mc_box::{Event, Kind, MediaBox};
use mc_slot::{Goal, Slot, SlotGoal, State};

/// Media in one direction: `flows` is 1 where they flow and 0 where not. They flow in this codec, to this address and
/// port where the slot sends them, and from these where it hears them.
#[repr(C)]
#[derive(Clone, Copy)]
pub struct PlainFlow {
    pub flows: u8,
    pub codec: u8,
    pub port: u16,
    pub addr: u32,
}

/// A slot. `state` is 0 for closed, 1 for opening, 2 for opened, 3 for flowing and 4 for closing. `goal` is 0 for open,
/// 1 for close, 2 for hold and 3 for a link with the slot `partner`. `owes` is 1 where it owes a retry.
#[repr(C)]
#[derive(Clone, Copy)]
pub struct PlainSlotView {
    pub state: u8,
    pub medium: u8,
    pub goal: u8,
    pub partner: u8,
    pub owes: u8,
    pub sends: PlainFlow,
    pub hears: PlainFlow,
}

/// A box. `kind` is 0 for a device and 1 for a feature, and `slots` is how many slots it has. Of its program:
/// `has_program` is 1 where it has one, `has_state` 1 where that is at a state, whose number is `state`, `was_told` 1
/// where it keeps a told word, whose number is `word`, and `shifts` 1 where it can go to a next state.
#[repr(C)]
#[derive(Clone, Copy)]
pub struct PlainBoxView {
    pub kind: u8,
    pub slots: u8,
    pub has_program: u8,
    pub has_state: u8,
    pub was_told: u8,
    pub word: u8,
    pub shifts: u8,
    pub state: u32,
    pub number: u32,
}

impl PlainBoxView {
    /// What there is to see of a box.
    pub fn of(part: &MediaBox) -> PlainBoxView
        ensures { result ≡ box_view part.now }
    {
        PlainBoxView {
            kind: kind_number(part.kind()),
            slots: part.slots().len() as u8,
            has_program: flag_number(part.has_program()),
            has_state: flag_number(part.at().is_some()),
            was_told: flag_number(part.told().is_some()),
            word: part.told().unwrap_or(0),
            shifts: flag_number(part.enabled(&Event::Shift)),
            state: part.at().unwrap_or(0),
            number: part.number(),
        }
    }
}

fn kind_number(kind: Kind) -> u8
    ensures { result ≡ kind_number kind }
{
    match kind {
        Kind::Device => 0,
        Kind::Feature => 1,
    }
}

fn flag_number(flag: bool) -> u8
    ensures { result ≡ flag_number flag }
{
    if flag { 1 } else { 0 }
}

impl PlainSlotView {
    /// What there is to see of a slot.
    pub fn of(part: &MediaBox, local: u8) -> PlainSlotView
        requires { local < length part.now.slots }
        ensures { result ≡ slot_view part.now local }
    {
        let goal = part.goal(local);
        let slot = slot_of(part, local);
        PlainSlotView {
            state: state_number(slot.state),
            medium: medium_number(slot.medium),
            goal: goal_number(goal),
            partner: partner(goal),
            owes: flag_number(owes(part, local)),
            sends: sends(&slot),
            hears: hears(&slot),
        }
    }
}

// Whether the slot owes a retry.
fn owes(part: &MediaBox, local: u8) -> bool
    requires { local < length part.now.slots }
    ensures { result ≡ box_owes part.now local }
{
    part.enabled(&Event::Retry(local))
}

fn slot_of(part: &MediaBox, local: u8) -> Slot
    requires { local < length part.now.slots }
    ensures { result ≡ slot_at part.now local }
{
    part.slots()[local as usize]
}

fn state_number(state: State) -> u8
    ensures { result ≡ state_number state }
{
    match state {
        State::Closed => 0,
        State::Opening => 1,
        State::Opened => 2,
        State::Flowing => 3,
        State::Closing => 4,
    }
}

fn goal_number(goal: SlotGoal) -> u8
    ensures { result ≡ goal_number goal }
{
    match goal {
        SlotGoal::End(Goal::Open) => 0,
        SlotGoal::End(Goal::Close) => 1,
        SlotGoal::End(Goal::Hold) => 2,
        SlotGoal::Link(_) => 3,
    }
}

fn partner(goal: SlotGoal) -> u8
    ensures { result ≡ partner goal }
{
    match goal {
        SlotGoal::End(_) => 0,
        SlotGoal::Link(partner) => partner,
    }
}

fn flow(codec: Option<u8>, port: u16, addr: u32) -> PlainFlow
    ensures { result ≡ flow codec port addr }
{
    match codec {
        Some(codec) => PlainFlow {
            flows: 1,
            codec,
            port,
            addr,
        },
        None => PlainFlow {
            flows: 0,
            codec: 0,
            port: 0,
            addr: 0,
        },
    }
}

// What the slot sends: by the selector that it sent, to where the descriptor that it got says.
fn sends(slot: &Slot) -> PlainFlow
    ensures { result ≡ sends slot.now }
{
    match (slot.state, slot.sel_out, slot.got) {
        (State::Flowing, Some(s), Some(d)) => flow(s.codec, d.port, d.addr),
        _ => flow(None, 0, 0),
    }
}

// What it hears: by the selector that it got.
fn hears(slot: &Slot) -> PlainFlow
    ensures { result ≡ hears slot.now }
{
    match (slot.state, slot.sel_in) {
        (State::Flowing, Some(s)) => flow(s.codec, s.port, s.addr),
        _ => flow(None, 0, 0),
    }
}
