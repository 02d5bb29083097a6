//! What C asks of a box: a setup and events, as structs of numbers, each of which may say anything.

ghost use Rattle.std.specs.Prelude.{◌≡◌, map, IfOk, IsTrue};
ghost use Rattle.std.specs.List.{list_all};
ghost use Rattle.mc_signal.specs.Choice.{codecs_of};
ghost use Rattle.mc_plain.specs.Numbers.{is_list, named};
ghost use Rattle.mc_plain.specs.Asked.{event_of, flag_of, given_address, goal_of, is_box, is_plain_slot, is_setup, kind_of, setup_of, SaysSetup};

use crate::program::{PlainState, is_program, program_of};
use crate::signals::{PlainList, medium_of};
use mc_box::limit::SLOT_LIMIT;
use mc_box::{Change, Event, Kind, MediaAddress, MediaChange, Setup, SlotSetup};
use mc_signal::CodecList;
use mc_slot::Goal;
use std::alloc::{AllocError, Global};

/// A box that is to be made. `kind` is 0 for a device and 1 for a feature.
#[repr(C)]
#[derive(Clone, Copy)]
pub struct PlainSetup {
    pub kind: u8,
    pub receives: PlainList,
    pub sends: PlainList,
    pub number: u32,
    pub first_version: u32,
}

/// A slot of a box that is to be made. `medium` is 0 for audio and 1 for video, and `initiator` is 1 on the side of the
/// channel's initiator and 0 on the other. `has_address` is 1 where the slot's media address is `addr` and `port`, and 0
/// where it is made of numbers of the box.
#[repr(C)]
#[derive(Clone, Copy)]
pub struct PlainSlot {
    pub medium: u8,
    pub initiator: u8,
    pub origin: u32,
    pub has_address: u8,
    pub port: u16,
    pub addr: u32,
}

/// An event that takes no signal. By its kind: 0 gives the slot `first` the goal `second` (0 open, 1 close, 2 hold), 1
/// links `first` and `second`, 2 sets whether `first` hears and 3 whether it talks (`second`: 0 or 1), 4 tells the word
/// `first`, 5 retries `first`, and 6 shifts.
#[repr(C)]
#[derive(Clone, Copy)]
pub struct PlainEvent {
    pub kind: u8,
    pub first: u8,
    pub second: u8,
}

impl PlainEvent {
    /// The event that these numbers say, where they say one.
    pub fn event(&self) -> Option<Event>
        ensures { result ≡ event_of self.now }
    {
        match self.kind {
            0 => match goal_of(self.second) {
                Some(goal) => Some(Event::Set(Change::End(self.first, goal))),
                None => None,
            },
            1 => Some(Event::Set(Change::Link(self.first, self.second))),
            2 => match flag_of(self.second) {
                Some(on) => Some(Event::Media(MediaChange::Hear(self.first, on))),
                None => None,
            },
            3 => match flag_of(self.second) {
                Some(on) => Some(Event::Media(MediaChange::Talk(self.first, on))),
                None => None,
            },
            4 => Some(Event::Tell(self.first)),
            5 => Some(Event::Retry(self.first)),
            6 => Some(Event::Shift),
            _ => None,
        }
    }
}

fn goal_of(number: u8) -> Option<Goal>
    ensures { result ≡ goal_of number }
{
    match number {
        0 => Some(Goal::Open),
        1 => Some(Goal::Close),
        2 => Some(Goal::Hold),
        _ => None,
    }
}

fn flag_of(number: u8) -> Option<bool>
    ensures { result ≡ flag_of number }
{
    match number {
        0 => Some(false),
        1 => Some(true),
        _ => None,
    }
}

fn kind_of(number: u8) -> Kind
    ensures { result ≡ kind_of number }
{
    if number == 0 {
        Kind::Device
    } else {
        Kind::Feature
    }
}

impl PlainSlot {
    // Whether these numbers say a slot.
    fn is_slot(&self) -> bool
        ensures { result ≡ is_plain_slot self.now }
    {
        self.medium < 2 && self.initiator < 2 && self.has_address < 2
    }

    // The media address that they give, if any.
    fn given_address(&self) -> Option<MediaAddress>
        ensures { result ≡ given_address self.now }
    {
        if self.has_address == 1 {
            Some(MediaAddress {
                addr: self.addr,
                port: self.port,
            })
        } else {
            None
        }
    }

    // The slot that they say.
    fn setup(&self) -> SlotSetup
        ensures { result ≡ setup_of self.now }
    {
        SlotSetup {
            origin: self.origin,
            medium: medium_of(self.medium),
            initiator: self.initiator == 1,
            address: self.given_address(),
        }
    }
}

impl PlainSetup {
    /// Whether these numbers say a box that can be made. Without states it has no program.
    pub fn is_box(&self, slots: &[PlainSlot], states: &[PlainState]) -> bool
        ensures { result ≡ is_box self.now slots.now states.now }
    {
        self.is_setup(slots) && is_program(self.kind, slots, states)
    }

    fn is_setup(&self, slots: &[PlainSlot]) -> bool
        ensures { result ≡ is_setup self.now slots.now }
    {
        self.kind < 2
            && self.number < u32::MAX
            && slots.len() <= SLOT_LIMIT
            && self.receives.list().is_some()
            && self.sends.list().is_some()
            && are_slots(slots)
    }

    /// The setup that they say.
    pub fn setup(
        &self,
        alloc: Global,
        slots: &[PlainSlot],
        states: &[PlainState],
    ) -> Result<Setup, AllocError>
        requires { IsTrue (is_box self.now slots.now states.now) }
        ensures { IfOk result (SaysSetup self.now slots.now states.now) }
    {
        let program = program_of(alloc, self.kind, slots, states)?;
        let slots = slot_setups(alloc, slots)?;
        Ok(Setup {
            kind: kind_of(self.kind),
            number: self.number,
            codecs: list_of(&self.receives),
            sends: list_of(&self.sends),
            first_version: self.first_version,
            slots,
            program,
        })
    }
}

// The slots that these numbers say.
fn slot_setups(alloc: Global, slots: &[PlainSlot]) -> Result<Vec<SlotSetup>, AllocError>
    ensures { IfOk result (λ made. made.items ≡ map setup_of slots.now) }
{
    slots.iter().map(|slot| slot.setup()).collect(alloc)
}

// Whether these numbers say slots.
fn are_slots(slots: &[PlainSlot]) -> bool
    ensures { result ≡ list_all is_plain_slot slots.now }
{
    slots.iter().all(|slot| slot.is_slot())
}

// The list that these numbers say.
fn list_of(plain: &PlainList) -> CodecList
    requires { IsTrue (is_list plain.now) }
    ensures { codecs_of result ≡ named plain.now }
{
    match plain.list() {
        Some(list) => list,
        None => unreachable!(),
    }
}
