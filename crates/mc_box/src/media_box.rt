// A box: its slots, and the goal of each.

ghost use Rattle.std.specs.Prelude.{◌≡◌, ◌+◌, ◌*◌, ◌^◌, ◌<◌, ◌≤◌, length, is_err, is_some, map, IfOk, IfSome, IsFalse, IsSome, IsTrue, MatchOption, None, OnErr, OnOk, Some};
ghost use Rattle.mc_signal.specs.Own.{address_of};
ghost use Rattle.mc_slot.specs.Moves.{slot_take};
ghost use Rattle.mc_slot.specs.Sending.{HasPlaces};
ghost use Rattle.mc_box.specs.BoxEvents.{box_event, is_enabled, is_take, is_version_end, may_link, step_of, AddsStep, Appends};
ghost use Rattle.mc_box.specs.BoxSound.{box_state, IsSoundBox};
ghost use Rattle.mc_box.specs.Boxes.{first_slot, goal_at, is_slot, box_owes, own, sender, set_up, slot_at, with_new_slot, FitsSlots};
ghost use Rattle.mc_box.specs.declared.limit.TheConstants.{SLOT_LIMIT};

use crate::event::{Change, Event, Kind, MediaChange};
use crate::parts::BoxParts;
use crate::setup::{Setup, SlotSetup};
use mc_goal::owes;
use mc_lane::Lane;
use mc_signal::{Descriptor, Sender, Signal};
use mc_slot::{Sends, Slot, SlotGoal};
use std::alloc::{AllocError, Global};
use std::marker::Model;

/// A slot's descriptor has the last version that there is, so that no newer one can come.
#[derive(Clone, Copy, PartialEq, Eq, Debug)]
pub struct VersionEnd;

/// A box of a call: a device or a feature, with at most 64 slots.
#[derive(Debug, Drop)]
pub struct MediaBox {
    parts: BoxParts,
}

impl Model for MediaBox {
    ghost use Rattle.mc_box.specs.Boxes.{BoxState};

    ghost Value = { BoxState };

    ghost use Rattle.mc_box.specs.BoxSound.{box_state, IsSoundBox};

    ghost view = { λ b. box_state b.parts };

    ghost invariant = { λ b. IsSoundBox (box_state b.parts) };
}

impl MediaBox {
    /// A new box: its slots are closed, its goals are close, it hears and talks on every slot, and its program is at no
    /// state.
    pub fn new(alloc: Global, setup: Setup) -> Result<MediaBox, AllocError>
        requires few { length setup.slots.items ≤ SLOT_LIMIT }
        requires address { address_of setup.number < 2 ^ 32 }
        requires program { IfSome setup.program (FitsSlots setup.kind (map first_slot setup.slots.items)) }
        ensures { IfOk result (λ made. made ≡ set_up setup) }
    {
        Ok(MediaBox {
            parts: BoxParts::new(alloc, setup)?,
        })
    }

    /// The box that has these parts, as of one that was written down. None where no box keeps such parts: their lists
    /// don't fit together, a slot keeps what its state doesn't allow, a link isn't mutual, the program is for other
    /// slots, or a goal isn't at rest.
    pub fn from_parts(parts: BoxParts) -> Option<MediaBox>
        ensures { MatchOption result (IsSoundBox (box_state parts) → ⊥) (λ made. made ≡ box_state parts) }
    {
        if !parts.is_sound() {
            return None;
        }
        Some(MediaBox { parts })
    }

    /// All that the box keeps, to be written down.
    pub fn parts(&self) -> &BoxParts
        ensures { box_state result.now ≡ self.now }
    {
        &self.parts
    }

    /// The box gets one slot more, in the last place: it is closed, its goal is close, and it hears and talks, at the
    /// box's first version. All else stays. A box with a program has its slots for good.
    pub fn add_slot(&mut self, setup: SlotSetup) -> Result<(), AllocError>
        requires room { length self.old.slots < SLOT_LIMIT }
        requires unprogrammed { self.old.program ≡ None }
        ensures added { OnOk result (self.new ≡ with_new_slot self.old setup) }
        ensures unchanged { OnErr result (self.new ≡ self.old) }
    {
        self.parts.add_slot(setup)
    }

    /// What every box keeps, for a caller to rest on: its links are mutual, each slot keeps what its state allows, and
    /// each goal is at rest.
    pub fn keeps(&self)
        ensures { IsSoundBox self.now }
    {
        let _ = &self.parts;
    }

    /// What the box is.
    pub fn kind(&self) -> Kind
        ensures { result ≡ self.now.kind }
    {
        self.parts.kind
    }

    /// The box's number.
    pub fn number(&self) -> u32
        ensures { result ≡ self.now.number }
    {
        self.parts.number
    }

    /// The slots, by their local numbers. There are at most 64.
    pub fn slots(&self) -> &[Slot]
        ensures slots { result.now ≡ self.now.slots }
        ensures few { length result.now ≤ SLOT_LIMIT }
    {
        &self.parts.slots
    }

    /// The goal of a slot.
    pub fn goal(&self, local: u8) -> SlotGoal
        requires { local < length self.now.slots }
        ensures { result ≡ goal_at self.now local }
    {
        self.parts.goals[local as usize]
    }

    /// The newest descriptor of a slot.
    pub fn own(&self, local: u8) -> Descriptor
        requires { local < length self.now.slots }
        ensures { result ≡ own self.now local }
    {
        self.parts.own(local)
    }

    /// What a slot can send.
    pub fn sender(&self, local: u8) -> Sender
        requires { local < length self.now.slots }
        ensures { result ≡ sender self.now local }
    {
        self.parts.sender(local)
    }

    /// Whether the box has a program.
    pub fn has_program(&self) -> bool
        ensures { result ≡ is_some self.now.program }
    {
        self.parts.program.is_some()
    }

    /// The state that the box's program is at. A new box is at none.
    pub fn at(&self) -> Option<u32>
        ensures { result ≡ self.now.at }
    {
        self.parts.at
    }

    /// The word that the box was told and its program hasn't used.
    pub fn told(&self) -> Option<u8>
        ensures { result ≡ self.now.told }
    {
        self.parts.told
    }

    /// Whether an event can happen now. A Take also needs a lawful signal that comes to its slot, and a Hear a
    /// version that isn't the last.
    pub fn enabled(&self, e: &Event) -> bool
        ensures { result ≡ is_enabled self.now e.now }
    {
        let device = matches!(self.parts.kind, Kind::Device);
        match *e {
            Event::Take(local) | Event::Set(Change::End(local, _)) => self.has(local),
            Event::Set(Change::Link(first, second)) => self.may_link(first, second),
            Event::Media(MediaChange::Hear(local, _) | MediaChange::Talk(local, _)) => {
                device && self.has(local)
            }
            Event::Retry(local) => self.has(local) && self.owes(local),
            Event::Tell(_) => self.has_program(),
            Event::Shift => self.parts.enabled_shift().is_some(),
        }
    }

    /// A slot takes a signal that is lawful for it, and the goal that holds it has its turn. Memory is never wanted.
    pub fn take(&mut self, slot: u8, s: Signal) -> Sends
        requires here { slot < length self.old.slots }
        requires lawful { IsSome (slot_take (slot_at self.old slot) s) }
        ensures event { box_event self.old (Event.Take slot) (Some s) ≡ Some (step_of result self.new) }
        ensures few { result.len ≤ 3 }
    {
        let mut sends = Sends::none();
        self.send_take(slot, s, &mut sends);
        sends
    }

    /// The same, where what is sent comes after what is in a list that the caller has.
    pub fn send_take(&mut self, slot: u8, s: Signal, sends: &mut Sends)
        requires here { slot < length self.old.slots }
        requires lawful { IsSome (slot_take (slot_at self.old slot) s) }
        requires room { HasPlaces sends.old 3 }
        ensures event { AddsStep (box_event self.old (Event.Take slot) (Some s)) self.new sends.old sends.new }
        ensures few { sends.new.len ≤ sends.old.len + 3 }
    {
        self.parts.send_take(slot, s, sends);
    }

    /// An enabled event that takes no signal happens, and what it sends is appended to `out`. It fails just where it is
    /// a Hear of a slot that has the last version, and leaves everything as it was then. Memory is never wanted.
    pub fn act(&mut self, e: Event, out: &mut Lane<(u8, Signal)>) -> Result<(), VersionEnd>
        requires enabled { IsTrue (is_enabled self.old e) }
        requires takes_nothing { IsFalse (is_take e) }
        requires space { 2 * length self.old.slots ≤ out.old.spare }
        ensures event { OnOk result (Appends (box_event self.old e None) self.new out.old.items out.new.items) }
        ensures few { length out.new.items ≤ length out.old.items + 2 * length self.old.slots }
        ensures end { is_err result ≡ is_version_end self.old e }
        ensures unchanged { OnErr result ((self.new ≡ self.old) × (out.new ≡ out.old)) }
        ensures room { out.new.spare + length out.new.items ≡ out.old.spare + length out.old.items }
    {
        self.parts.act(e, out)
    }

    // Whether there is such a slot.
    fn has(&self, local: u8) -> bool
        ensures { result ≡ is_slot self.now local }
    {
        (local as usize) < self.parts.slots.len()
    }

    // Whether two slots may be linked.
    fn may_link(&self, first: u8, second: u8) -> bool
        ensures { result ≡ may_link self.now first second }
    {
        matches!(self.parts.kind, Kind::Feature)
            && self.has(first)
            && self.has(second)
            && first != second
            && self.parts.slots[first as usize].medium == self.parts.slots[second as usize].medium
    }

    // Whether a slot owes a retry.
    fn owes(&self, local: u8) -> bool
        requires { local < length self.now.slots }
        ensures { result ≡ box_owes self.now local }
    {
        match self.parts.goals[local as usize] {
            SlotGoal::End(goal) => owes(&self.parts.slots[local as usize], goal),
            SlotGoal::Link(_) => false,
        }
    }
}
