// The engine of a network that need not be whole: some of its boxes, all channels that touch them, and what is under
// way.

ghost use Rattle.std.specs.Prelude.{◌≡◌, ◌↔◌, ◌<◌, ◌≤◌, ◌*◌, ◌+◌, ℕ, true, false, length, slice_index_or, Some, IfNone, IfSome, IsFalse, IsSome, IsTrue, OnErr, OnOk};
ghost use Rattle.mc_slot.specs.Moves.{slot_take};
ghost use Rattle.mc_box.specs.BoxEvents.{is_enabled, is_take, is_version_end, turn_of};
ghost use Rattle.mc_box.specs.Boxes.{slot_at};
ghost use Rattle.mc_model.specs.Steps.{ends_version_at, step, step_by};
ghost use Rattle.mc_model.specs.Worlds.{AreChannels, box_at, front, lane_of, number, place, slot_count, tunnel_of};
ghost use Rattle.mc_world.specs.Pumping.{IsOutgoing, WaitsAt, is_slot_at, with_last, without_first};
ghost use Rattle.mc_world.specs.StepAnswers.{Answers, CannotHappen, LacksVersion};
ghost use Rattle.mc_world.specs.Waiting.{take_waits};
ghost use Rattle.mc_box.specs.declared.event.Event.{Event};

use super::{StepFault, World};
use crate::acting::{act, is_version_end, may_take, senders_of, take_front};
use crate::lanes::{pop_front, put_last};
use crate::topology::{Topology, front_for};
use crate::waiting::Waiting;
use mc_box::{Event, MediaBox};
use mc_lane::Lane;
use mc_model::Channel;
use mc_signal::{Signal, Tagged};
use mc_sums::Sums;
use std::alloc::{AllocError, Global};
use std::marker::Model;

/// Boxes, all channels that touch them, and what is under way in these. A channel may lead to a box that is not here:
/// it has a number past the last box, and makes no turns. Of the network as a whole nothing is asked, so a signal may
/// come that its slot must not take; there is no turn for it.
#[derive(Debug, Drop)]
pub struct Engine {
    pub(super) boxes: Vec<MediaBox>,
    pub(super) channels: Vec<Channel>,
    pub(super) lanes: Vec<Lane<Tagged>>,
    pub(super) topology: Topology,
    pub(super) waiting: Waiting,
    // what a box sends in one turn, empty between turns, so that a turn takes no memory of its own
    pub(super) scratch: Lane<(u8, Signal)>,
}

impl Model for Engine {
    ghost use Rattle.mc_model.specs.Worlds.{WorldState};

    ghost Value = { WorldState };

    ghost use Rattle.mc_world.specs.Running.{running_state, IsRunning};

    ghost view = { running_state };

    ghost invariant = { IsRunning };
}

impl World {
    /// The same network as an engine. It takes no memory.
    pub fn into_engine(self) -> Engine
        ensures { result ≡ self }
    {
        Engine {
            boxes: self.boxes,
            channels: self.channels,
            lanes: self.lanes,
            topology: self.topology,
            waiting: self.waiting,
            scratch: self.scratch,
        }
    }
}

impl Engine {
    /// What every engine keeps, for a caller to rest on: its channels are within the limits, and each has its two lanes.
    pub fn keeps(&self)
        ensures channels { AreChannels self.now.channels }
        ensures lanes { length self.now.lanes ≡ 2 * length self.now.channels }
    {
        let _ = self.topology.places.len();
    }

    /// The boxes that are here, in the order of their numbers.
    pub fn boxes(&self) -> &[MediaBox]
        ensures { result.now ≡ self.now.boxes }
    {
        &self.boxes
    }

    /// One event of one box that is here, where it's enabled. What the box sends is under way then.
    pub fn step(&mut self, who: u32, event: Event) -> Result<(), StepFault>
        ensures ok { OnOk result (step self.old (turn_of who event) ≡ Some self.new) }
        ensures unchanged { OnErr result (self.new ≡ self.old) }

        // An event that has no step is refused: as VersionEnd where it is a Hear that could happen but for the last
        // version, and else as NotEnabled.
        ensures version_end { (result ≡ Err StepFault.VersionEnd) ↔ LacksVersion self.old (turn_of who event) }
        ensures not_enabled { (result ≡ Err StepFault.NotEnabled) ↔ CannotHappen self.old (turn_of who event) }
    {
        if who as usize >= self.boxes.len() {
            return Err(StepFault::NotEnabled);
        }
        self.happen(who, event)
    }

    // An event happens to a box, if it's enabled.
    fn happen(&mut self, who: u32, event: Event) -> Result<(), StepFault>
        requires here { who < length self.old.boxes }
        ensures { Answers self.old self.new (step_by self.old who event) (ends_version_at self.old who event) result }
    {
        match event {
            Event::Take(local) => self.take(who, local),
            Event::Set(_) | Event::Media(_) | Event::Tell(_) | Event::Retry(_) | Event::Shift => {
                self.act(who, event)
            }
        }
    }

    // A slot of a box takes the front of its lane, where it may.
    fn take(&mut self, who: u32, local: u8) -> Result<(), StepFault>
        requires here { who < length self.old.boxes }
        ensures { Answers self.old self.new (step_by self.old who (Event.Take local)) false result }
    {
        let Some(slot) = self.topology.number(who, local) else {
            return Err(StepFault::NotEnabled);
        };
        let toward = self.topology.toward(slot);
        let Some(signal) = front_for(&self.lanes[toward.0], toward.1) else {
            return Err(StepFault::NotEnabled);
        };
        if !may_take(&self.boxes[who as usize], local, &signal) {
            return Err(StepFault::NotEnabled);
        }
        self.take_front(who, local, slot, toward, signal)
    }

    // The same where it may.
    fn take_front(
        &mut self,
        who: u32,
        local: u8,
        slot: u32,
        toward: (usize, u8),
        signal: Signal,
    ) -> Result<(), StepFault>
        requires here { who < length self.old.boxes }
        requires inside { local < length (box_at self.old who).slots }
        requires number { number self.old who local ≡ Some slot }
        requires lane { toward.0 ≡ lane_of self.old slot }
        requires tunnel { toward.1 ≡ (tunnel_of self.old slot).within }
        requires front { front self.old slot ≡ Some signal }
        requires lawful { IsSome (slot_take (slot_at (box_at self.old who) local) signal) }
        ensures { Answers self.old self.new (step_by self.old who (Event.Take local)) false result }
    {
        let home = &mut self.boxes[who as usize];
        home.keeps();
        let senders = senders_of(&self.topology, home, who, local, slot);
        take_front(
            &mut self.lanes,
            &mut self.waiting,
            &self.topology,
            home,
            who,
            &senders,
            toward,
            signal,
        )?;
        Ok(())
    }

    // An event that takes no signal happens to a box.
    fn act(&mut self, who: u32, event: Event) -> Result<(), StepFault>
        requires here { who < length self.old.boxes }
        requires other { is_take event ≡ false }
        ensures { Answers self.old self.new (step_by self.old who event) (ends_version_at self.old who event) result }
    {
        let home = &self.boxes[who as usize];
        if !home.enabled(&event) {
            return Err(StepFault::NotEnabled);
        }
        if is_version_end(home, event) {
            return Err(StepFault::VersionEnd);
        }
        self.act_enabled(who, event)
    }

    // The same where it's enabled, and ends no version.
    fn act_enabled(&mut self, who: u32, event: Event) -> Result<(), StepFault>
        requires here { who < length self.old.boxes }
        requires other { is_take event ≡ false }
        requires enabled { is_enabled (box_at self.old who) event ≡ true }
        requires goes_on { is_version_end (box_at self.old who) event ≡ false }
        ensures { Answers self.old self.new (step_by self.old who event) (ends_version_at self.old who event) result }
    {
        let home = &mut self.boxes[who as usize];
        home.keeps();
        act(
            &mut self.lanes,
            &mut self.waiting,
            &self.topology,
            home,
            who,
            event,
            &mut self.scratch,
        )?;
        Ok(())
    }

    /// A box that is here and a slot of it at which a signal waits that is for it: at the box with this number, at one
    /// of the two beside it, or else at the first of all. None where nothing waits at any box that is here.
    pub fn next_take(&self, last: u32) -> Option<(u32, u8)>
        ensures some { IfSome result (λ at. (at.0 < length self.now.boxes) × (take_waits self.now at.0 at.1 ≡ true)) }
        ensures none { IfNone result ((who local : ℕ) → who < length self.now.boxes
            → take_waits self.now who local ≡ false) }
    {
        self.waiting.takes.keeps();
        let who = next_home(&self.waiting.takes, self.boxes.len(), last)? as u32;
        Some((who, self.waiting.kth(&self.topology, who, 0)))
    }
}

/// A signal that is under way to one of a home's slots, and stands first in the lane that leads there: the slot, the
/// lane, the number of the slot's tunnel within its channel, and the signal.
#[derive(Clone, Copy, Debug)]
pub struct Outgoing {
    pub slot: u32,
    pub lane: usize,
    pub tunnel: u8,
    pub signal: Signal,
}

/// Why a signal isn't put in.
#[derive(Debug, Drop)]
pub enum PutFault {
    NoMemory(AllocError),
    /// It's for no slot at the end of this lane.
    Stray,
}

impl From<AllocError> for PutFault {
    ghost use Rattle.mc_world.specs.declared.network.engine.PutFault.TheVariants.{NoMemory};

    ghost from_gives = { λ e fault. fault ≡ NoMemory e };

    fn from(e: AllocError) -> Self {
        PutFault::NoMemory(e)
    }
}

impl Engine {
    /// A signal that stands first in its lane, for the first slot of a home at which one waits. None where none waits
    /// at any slot of the home.
    pub fn first_out(&self, who: u32) -> Option<Outgoing>
        ensures some { IfSome result (λ out. IsOutgoing self.now out) }
        ensures home { IfSome result (λ out. (place self.now out.slot).0 ≡ who) }
        ensures none { IfNone result ((local : ℕ) → take_waits self.now who local ≡ false) }
    {
        let slot = self.waiting_slot(who)?;
        let (lane, tunnel) = self.topology.toward(slot);
        let Some(signal) = front_for(&self.lanes[lane], tunnel) else {
            unreachable!()
        };
        Some(Outgoing {
            slot,
            lane,
            tunnel,
            signal,
        })
    }

    // The first slot of a home at which a signal waits.
    fn waiting_slot(&self, who: u32) -> Option<u32>
        ensures some { IfSome result (λ slot. WaitsAt self.now who slot) }
        ensures none { IfNone result ((local : ℕ) → take_waits self.now who local ≡ false) }
    {
        if !has_one(
            &self.waiting.takes,
            self.topology.numbers.len(),
            who as usize,
        ) {
            return None;
        }
        let local = self.waiting.kth(&self.topology, who, 0);
        self.topology.number(who, local)
    }

    /// Such a signal leaves its lane.
    pub fn pop_out(&mut self, out: &Outgoing)
        requires { IsOutgoing self.old out.now }
        ensures { self.new ≡ without_first self.old out.now.lane }
    {
        pop_front(
            &mut self.lanes,
            &mut self.waiting,
            &self.topology,
            out.slot,
            (out.lane, out.tunnel),
        );
    }

    /// Puts a signal last into a lane, for a slot to which the lane leads, with the slot's tunnel. It's `Stray` where
    /// there is no such slot, or the lane or the tunnel is another one's.
    pub fn put_in(
        &mut self,
        lane: usize,
        tunnel: u8,
        slot: u32,
        signal: Signal,
    ) -> Result<(), PutFault>
        ensures put { OnOk result (self.new ≡ with_last self.old lane (record { tunnel = tunnel; signal = signal })) }
        ensures there { OnOk result (lane < length self.old.lanes) }
        ensures same { OnErr result (self.new ≡ self.old) }
        ensures stray { (result ≡ Err PutFault.Stray) ↔ IsFalse (is_slot_at self.old lane tunnel slot) }
    {
        if !self.is_slot_at(lane, tunnel, slot) {
            return Err(PutFault::Stray);
        }
        self.put_last(slot, signal)?;
        Ok(())
    }

    // Whether this lane leads to a slot, and this is the slot's tunnel.
    fn is_slot_at(&self, lane: usize, tunnel: u8, slot: u32) -> bool
        ensures leads { result ≡ is_slot_at self.now lane tunnel slot }
        ensures there { IsTrue result → lane < length self.now.lanes }
    {
        if slot as usize >= self.topology.places.len() {
            return false;
        }
        let toward = self.topology.toward(slot);
        toward.0 == lane && toward.1 == tunnel
    }

    // The same for a slot that is there.
    fn put_last(&mut self, slot: u32, signal: Signal) -> Result<(), AllocError>
        requires { slot < slot_count self.old }
        ensures put { OnOk result (self.new ≡ with_last self.old (lane_of self.old slot)
            (record { tunnel = (tunnel_of self.old slot).within; signal = signal })) }
        ensures same { OnErr result (self.new ≡ self.old) }
    {
        put_last(
            &mut self.lanes,
            &mut self.waiting,
            &self.topology,
            slot,
            &signal,
        )
    }
}

// A place among the first at which something is counted: this one, the one after it, the one before it, or else the
// first of all. None where nothing is counted at any.
fn next_home(counts: &Sums, homes: usize, last: u32) -> Option<usize>
    requires { homes ≤ length counts.now }
    ensures some { IfSome result (λ place. (place < homes) × (0 < slice_index_or counts.now place 0)) }
    ensures none { IfNone result ((place : ℕ) → place < homes → slice_index_or counts.now place 0 ≡ 0) }
{
    let place = last as usize;
    if has_one(counts, homes, place) {
        return Some(place);
    }
    if has_one(counts, homes, place + 1) {
        return Some(place + 1);
    }
    let before = place.saturating_sub(1);
    if has_one(counts, homes, before) {
        return Some(before);
    }
    first_home(counts, homes)
}

// Whether something is counted at a place among the first.
fn has_one(counts: &Sums, homes: usize, place: usize) -> bool
    ensures some { IsTrue result → (place < homes) × (0 < slice_index_or counts.now place 0) }
    ensures none { IsFalse result → place < homes → slice_index_or counts.now place 0 ≡ 0 }
{
    place < homes && counts.get(place) > 0
}

// The first of all places at which something is counted, where that is among the first.
fn first_home(counts: &Sums, homes: usize) -> Option<usize>
    ensures some { IfSome result (λ place. (place < homes) × (0 < slice_index_or counts.now place 0)) }
    ensures none { IfNone result ((place : ℕ) → place < homes → slice_index_or counts.now place 0 ≡ 0) }
{
    if counts.total() == 0 {
        return None;
    }
    let (place, _) = counts.find(0);
    if place < homes { Some(place) } else { None }
}
