// Single turns, for which all memory is there.

ghost use Rattle.std.specs.Prelude.{◌≡◌, ◌≢◌, ◌+◌, ◌*◌, ◌^◌, ◌<◌, ◌≤◌, ◌++◌, ℕ, [], ◌∷◌, length, IsFalse, IsSome, IsTrue, OnOk, OnErr, IfOk, Some, slice_get, if◌then◌else◌};
ghost use Rattle.mc_box.specs.BoxEvents.{is_command, is_enabled, is_shift, is_take, is_version_end};
ghost use Rattle.mc_box.specs.BoxShapes.{box_shape};
ghost use Rattle.mc_box.specs.Boxes.{slot_at};
ghost use Rattle.mc_box.specs.declared.event.Event.{Event};
ghost use Rattle.mc_box.specs.declared.limit.TheConstants.{SHIFT_LIMIT, SLOT_LIMIT};
ghost use Rattle.mc_slot.specs.Moves.{slot_take};
ghost use Rattle.mc_worker.specs.Account.{IsWork, in_at};
ghost use Rattle.mc_worker.specs.Ends.{next_in};
ghost use Rattle.mc_worker.specs.Ready.{IsShaped};
ghost use Rattle.mc_worker.specs.Turns.{IsActed, IsTaken, turn_sends_limit};
ghost use Rattle.mc_worker.specs.declared.limit.TheConstants.{STAMP_LIMIT};

use crate::logged::Logged;
use crate::sending::{send_all, send_scratch};
use crate::taking::take_at;
use crate::worker::Worker;
use mc_box::{Event, VersionEnd};
use mc_lane::Lane;
use mc_port::Stamped;
use std::alloc::AllocError;

impl Worker {
    /// Asks for the memory of a turn that sends so many signals at most.
    pub(crate) fn reserve_turn(&mut self, most: usize) -> Result<(), AllocError>
        requires shaped { IsShaped self.old }
        requires most { most ≤ turn_sends_limit }
        ensures work { IsWork self.old self.new [] }
        ensures kept { self.new
            ≡ record self.old { log = self.new.log; outboxes = self.new.outboxes; scratch = self.new.scratch } }
        ensures shaped { IsShaped self.new }
        ensures log { OnOk result (0 < self.new.log.spare) }
        ensures scratch { OnOk result (most ≤ self.new.scratch.spare) }
        ensures room { OnOk result (most ≤ self.new.outboxes.room) }
    {
        self.log.reserve(1)?;
        self.scratch.reserve(most)?;
        self.outboxes.reserve(most)
    }

    /// A slot takes what is next at its channel end. How many signals it sent.
    pub(crate) fn make_take(&mut self, end: u8, slot: u8, item: Stamped) -> u32
        requires shaped { IsShaped self.old }
        requires place { slice_get self.old.place slot ≡ Some (end, item.tunnel) }
        requires next { next_in (in_at self.old end) ≡ Some item }
        requires lawful { IsSome (slot_take (slot_at self.old.part slot) item.signal) }
        requires stamp { item.stamp ≤ STAMP_LIMIT }
        requires stamp_fits { self.old.stamp < 2 ^ 31 }
        requires log { 0 < self.old.log.spare }
        requires room { 3 ≤ self.old.outboxes.room }
        ensures work { IsTaken self.old self.new slot item result }
        ensures shaped { IsShaped self.new }
        ensures same { box_shape self.new.part ≡ box_shape self.old.part }
        ensures others { (e : ℕ) → e ≢ end → in_at self.new e ≡ in_at self.old e }
        ensures ports { length self.new.ins.items ≡ length self.old.ins.items }
        ensures few { result ≤ 3 }
    {
        self.part.keeps();
        take_at(&mut self.ins, &mut self.inboxes, end);
        let sends = self.part.take(slot, item.signal);
        let stamp = self.stamp.max(item.stamp) + 1;
        self.stamp = stamp;
        let event = Event::Take(slot);
        self.log.push(Logged { stamp, event });
        send_all(
            &mut self.outs,
            &mut self.outboxes,
            &self.place,
            sends.as_slice(),
            stamp,
        );
        u32::from(sends.len)
    }

    /// An event that takes nothing is made; a stimulus is the first one. How many signals it sent. It fails just where
    /// it is a Hear of a slot that has the last version, and leaves everything as it was then.
    pub(crate) fn make_act(&mut self, event: Event) -> Result<u32, VersionEnd>
        requires shaped { IsShaped self.old }
        requires enabled { IsTrue (is_enabled self.old.part event) }
        requires takes_nothing { IsFalse (is_take event) }
        requires first { IsTrue (is_command event) → slice_get self.old.stimuli.items 0 ≡ Some event }
        requires shifts { self.old.shifts ≤ SHIFT_LIMIT }
        requires slots { length self.old.part.slots ≤ SLOT_LIMIT }
        requires stamp_fits { self.old.stamp < 2 ^ 31 }
        requires log { 0 < self.old.log.spare }
        requires scratch { 2 * length self.old.part.slots ≤ self.old.scratch.spare }
        requires room { 2 * length self.old.part.slots ≤ self.old.outboxes.room }
        ensures work { IfOk result (λ count. IsActed self.old self.new event count) }
        ensures shaped { IsShaped self.new }
        ensures same { box_shape self.new.part ≡ box_shape self.old.part }
        ensures owes { OnOk result ((slot : ℕ) (other : ℕ) → event ≡ Event.Retry slot → other ≢ slot
            → is_enabled self.new.part (Event.Retry other) ≡ is_enabled self.old.part (Event.Retry other)) }
        ensures ins { (self.new.ins ≡ self.old.ins) × (self.new.inboxes ≡ self.old.inboxes) }
        ensures few { IfOk result (λ count. count ≤ 2 * length self.old.part.slots) }
        ensures end { OnErr result (IsTrue (is_version_end self.old.part event) × (self.new ≡ self.old)) }
    {
        self.part.keeps();
        self.part.act(event, &mut self.scratch)?;
        let count = self.scratch.len() as u32;
        let stamp = self.stamp + 1;
        self.stamp = stamp;
        self.log.push(Logged { stamp, event });
        note_event(&mut self.stimuli, &mut self.shifts, event);
        send_scratch(
            &mut self.outs,
            &mut self.outboxes,
            &self.place,
            &mut self.scratch,
            stamp,
        );
        Ok(count)
    }
}

// A stimulus is used up, and a shift counts.
fn note_event(stimuli: &mut Lane<Event>, shifts: &mut u32, event: Event)
    requires first { IsTrue (is_command event) → slice_get stimuli.old.items 0 ≡ Some event }
    requires fits { shifts.old < 2 ^ 31 }
    ensures stimuli { (if is_command event then event ∷ [] else []) ++ stimuli.new.items ≡ stimuli.old.items }
    ensures shifts { shifts.new ≡ shifts.old + (if is_shift event then 1 else 0) }
{
    match event {
        Event::Set(_) | Event::Media(_) | Event::Tell(_) => {
            stimuli.pop();
        }
        Event::Shift => *shifts += 1,
        Event::Take(_) | Event::Retry(_) => {}
    }
}
