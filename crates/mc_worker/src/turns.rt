// The turns of a round, each after its memory was asked for.

ghost use Rattle.std.specs.List.{AllByRecursion};
ghost use Rattle.std.specs.Prelude.{◌≡◌, ◌≢◌, ◌⊎◌, ◌<◌, ◌≤◌, ℕ, [], length, is_some, IsFalse, IsTrue, IfNone, IfSome, MatchOption, Some, false, slice_get};
ghost use Rattle.mc_box.specs.BoxEvents.{is_command, is_enabled, is_shift, is_take, is_version_end};
ghost use Rattle.mc_box.specs.Boxes.{slot_at};
ghost use Rattle.mc_box.specs.declared.event.Event.{Event};
ghost use Rattle.mc_box.specs.declared.limit.TheConstants.{SHIFT_LIMIT};
ghost use Rattle.mc_slot.specs.Moves.{slot_take};
ghost use Rattle.mc_worker.specs.Account.{IsWork, in_at};
ghost use Rattle.mc_worker.specs.Boxes.{AreEmpty};
ghost use Rattle.mc_worker.specs.Ends.{next_in};
ghost use Rattle.mc_worker.specs.Ready.{IsAllowed, IsShaped};
ghost use Rattle.mc_worker.specs.Rounds.{HasStoppedAt, HasTurned};
ghost use Rattle.mc_worker.specs.Stops.{ended_by};
ghost use Rattle.mc_worker.specs.Turns.{AllPassed, IsNextAct, IsNextAt, IsOneTurn, IsUnderWay, OnlyLooks, TakesNothing, is_memory};
ghost use Rattle.mc_worker.specs.declared.limit.TheConstants.{STAMP_LIMIT, TURN_LIMIT};

use crate::limit::STAMP_LIMIT;
use crate::progress::Progress;
use crate::stop::Stop;
use crate::taking::{first_known, unclaimed};
use crate::worker::Worker;
use mc_box::limit::SHIFT_LIMIT;
use mc_box::{Event, MediaBox, MediaChange};
use mc_io::Gate;
use mc_port::Stamped;
use mc_signal::Signal;

impl Worker {
    /// One turn: the first stimulus, or a shift, or what is next at a channel end. Or why there is none.
    pub(crate) fn turn<G: Gate>(&mut self, gate: &G, progress: &mut Progress) -> Option<Stop>
        requires under_way { IsUnderWay self.old progress.old }
        requires fewer { progress.old.turns < TURN_LIMIT }
        ensures turned { HasTurned self.old self.new progress.old progress.new result }
        ensures passed { AllPassed progress.old.passed progress.new.passed self.old self.new }
    {
        if let Some(event) = self.next_act() {
            gate.reached(self.part.number(), progress.turns + 1);
            return self.turn_act(event, progress);
        }
        self.turn_found(gate, progress)
    }

    // What is made before anything is taken: the first stimulus, or else a shift that can be made.
    fn next_act(&self) -> Option<Event>
        requires { AllByRecursion (IsAllowed self.now.part) self.now.stimuli.items }
        ensures some { IfSome result (IsNextAct self.now) }
        ensures none { IfNone result ((self.now.stimuli.items ≡ []) × ((is_enabled self.now.part Event.Shift ≡ false)
            ⊎ (SHIFT_LIMIT ≤ self.now.shifts))) }
    {
        if let Some(event) = self.stimuli.front() {
            return Some(event);
        }
        if self.can_shift() {
            return Some(Event::Shift);
        }
        None
    }

    // A turn that takes what is next at the first channel end at which something is, or why there is none.
    fn turn_found<G: Gate>(&mut self, gate: &G, progress: &mut Progress) -> Option<Stop>
        requires under_way { IsUnderWay self.old progress.old }
        requires fewer { progress.old.turns < TURN_LIMIT }
        requires priority { self.old.stimuli.items ≡ [] }
        requires no_shift { (is_enabled self.old.part Event.Shift ≡ false) ⊎ (SHIFT_LIMIT ≤ self.old.shifts) }
        ensures turned { HasTurned self.old self.new progress.old progress.new result }
        ensures passed { AllPassed progress.old.passed progress.new.passed self.old self.new }
    {
        match self.look(progress) {
            Some(found) => {
                gate.reached(self.part.number(), progress.turns + 1);
                self.turn_at(found.0, found.1, progress)
            }
            None => Some(Stop::Rested),
        }
    }

    /// A turn of an event that takes nothing, or why there is none.
    pub(crate) fn turn_act(&mut self, event: Event, progress: &mut Progress) -> Option<Stop>
        requires under_way { IsUnderWay self.old progress.old }
        requires fewer { progress.old.turns < TURN_LIMIT }
        requires enabled { IsTrue (is_enabled self.old.part event) }
        requires takes_nothing { IsFalse (is_take event) }
        requires first { IsTrue (is_command event) → slice_get self.old.stimuli.items 0 ≡ Some event }
        requires shift { IsTrue (is_shift event) → self.old.shifts < SHIFT_LIMIT }
        ensures made { MatchOption result (IsOneTurn self.old self.new progress.old progress.new event)
            (λ stop. IsWork self.old self.new [] × (progress.new ≡ progress.old)) }
        ensures under_way { IsUnderWay self.new progress.new }
        ensures passed { progress.new.passed ≡ progress.old.passed }
        ensures nothing { TakesNothing self.old self.new }
        ensures cause { IfSome result (HasStoppedAt progress.new self.new) }
        ensures memory { IfSome result (λ stop. IsTrue (is_version_end self.old.part event)
            ⊎ IsTrue (is_memory stop)) }
        ensures owes { IfNone result ((slot : ℕ) (other : ℕ) → event ≡ Event.Retry slot → other ≢ slot
            → is_enabled self.new.part (Event.Retry other) ≡ is_enabled self.old.part (Event.Retry other)) }
    {
        let most = 2 * self.part.slots().len();
        if let Err(refused) = self.reserve_turn(most) {
            return Some(Stop::NoMemory(refused));
        }
        let Ok(sent) = self.make_act(event) else {
            return Some(ended_by(&self.part, event));
        };
        progress.turns += 1;
        progress.sent += sent;
        None
    }

    // A turn that takes what is next at a channel end, or why there is none.
    fn turn_at(&mut self, end: u8, item: Stamped, progress: &mut Progress) -> Option<Stop>
        requires under_way { IsUnderWay self.old progress.old }
        requires fewer { progress.old.turns < TURN_LIMIT }
        requires next { next_in (in_at self.old end) ≡ Some item }
        requires priority { self.old.stimuli.items ≡ [] }
        ensures turned { HasTurned self.old self.new progress.old progress.new result }
        ensures others { (e : ℕ) → e ≢ end → in_at self.new e ≡ in_at self.old e }
        ensures passed { progress.new.passed ≡ progress.old.passed }
    {
        if item.stamp > STAMP_LIMIT {
            return Some(Stop::Strange(end, item.tunnel));
        }
        self.part.keeps();
        match self.place.slot(end, item.tunnel) {
            Some(slot) => self.turn_take(end, slot, item, progress),
            None => Some(Stop::Strange(end, item.tunnel)),
        }
    }

    // A turn that takes what is next at a channel end by this slot, or why there is none.
    fn turn_take(
        &mut self,
        end: u8,
        slot: u8,
        item: Stamped,
        progress: &mut Progress,
    ) -> Option<Stop>
        requires under_way { IsUnderWay self.old progress.old }
        requires fewer { progress.old.turns < TURN_LIMIT }
        requires place { slice_get self.old.place slot ≡ Some (end, item.tunnel) }
        requires next { next_in (in_at self.old end) ≡ Some item }
        requires stamp { item.stamp ≤ STAMP_LIMIT }
        requires priority { self.old.stimuli.items ≡ [] }
        ensures turned { HasTurned self.old self.new progress.old progress.new result }
        ensures others { (e : ℕ) → e ≢ end → in_at self.new e ≡ in_at self.old e }
        ensures passed { progress.new.passed ≡ progress.old.passed }
    {
        self.place.keeps();
        if !may_take(&self.part, slot, &item.signal) {
            return Some(Stop::Strange(end, item.tunnel));
        }
        if let Err(refused) = self.reserve_turn(3) {
            return Some(Stop::NoMemory(refused));
        }
        let sent = self.make_take(end, slot, item);
        progress.turns += 1;
        progress.sent += sent;
        progress.took += 1;
        None
    }

    /// The first channel end at which something is next, and what it is. Inboxes go first, so that each ring is looked
    /// at once until something is there; ends at which nothing was left are passed.
    pub(crate) fn look(&mut self, progress: &mut Progress) -> Option<(u8, Stamped)>
        requires shaped { IsShaped self.old }
        requires empty { 0 < progress.old.passed → AreEmpty self.old.inboxes }
        ensures looked { OnlyLooks self.old self.new }
        ensures numbers { progress.new ≡ record progress.old { passed = progress.new.passed } }
        ensures found { IfSome result (IsNextAt self.new progress.new.passed) }
        ensures passed { AllPassed progress.old.passed progress.new.passed self.old self.new }
        ensures none { IfNone result (progress.new.passed ≡ length self.old.ins.items) }
        ensures empty { 0 < progress.new.passed → AreEmpty self.new.inboxes }
    {
        if let Some(waiting) = self.inboxes.first() {
            return Some((waiting.0, unclaimed(waiting.1)));
        }
        match first_known(&mut self.ins, progress.passed) {
            Some(found) => {
                progress.passed = found.0;
                Some((found.0 as u8, found.1))
            }
            None => {
                progress.passed = self.ins.len();
                None
            }
        }
    }

    /// Whether the box's program can shift.
    pub(crate) fn can_shift(&self) -> bool
        ensures some { IsTrue result → (self.now.shifts < SHIFT_LIMIT)
            × IsTrue (is_enabled self.now.part Event.Shift) }
        ensures none { IsFalse result → (is_enabled self.now.part Event.Shift ≡ false)
            ⊎ (SHIFT_LIMIT ≤ self.now.shifts) }
    {
        self.shifts < u32::from(SHIFT_LIMIT) && self.part.enabled(&Event::Shift)
    }
}

// Whether a slot may take a signal.
fn may_take(part: &MediaBox, slot: u8, signal: &Signal) -> bool
    requires { slot < length part.now.slots }
    ensures { result ≡ is_some (slot_take (slot_at part.now slot) signal.now) }
{
    part.slots()[usize::from(slot)].lawful(signal)
}

// How an event that can't be made ends the round: its slot is at the last version.
fn ended_by(part: &MediaBox, event: Event) -> Stop
    requires { IsTrue (is_version_end part.now event) }
    ensures { result ≡ ended_by event }
{
    match event {
        Event::Media(MediaChange::Hear(slot, _)) => Stop::VersionEnd(slot),
        _ => unreachable!(),
    }
}
