// One step of a world.

ghost use Rattle.std.specs.Prelude.{◌≡◌, ◌↔◌, ◌<◌, ◌&&◌, not, Some, None, true, false, length, IsSome, OnOk, OnErr};
ghost use Rattle.mc_slot.specs.Moves.{slot_take};
ghost use Rattle.mc_box.specs.BoxEvents.{is_enabled, is_take, is_version_end, turn_of};
ghost use Rattle.mc_box.specs.Boxes.{slot_at};
ghost use Rattle.mc_box.specs.LinkFree.{is_linking};
ghost use Rattle.mc_model.specs.Sound.{IsSound};
ghost use Rattle.mc_model.specs.Worlds.{box_at, front, lane_of, number, tunnel_of};
ghost use Rattle.mc_world.specs.StepAnswers.{Answers, CannotHappen, LacksVersion};
ghost use Rattle.mc_model.specs.Steps.{ends_version_at, step, step_by};
ghost use Rattle.mc_world.specs.declared.network.step.StepFault.TheVariants.{NoMemory};

use super::World;
use crate::acting::{act, is_version_end, senders_of, take_front};
use mc_box::{Change, Event};
use mc_signal::Signal;
use std::alloc::AllocError;

/// Why a step isn't made.
#[derive(Debug, Drop)]
pub enum StepFault {
    /// The event can't happen now.
    NotEnabled,
    NoMemory(AllocError),
    /// A descriptor would have no next version.
    VersionEnd,
}

impl From<AllocError> for StepFault {
    ghost from_gives = { λ e fault. fault ≡ NoMemory e };

    fn from(e: AllocError) -> Self {
        StepFault::NoMemory(e)
    }
}

impl World {
    /// One event of one box, where it's enabled. What the box sends is under way then.
    pub fn step(&mut self, who: u32, event: Event) -> Result<(), StepFault>
        ensures ok { OnOk result (step self.old (turn_of who event) ≡ Some self.new) }
        ensures unchanged { OnErr result (self.new ≡ self.old) }

        // An event that has no step is refused: as VersionEnd where it is a Hear that could happen but for the last
        // version, and else as NotEnabled.
        ensures version_end { (result ≡ Err StepFault.VersionEnd) ↔ LacksVersion self.old (turn_of who event) }
        ensures not_enabled { (result ≡ Err StepFault.NotEnabled) ↔ CannotHappen self.old (turn_of who event) }
    {
        if who as usize >= self.boxes.len() {
            return Err(StepFault::NotEnabled);
        }
        self.happen(who, event)
    }

    // An event happens to a box, if it's enabled.
    fn happen(&mut self, who: u32, event: Event) -> Result<(), StepFault>
        requires sound { IsSound self.old }
        requires here { who < length self.old.boxes }
        ensures { Answers self.old self.new (step_by self.old who event) (ends_version_at self.old who event) result }
    {
        match event {
            Event::Take(local) => self.take(who, local),
            Event::Set(_) | Event::Media(_) | Event::Tell(_) | Event::Retry(_) | Event::Shift => {
                self.act(who, event)
            }
        }
    }

    // A slot of a box takes the front of its lane.
    fn take(&mut self, who: u32, local: u8) -> Result<(), StepFault>
        requires sound { IsSound self.old }
        requires here { who < length self.old.boxes }
        ensures { Answers self.old self.new (step_by self.old who (Event.Take local)) false result }
    {
        let Some(slot) = self.number(who, local) else {
            return Err(StepFault::NotEnabled);
        };
        let toward = self.toward(slot);
        let Some(signal) = self.front_in(toward) else {
            return Err(StepFault::NotEnabled);
        };
        self.take_front(who, local, slot, toward, signal)
    }

    // The same where this slot has this number, and the signal is the front for it.
    fn take_front(
        &mut self,
        who: u32,
        local: u8,
        slot: u32,
        toward: (usize, u8),
        signal: Signal,
    ) -> Result<(), StepFault>
        requires sound { IsSound self.old }
        requires here { who < length self.old.boxes }
        requires inside { local < length (box_at self.old who).slots }
        requires number { number self.old who local ≡ Some slot }
        requires lane { toward.0 ≡ lane_of self.old slot }
        requires tunnel { toward.1 ≡ (tunnel_of self.old slot).within }
        requires front { front self.old slot ≡ Some signal }
        requires lawful { IsSome (slot_take (slot_at (box_at self.old who) local) signal) }
        ensures { Answers self.old self.new (step_by self.old who (Event.Take local)) false result }
    {
        let home = &mut self.boxes[who as usize];
        let senders = senders_of(&self.topology, home, who, local, slot);
        take_front(
            &mut self.lanes,
            &mut self.waiting,
            &self.topology,
            home,
            who,
            &senders,
            toward,
            signal,
        )?;
        Ok(())
    }

    // An event that takes no signal happens to a box.
    fn act(&mut self, who: u32, event: Event) -> Result<(), StepFault>
        requires sound { IsSound self.old }
        requires here { who < length self.old.boxes }
        requires other { is_take event ≡ false }
        ensures { Answers self.old self.new (step_by self.old who event) (ends_version_at self.old who event) result }
    {
        let home = &self.boxes[who as usize];
        if !home.enabled(&event) {
            return Err(StepFault::NotEnabled);
        }
        if is_version_end(home, event) {
            return Err(StepFault::VersionEnd);
        }
        self.act_enabled(who, event)
    }

    // The same where it's enabled, and ends no version.
    fn act_enabled(&mut self, who: u32, event: Event) -> Result<(), StepFault>
        requires sound { IsSound self.old }
        requires here { who < length self.old.boxes }
        requires other { is_take event ≡ false }
        requires enabled { is_enabled (box_at self.old who) event ≡ true }
        requires goes_on { is_version_end (box_at self.old who) event ≡ false }
        ensures { Answers self.old self.new (step_by self.old who event) (ends_version_at self.old who event) result }
    {
        let home = &mut self.boxes[who as usize];
        act(
            &mut self.lanes,
            &mut self.waiting,
            &self.topology,
            home,
            who,
            event,
            &mut self.scratch,
        )?;
        self.ringless = stays_ringless(self.ringless, event);
        Ok(())
    }
}

// Whether it stays remembered that there is no ring: an event that links slots may make one, and no other does.
fn stays_ringless(ringless: bool, event: Event) -> bool
    ensures { result ≡ (ringless && not (is_linking event)) }
{
    ringless && !matches!(event, Event::Set(Change::Link(..)) | Event::Shift)
}
