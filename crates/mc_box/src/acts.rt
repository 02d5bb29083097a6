// The events of a box that take no signal.

ghost use Rattle.std.specs.Prelude.{[], ◌≡◌, ◌≢◌, ◌+◌, ◌*◌, ◌-◌, ◌^◌, ◌<◌, ◌≤◌, ◌++◌, length, true, false, is_err, Some, IsTrue, IsFalse, OnErr, OnOk};
ghost use Rattle.mc_box.specs.BoxEvents.{box_event, changed_steps, enabled_shift, goal_step, hear_step, is_enabled, is_take, is_version_end, change_media, set_step, shift_by, shift_step, talk_step, tell_step};
ghost use Rattle.mc_box.specs.BoxSound.{box_state, AppendsTo, IsSoundBox, IsWired};
ghost use Rattle.mc_box.specs.Boxes.{media_at, with_media};
ghost use Rattle.mc_box.specs.Goals.{changed_slots};

use crate::event::{Change, Event, MediaChange};
use crate::goals::{change_goals, has_turn};
use crate::limit::{LAST_VERSION, SLOT_LIMIT};
use crate::media_box::VersionEnd;
use crate::parts::BoxParts;
use crate::setup::SlotMedia;
use mc_lane::Lane;
use mc_rule::Shifted;
use mc_signal::Signal;
use mc_slot::{Cause, Goal, SlotGoal};

impl BoxParts {
    // A goal has its turn, which no signal brought.
    fn send_turn(&mut self, local: u8, cause: Cause, out: &mut Lane<(u8, Signal)>)
        requires wired { IsWired (box_state self.old) }
        requires taken_none { cause ≢ Cause.Close }
        requires here { local < length self.old.slots.items }
        requires space { 2 * length self.old.slots.items ≤ out.old.spare }
        ensures sent { AppendsTo (goal_step (box_state self.old) local cause) self.new out.old out.new }
        ensures room { out.new.spare + length out.new.items ≡ out.old.spare + length out.old.items }
    {
        let turn = self.goal_turn(local, cause);
        out.push_all(turn.as_slice());
    }

    // The goals that have changed have their turns one after another, each pushed.
    fn changed_steps(&mut self, old: &[SlotGoal], out: &mut Lane<(u8, Signal)>)
        requires wired { IsWired (box_state self.old) }
        requires olds { length old.now ≡ length self.old.slots.items }
        requires space { 2 * length self.old.slots.items ≤ out.old.spare }
        ensures sent { AppendsTo (changed_steps (box_state self.old) old.now) self.new out.old out.new }
        ensures room { out.new.spare + length out.new.items ≡ out.old.spare + length out.old.items }
    {
        for i in 0..old.len() {
            if has_turn(i as u8, old[i], self.goals[i]) {
                let turn = self.goal_turn(i as u8, Cause::Push);
                out.push_all(turn.as_slice());
            }
        }
    }

    // Goals change, and each that has changed has its turn.
    fn set_step(&mut self, change: Change, out: &mut Lane<(u8, Signal)>)
        requires sound { IsSoundBox (box_state self.old) }
        requires enabled { IsTrue (is_enabled (box_state self.old) (Event.Set change)) }
        requires space { 2 * length self.old.slots.items ≤ out.old.spare }
        ensures sent { AppendsTo (set_step (box_state self.old) change) self.new out.old out.new }
        ensures room { out.new.spare + length out.new.items ≡ out.old.spare + length out.old.items }
    {
        let count = self.goals.len();
        let mut former = [SlotGoal::End(Goal::Close); SLOT_LIMIT];
        let old = &mut former[..count];
        old.copy_from_slice(&self.goals);
        change_goals(&mut self.goals, change);
        self.changed_steps(old, out);
    }

    // What a slot's descriptors are made of changes, and its goal has its turn.
    fn change_media(&mut self, local: u8, media: SlotMedia, out: &mut Lane<(u8, Signal)>)
        requires wired { IsWired (box_state self.old) }
        requires here { local < length self.old.slots.items }
        requires space { 2 * length self.old.slots.items ≤ out.old.spare }
        ensures sent { AppendsTo (change_media (box_state self.old) local media) self.new out.old out.new }
        ensures room { out.new.spare + length out.new.items ≡ out.old.spare + length out.old.items }
    {
        self.media[local as usize] = media;
        self.send_turn(local, Cause::Other, out);
    }

    // Hearing is set, which makes the slot's descriptor a newer one.
    fn hear_step(
        &mut self,
        local: u8,
        on: bool,
        out: &mut Lane<(u8, Signal)>,
    ) -> Result<(), VersionEnd>
        requires wired { IsWired (box_state self.old) }
        requires here { local < length self.old.slots.items }
        requires space { 2 * length self.old.slots.items ≤ out.old.spare }
        ensures sent { OnOk result (AppendsTo (hear_step (box_state self.old) local on) self.new out.old out.new) }
        ensures end { is_err result ≡ is_version_end (box_state self.old) (Event.Media (MediaChange.Hear local on)) }
        ensures unchanged { OnErr result ((box_state self.new ≡ box_state self.old) × (out.new ≡ out.old)) }
        ensures room { out.new.spare + length out.new.items ≡ out.old.spare + length out.old.items }
    {
        let media = self.media[local as usize];
        if media.version == LAST_VERSION {
            return Err(VersionEnd);
        }
        let newer = SlotMedia {
            origin: media.origin,
            version: media.version + 1,
            hears: on,
            talks: media.talks,
            address: media.address,
        };
        self.change_media(local, newer, out);
        Ok(())
    }

    // Talking is set, which leaves the slot's descriptor.
    fn talk_step(&mut self, local: u8, on: bool, out: &mut Lane<(u8, Signal)>)
        requires wired { IsWired (box_state self.old) }
        requires here { local < length self.old.slots.items }
        requires space { 2 * length self.old.slots.items ≤ out.old.spare }
        ensures sent { AppendsTo (talk_step (box_state self.old) local on) self.new out.old out.new }
        ensures room { out.new.spare + length out.new.items ≡ out.old.spare + length out.old.items }
    {
        let media = self.media[local as usize];
        let talking = SlotMedia {
            origin: media.origin,
            version: media.version,
            hears: media.hears,
            talks: on,
            address: media.address,
        };
        self.change_media(local, talking, out);
    }

    // The box goes to the state that a transition leads to, and each goal that changes so has its turn.
    fn shift_by(&mut self, shift: Shifted, out: &mut Lane<(u8, Signal)>)
        requires sound { IsSoundBox (box_state self.old) }
        requires enabled { enabled_shift (box_state self.old) ≡ Some shift }
        requires space { 2 * length self.old.slots.items ≤ out.old.spare }
        ensures sent { AppendsTo (shift_by (box_state self.old) shift) self.new out.old out.new }
        ensures room { out.new.spare + length out.new.items ≡ out.old.spare + length out.old.items }
    {
        let count = self.goals.len();
        let mut former = [SlotGoal::End(Goal::Close); SLOT_LIMIT];
        let old = &mut former[..count];
        old.copy_from_slice(&self.goals);
        self.shift(shift);
        self.changed_steps(old, out);
    }

    // The box's program makes its enabled transition.
    fn shift_step(&mut self, out: &mut Lane<(u8, Signal)>)
        requires sound { IsSoundBox (box_state self.old) }
        requires enabled { IsTrue (is_enabled (box_state self.old) Event.Shift) }
        requires space { 2 * length self.old.slots.items ≤ out.old.spare }
        ensures sent { AppendsTo (shift_step (box_state self.old)) self.new out.old out.new }
        ensures room { out.new.spare + length out.new.items ≡ out.old.spare + length out.old.items }
    {
        match self.enabled_shift() {
            Some(shift) => self.shift_by(shift, out),
            None => unreachable!(),
        }
    }

    // The box keeps a told word, over an earlier one.
    fn tell(&mut self, word: u8)
        ensures { tell_step (box_state self.old) word ≡ Some (record { sent = []; after = box_state self.new }) }
    {
        self.told = Some(word);
    }

    /// An enabled event that takes no signal happens.
    pub(crate) fn act(&mut self, e: Event, out: &mut Lane<(u8, Signal)>) -> Result<(), VersionEnd>
        requires sound { IsSoundBox (box_state self.old) }
        requires enabled { IsTrue (is_enabled (box_state self.old) e) }
        requires takes_nothing { IsFalse (is_take e) }
        requires space { 2 * length self.old.slots.items ≤ out.old.spare }
        ensures sent { OnOk result (AppendsTo (box_event (box_state self.old) e None) self.new out.old out.new) }
        ensures end { is_err result ≡ is_version_end (box_state self.old) e }
        ensures unchanged { OnErr result ((box_state self.new ≡ box_state self.old) × (out.new ≡ out.old)) }
        ensures room { out.new.spare + length out.new.items ≡ out.old.spare + length out.old.items }
    {
        match e {
            Event::Set(change) => {
                self.set_step(change, out);
                Ok(())
            }
            Event::Media(MediaChange::Hear(local, on)) => self.hear_step(local, on, out),
            Event::Media(MediaChange::Talk(local, on)) => {
                self.talk_step(local, on, out);
                Ok(())
            }
            Event::Retry(local) => {
                self.send_turn(local, Cause::Push, out);
                Ok(())
            }
            Event::Tell(word) => {
                self.tell(word);
                Ok(())
            }
            Event::Shift => {
                self.shift_step(out);
                Ok(())
            }
            Event::Take(_) => unreachable!(),
        }
    }
}
