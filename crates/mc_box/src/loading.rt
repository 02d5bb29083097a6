// Whether parts are those of a box: for a box that is made again of what was written of one.

ghost use Rattle.std.specs.Prelude.{◌≡◌, ◌<◌, ◌&&◌, is_none, length, slice_index_or, MatchBool};
ghost use Rattle.mc_slot.specs.EndTurn.{IsAtRest};
ghost use Rattle.mc_slot.specs.Tunnel.{Kept};
ghost use Rattle.mc_slot.specs.declared.SlotGoal.TheVariants.{Link};
ghost use Rattle.mc_link.specs.LinkTurn.{IsLinkAtRest};
ghost use Rattle.mc_box.specs.BoxSound.{box_state, FitsProgram, IsLinked, IsSoundBox, IsWired, RestsAt};
ghost use Rattle.mc_box.specs.Boxes.{FitsSlots, goal_at, no_slot, slot_at};
ghost use Rattle.mc_box.specs.Loading.{AllRest, AreWired, FitGoals, FitsGoals, FitsNumbers, IsWiredAt, LinksAlike};

use crate::event::Kind;
use crate::limit::SLOT_LIMIT;
use crate::parts::BoxParts;
use mc_goal::end_turn;
use mc_link::link_turn;
use mc_rule::Program;
use mc_signal::{Descriptor, Medium, Sender};
use mc_slot::{Goal, Slot, SlotGoal, State};

impl BoxParts {
    /// Whether they are what a box keeps.
    pub(crate) fn is_sound(&self) -> bool
        ensures { MatchBool result (IsSoundBox (box_state self.now)) (IsSoundBox (box_state self.now) → ⊥) }
    {
        if !self.is_wired() {
            return false;
        }
        self.all_rest()
    }

    // Whether they fit together.
    fn is_wired(&self) -> bool
        ensures { MatchBool result (IsWired (box_state self.now)) (IsWired (box_state self.now) → ⊥) }
    {
        if !self.fits_numbers() {
            return false;
        }
        if !self.are_wired() {
            return false;
        }
        self.fits_program()
    }

    // Whether there is one goal for each slot and so on, and no more slots than a box has.
    fn fits_numbers(&self) -> bool
        ensures { MatchBool result (FitsNumbers (box_state self.now)) (FitsNumbers (box_state self.now) → ⊥) }
    {
        self.goals.len() == self.slots.len()
            && self.media.len() == self.slots.len()
            && self.slots.len() <= SLOT_LIMIT
            && self.number < u32::MAX
    }

    // Whether each slot keeps what its state allows, and each link is mutual.
    fn are_wired(&self) -> bool
        requires { FitsNumbers (box_state self.now) }
        ensures { MatchBool result (AreWired (box_state self.now)) (AreWired (box_state self.now) → ⊥) }
    {
        for local in 0..self.slots.len() {
            if !self.is_wired_at(local) {
                return false;
            }
        }
        true
    }

    fn is_wired_at(&self, local: usize) -> bool
        requires fits { FitsNumbers (box_state self.now) }
        requires here { local < length self.now.slots.items }
        ensures { MatchBool result (IsWiredAt (box_state self.now) local)
            (IsWiredAt (box_state self.now) local → ⊥) }
    {
        if !is_kept(&self.slots[local]) {
            return false;
        }
        match self.goals[local] {
            SlotGoal::End(_) => true,
            SlotGoal::Link(partner) => self.is_linked(local, partner as usize),
        }
    }

    // Whether a slot may be linked with this partner, and the partner is linked with it.
    fn is_linked(&self, local: usize, partner: usize) -> bool
        requires fits { FitsNumbers (box_state self.now) }
        requires here { local < length self.now.slots.items }
        ensures { MatchBool result (IsLinked (box_state self.now) local partner)
            (IsLinked (box_state self.now) local partner → ⊥) }
    {
        if partner >= self.slots.len() || partner == local {
            return false;
        }
        if !matches!(self.kind, Kind::Feature) || !leads_to(self.goals[partner], local) {
            return false;
        }
        is_same_medium(self.slots[partner].medium, self.slots[local].medium)
    }

    // Whether the program is one for these slots, and at a state that it has.
    fn fits_program(&self) -> bool
        ensures { MatchBool result
            (FitsProgram self.now.kind self.now.slots.items self.now.program self.now.at self.now.told)
            (FitsProgram self.now.kind self.now.slots.items self.now.program self.now.at self.now.told → ⊥) }
    {
        match (&self.program, self.at) {
            (None, None) => self.told.is_none(),
            (None, Some(_)) => false,
            (Some(program), None) => fits_slots(self.kind, &self.slots, program),
            (Some(program), Some(at)) => {
                (at as usize) < program.states().len()
                    && fits_slots(self.kind, &self.slots, program)
            }
        }
    }

    // Whether each goal is at rest.
    fn all_rest(&self) -> bool
        requires { IsWired (box_state self.now) }
        ensures { MatchBool result (AllRest (box_state self.now)) (AllRest (box_state self.now) → ⊥) }
    {
        for local in 0..self.slots.len() {
            if !self.rests_at(local) {
                return false;
            }
        }
        true
    }

    fn rests_at(&self, local: usize) -> bool
        requires wired { IsWired (box_state self.now) }
        requires here { local < length self.now.slots.items }
        ensures { MatchBool result (RestsAt (goal_at (box_state self.now) local) (box_state self.now) local)
            (RestsAt (goal_at (box_state self.now) local) (box_state self.now) local → ⊥) }
    {
        match self.goals[local] {
            SlotGoal::End(goal) => {
                let own = self.own(local as u8);
                let me = self.sender(local as u8);
                end_rests(&self.slots[local], goal, own, &me)
            }
            SlotGoal::Link(partner) => self.link_rests_at(local, partner as usize),
        }
    }

    // The same of a link, by both its slots.
    fn link_rests_at(&self, local: usize, partner: usize) -> bool
        requires wired { IsWired (box_state self.now) }
        requires here { local < length self.now.slots.items }
        requires linked { goal_at (box_state self.now) local ≡ Link partner }
        ensures { MatchBool result (RestsAt (Link partner) (box_state self.now) local)
            (RestsAt (Link partner) (box_state self.now) local → ⊥) }
    {
        let low = &self.slots[local.min(partner)];
        let high = &self.slots[local.max(partner)];
        link_rests(low, high)
    }
}

// Whether a slot keeps what its state allows.
fn is_kept(slot: &Slot) -> bool
    ensures { MatchBool result (Kept slot.now) (Kept slot.now → ⊥) }
{
    match slot.state {
        State::Closed => slot.sent.is_none() && slot.got.is_none() && has_no_selector(slot),
        State::Opening => slot.sent.is_some() && slot.got.is_none() && has_no_selector(slot),
        State::Opened => slot.sent.is_none() && slot.got.is_some() && has_no_selector(slot),
        State::Flowing => slot.sent.is_some() && slot.got.is_some(),
        State::Closing => true,
    }
}

fn has_no_selector(slot: &Slot) -> bool
    ensures { result ≡ (is_none slot.now.sel_out && is_none slot.now.sel_in) }
{
    slot.sel_out.is_none() && slot.sel_in.is_none()
}

// Whether it is a link with this slot.
fn leads_to(goal: SlotGoal, local: usize) -> bool
    ensures { MatchBool result (goal ≡ Link local) (goal ≡ Link local → ⊥) }
{
    match goal {
        SlotGoal::Link(partner) => partner as usize == local,
        SlotGoal::End(_) => false,
    }
}

fn is_same_medium(first: Medium, second: Medium) -> bool
    ensures { MatchBool result (first ≡ second) (first ≡ second → ⊥) }
{
    match first {
        Medium::Audio => matches!(second, Medium::Audio),
        Medium::Video => matches!(second, Medium::Video),
    }
}

// Whether a program is one for these slots.
fn fits_slots(kind: Kind, slots: &[Slot], program: &Program) -> bool
    ensures { MatchBool result (FitsSlots kind slots.now program.now) (FitsSlots kind slots.now program.now → ⊥) }
{
    program.keeps();
    matches!(kind, Kind::Feature) && fit_goals(slots, program)
}

fn fit_goals(slots: &[Slot], program: &Program) -> bool
    ensures { MatchBool result (FitGoals slots.now program.now) (FitGoals slots.now program.now → ⊥) }
{
    for at in 0..program.states().len() {
        let state = &program.states()[at];
        if !fits_goals(slots, &state.goals) {
            return false;
        }
    }
    true
}

// Whether goals are for these slots, of which they link those of one medium.
fn fits_goals(slots: &[Slot], goals: &[SlotGoal]) -> bool
    ensures { MatchBool result (FitsGoals slots.now goals.now) (FitsGoals slots.now goals.now → ⊥) }
{
    if goals.len() != slots.len() {
        return false;
    }
    for local in 0..goals.len() {
        if !links_alike(slots, goals[local], local) {
            return false;
        }
    }
    true
}

// Whether a goal is an end's, or a link of two slots of one medium.
fn links_alike(slots: &[Slot], goal: SlotGoal, local: usize) -> bool
    ensures { MatchBool result (LinksAlike slots.now local goal) (LinksAlike slots.now local goal → ⊥) }
{
    match goal {
        SlotGoal::Link(partner) => {
            is_same_medium(medium_at(slots, partner as usize), medium_at(slots, local))
        }
        SlotGoal::End(_) => true,
    }
}

fn medium_at(slots: &[Slot], local: usize) -> Medium
    ensures { result ≡ (slice_index_or slots.now local no_slot).medium }
{
    match slots.get(local) {
        Some(slot) => slot.medium,
        None => Medium::Audio,
    }
}

// Whether an end would send nothing.
fn end_rests(slot: &Slot, goal: Goal, own: Descriptor, me: &Sender) -> bool
    requires { Kept slot.now }
    ensures { MatchBool result (IsAtRest goal slot.now own me.now) (IsAtRest goal slot.now own me.now → ⊥) }
{
    let mut slot = *slot;
    end_turn(&mut slot, 0, goal, false, own, me).len == 0
}

// Whether a link would send nothing.
fn link_rests(first: &Slot, second: &Slot) -> bool
    requires medium { first.now.medium ≡ second.now.medium }
    requires kept { Kept first.now × Kept second.now }
    ensures { MatchBool result (IsLinkAtRest first.now second.now) (IsLinkAtRest first.now second.now → ⊥) }
{
    let mut first = *first;
    let mut second = *second;
    link_turn(&mut first, 0, &mut second, 1, None).len == 0
}
