// Whether a box may get a program.

ghost use Rattle.std.specs.Prelude.{◌≡◌, ◌<◌, length, map};
ghost use Rattle.std.specs.List.{list_any};
ghost use Rattle.mc_box.specs.Boxes.{set_up};
ghost use Rattle.mc_plan.specs.Layouts.{crosses, has_wrong_goals, links_two_media, may_program_box, media_of, medium_of, with_program_at};

use crate::fault::ProgramFault;
use mc_box::{Kind, Setup, SlotSetup};
use mc_rule::{ProgState, Program};
use mc_signal::Medium;
use mc_slot::SlotGoal;

// Whether a box that is set up so may get this program: else the first rule that this would break.
pub fn may_program_box(setup: &Setup, program: &Program) -> Result<(), ProgramFault>
    ensures { result ≡ may_program_box (set_up setup.now) program.now }
{
    if setup.kind != Kind::Feature {
        return Err(ProgramFault::NoFeature);
    }
    if setup.program.is_some() {
        return Err(ProgramFault::HasProgram);
    }
    if have_wrong_goals(setup.slots.len(), program.states()) {
        return Err(ProgramFault::WrongGoals);
    }
    if link_two_media(&setup.slots, program.states()) {
        return Err(ProgramFault::TwoMedia);
    }
    Ok(())
}

// Whether some state hasn't one goal for each of so many slots.
fn have_wrong_goals(slots: usize, states: &[ProgState]) -> bool
    ensures { result ≡ list_any (has_wrong_goals slots) states.now }
{
    states.iter().any(|one| one.goals.len() != slots)
}

// Whether some state links slots of two media.
fn link_two_media(slots: &[SlotSetup], states: &[ProgState]) -> bool
    ensures { result ≡ list_any (links_two_media (media_of slots.now)) states.now }
{
    states.iter().any(|one| links_two_media(slots, one))
}

// Whether a state does.
fn links_two_media(slots: &[SlotSetup], one: &ProgState) -> bool
    ensures { result ≡ links_two_media (media_of slots.now) one.now }
{
    for local in 0..one.goals.len() {
        if crosses(slots, local, one.goals[local]) {
            return true;
        }
    }
    false
}

// Whether the goal of a slot is a link with a slot of another medium.
fn crosses(slots: &[SlotSetup], local: usize, goal: SlotGoal) -> bool
    ensures { result ≡ crosses (media_of slots.now) local goal }
{
    match goal {
        SlotGoal::End(_) => false,
        SlotGoal::Link(partner) => medium_of(slots, partner as usize) != medium_of(slots, local),
    }
}

// The medium of a slot, and audio where there is no slot.
fn medium_of(slots: &[SlotSetup], local: usize) -> Medium
    ensures { result ≡ medium_of (media_of slots.now) local }
{
    match slots.get(local) {
        Some(slot) => slot.medium,
        None => Medium::Audio,
    }
}

// A box that is there gets this program.
pub fn set_program(setups: &mut Vec<Setup>, who: u32, program: Program)
    requires { who < length setups.old.items }
    ensures { map set_up setups.new.items ≡ with_program_at (map set_up setups.old.items) who program }
{
    setups[who as usize].program = Some(program);
}
