// What is known of a part between two phases.

ghost use Rattle.std.specs.Prelude.{◌≡◌, ◌||◌, ℕ, false, IsTrue};
ghost use Rattle.mc_box.specs.BoxEvents.{is_enabled, is_shift};
ghost use Rattle.mc_box.specs.declared.event.Event.TheVariants.{Retry};
ghost use Rattle.mc_part.specs.Knowing.{MadeOweNone, NoneShifted, OwesNone};

use crate::part::Part;
use mc_box::{Event, MediaBox};

/// What is known of a part, so that a settle needn't look for it at each box.
#[derive(Clone, Copy, PartialEq, Eq, Debug)]
pub struct Known {
    /// No slot owes a retry.
    pub unowed: bool,
    /// No box has made a Shift in the settle.
    pub unshifted: bool,
}

/// What is known of a part after a run, by the turns in its log and by what was known before. Where each retry that was
/// owed was made in it, no slot of a box without a turn owes one.
pub(crate) fn learn(part: &Part, known: Known, retried: bool) -> Known
    ensures unowed { IsTrue result.unowed → IsTrue (retried || known.unowed) × MadeOweNone part.now }
    ensures unshifted { IsTrue result.unshifted → IsTrue known.unshifted × NoneShifted part.now.log.items }
{
    Known {
        unowed: is_unowed(part, retried || known.unowed),
        unshifted: is_unshifted(part, known.unshifted),
    }
}

// Whether this was so before, and no slot of a box that has made a turn owes a retry.
fn is_unowed(part: &Part, before: bool) -> bool
    ensures { IsTrue result → IsTrue before × MadeOweNone part.now }
{
    if !before {
        return false;
    }
    for at in 0..part.log.len() {
        if owes_at(part, part.log.get(at).who) {
            return false;
        }
    }
    true
}

// Whether this was so before, and no turn is a Shift.
fn is_unshifted(part: &Part, before: bool) -> bool
    ensures { IsTrue result → IsTrue before × NoneShifted part.now.log.items }
{
    if !before {
        return false;
    }
    for at in 0..part.log.len() {
        if is_shift(part.log.get(at).event) {
            return false;
        }
    }
    true
}

// Whether an event is a Shift.
fn is_shift(event: Event) -> bool
    ensures { result ≡ is_shift event }
{
    matches!(event, Event::Shift)
}

/// Whether some slot of a part owes a retry.
pub fn owes_some(part: &Part) -> bool
    ensures { result ≡ false → (who : ℕ) → OwesNone part.now.engine who }
{
    for who in 0..part.engine.boxes().len() {
        if box_owes(&part.engine.boxes()[who]) {
            return true;
        }
    }
    false
}

// Whether some slot of a box does, by its number in the part.
fn owes_at(part: &Part, who: u32) -> bool
    ensures { result ≡ false → OwesNone part.now.engine who }
{
    match part.engine.boxes().get(who as usize) {
        Some(home) => box_owes(home),
        None => false,
    }
}

// Whether some slot of a box that is at hand does.
fn box_owes(home: &MediaBox) -> bool
    ensures { result ≡ false → (local : ℕ) → is_enabled home.now (Retry local) ≡ false }
{
    for local in 0..home.slots().len() {
        if home.enabled(&Event::Retry(local as u8)) {
            return true;
        }
    }
    false
}
