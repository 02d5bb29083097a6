// Whether a box can make a Shift at a rest.

ghost use Rattle.std.specs.Prelude.{◌≡◌, false, IsTrue};
ghost use Rattle.mc_box.specs.BoxEvents.{is_shift};
ghost use Rattle.mc_model.specs.Settles.{can_shift};
ghost use Rattle.mc_divided.specs.Networks.{IsDividedNetwork, network_state};
ghost use Rattle.mc_divided.specs.States.{IsFirstShifterOr};
ghost use Rattle.mc_rounds.specs.Playing.{HasNoWork};
ghost use Rattle.mc_rounds.specs.Since.{CountsShifts, ShiftedHaveNone, ShiftsNone};

use crate::playing::is_shift;
use mc_box::{Event, Turn};
use mc_divided::{DividedNetwork, box_of, first_shifter, has_shifted};

/// The first box whose program has an enabled transition at a rest. It has made all its Shifts in the settle, so without
/// a Shift no box is looked at, and else the boxes are looked over only if one of those that have made a Shift has.
pub fn first_shifter_since(network: &DividedNetwork, turns: &[Turn]) -> Option<u32>
    requires divided { IsDividedNetwork network.now }
    requires idle { HasNoWork (network_state network.now) }
    requires counted { CountsShifts turns.now (network_state network.now) }
    ensures { IsFirstShifterOr (network_state network.now).world result }
{
    if may_shift(network, turns) {
        return first_shifter(network);
    }
    None
}

// Whether a box may have one, as far as that can be told by the boxes that have made Shifts.
fn may_shift(network: &DividedNetwork, turns: &[Turn]) -> bool
    requires divided { IsDividedNetwork network.now }
    requires idle { HasNoWork (network_state network.now) }
    requires counted { CountsShifts turns.now (network_state network.now) }
    ensures { result ≡ false → can_shift (network_state network.now).world ≡ false }
{
    if !has_shifted(network) {
        return false;
    }
    shifted_can_shift(network, turns)
}

// Whether a box that has made one of these Shifts has.
fn shifted_can_shift(network: &DividedNetwork, turns: &[Turn]) -> bool
    requires { IsDividedNetwork network.now }
    ensures { result ≡ false → ShiftedHaveNone (network_state network.now).world turns.now }
{
    for at in 0..turns.len() {
        if has_shifter(network, turns[at]) {
            return true;
        }
    }
    false
}

// Whether a turn is a Shift, and its box has.
fn has_shifter(network: &DividedNetwork, turn: Turn) -> bool
    requires { IsDividedNetwork network.now }
    ensures { result ≡ false → IsTrue (is_shift turn.event) → ShiftsNone (network_state network.now).world turn.who }
{
    is_shift(turn.event) && can_shift_at(network, turn.who)
}

// Whether this box has.
fn can_shift_at(network: &DividedNetwork, who: u32) -> bool
    requires { IsDividedNetwork network.now }
    ensures { result ≡ false → ShiftsNone (network_state network.now).world who }
{
    if who as usize >= network.assigned.len() {
        return false;
    }
    box_of(network, who).enabled(&Event::Shift)
}
