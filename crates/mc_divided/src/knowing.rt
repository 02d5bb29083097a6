// What is known of a network within a settle and between two.

ghost use Rattle.std.specs.Prelude.{◌≡◌, ℕ, false, IsTrue};
ghost use Rattle.mc_model.specs.Paths.{has_ring};
ghost use Rattle.mc_divided.specs.Commanding.{HasNoShifts, HasNoneOwed, IsKnownAnew};
ghost use Rattle.mc_divided.specs.Networks.{IsDividedNetwork, network_state};
ghost use Rattle.mc_divided.specs.States.{NoneOwes};
ghost use Rattle.mc_part.specs.Phases.{EachChanged, EachOf, IsKnown};

use crate::network::DividedNetwork;
use mc_part::{PartRun, owes_some};

/// A settle ends at a rest: no slot stands on a ring. That is known until the network goes on.
pub fn end_settle(network: &mut DividedNetwork)
    requires divided { IsDividedNetwork network.old }
    requires free { has_ring (network_state network.old).world ≡ false }
    ensures divided { IsDividedNetwork network.new }
    ensures same { network_state network.new ≡ network_state network.old }
    ensures known { IsTrue network.new.free }
{
    network.free = true;
}

/// Whether a box has made a Shift in the settle.
pub fn has_shifted(network: &DividedNetwork) -> bool
    requires { IsDividedNetwork network.now }
    ensures { result ≡ false → (who : ℕ) → (network_state network.now).shifts who ≡ 0 }
{
    any_shifted(&network.runs)
}

// Whether a box of some part has.
fn any_shifted(runs: &[PartRun]) -> bool
    requires { EachOf IsKnown runs.now }
    ensures { result ≡ false → EachOf HasNoShifts runs.now }
{
    for place in 0..runs.len() {
        if !runs[place].known.unshifted {
            return true;
        }
    }
    false
}

/// Whether some slot owes a retry. The boxes of a part are looked over only where it isn't known that none does.
pub fn owes_retry(network: &mut DividedNetwork) -> bool
    requires { IsDividedNetwork network.old }
    ensures divided { IsDividedNetwork network.new }
    ensures same { network_state network.new ≡ network_state network.old }
    ensures none { result ≡ false → NoneOwes (network_state network.old) }
{
    look_over(&mut network.runs);
    any_owed(&network.runs)
}

// Looks over each part of which it isn't known that no slot owes a retry.
fn look_over(runs: &mut [PartRun])
    requires { EachOf IsKnown runs.old }
    ensures { EachChanged IsKnownAnew runs.old runs.new }
{
    for place in 0..runs.len() {
        look_at(&mut runs[place]);
    }
}

// Looks over one part.
fn look_at(run: &mut PartRun)
    requires { IsKnown run.old }
    ensures { IsKnownAnew run.old run.new }
{
    if !run.known.unowed {
        run.known.unowed = !owes_some(&run.part);
    }
}

// Whether some slot of a part may owe a retry, by what is known.
fn any_owed(runs: &[PartRun]) -> bool
    requires { EachOf IsKnown runs.now }
    ensures { result ≡ false → EachOf HasNoneOwed runs.now }
{
    for place in 0..runs.len() {
        if !runs[place].known.unowed {
            return true;
        }
    }
    false
}
