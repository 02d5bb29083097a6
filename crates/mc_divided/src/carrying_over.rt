// What crosses is carried over between two phases.

ghost use Rattle.std.specs.Prelude.{◌≡◌, ◌≢◌, ◌<◌, length, slice_get, OnOk, Some};
ghost use Rattle.mc_divided.specs.Phasing.{AreApart, CarriesAt, CarriesBoth, CarriesOver, IsCarryable};
ghost use Rattle.mc_part.specs.Carrying.{CanCarry};
ghost use Rattle.mc_part.specs.Phases.{EachOf};

use crate::network::Crossing;
use mc_part::{PartRun, carry};
use std::alloc::AllocError;

/// Carries over what is left in the rings of all channels that cross, and what waits before them. It fails only for want
/// of memory.
pub fn carry_over(crossings: &[Crossing], runs: &mut [PartRun]) -> Result<(), AllocError>
    requires apart { AreApart crossings.now }
    requires carryable { EachOf (IsCarryable runs.old) crossings.now }
    ensures { OnOk result (CarriesOver crossings.now runs.old runs.new) }
{
    for place in 0..crossings.len() {
        carry_at(crossings[place], runs)?;
    }
    Ok(())
}

// The same for one channel.
fn carry_at(crossing: Crossing, runs: &mut [PartRun]) -> Result<(), AllocError>
    requires apart { crossing.from ≢ crossing.to }
    requires carryable { IsCarryable runs.old crossing }
    ensures { OnOk result (CarriesAt runs.old runs.new crossing) }
{
    let from = crossing.from as usize;
    let to = crossing.to as usize;
    let from_port = crossing.from_port as usize;
    let to_port = crossing.to_port as usize;
    if from < to {
        let (front, back) = runs.split_at_mut(to);
        return carry_both(&mut front[from], from_port, &mut back[0], to_port);
    }
    let (front, back) = runs.split_at_mut(from);
    carry_both(&mut back[0], from_port, &mut front[to], to_port)
}

// Both lanes of a channel.
fn carry_both(
    from: &mut PartRun,
    from_port: usize,
    to: &mut PartRun,
    to_port: usize,
) -> Result<(), AllocError>
    requires there { CanCarry from.old.part to.old.part from_port to_port }
    requires back { CanCarry to.old.part from.old.part to_port from_port }
    ensures { OnOk result (CarriesBoth from.old from.new to.old to.new from_port to_port) }
{
    carry(&mut from.part, from_port, &mut to.part, to_port)?;
    carry(&mut to.part, to_port, &mut from.part, from_port)
}
