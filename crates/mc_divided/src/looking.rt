// What is to be seen of a network between two phases.

ghost use Rattle.std.specs.Prelude.{◌≡◌, ◌<◌, length, IfOk};
ghost use Rattle.mc_model.specs.Paths.{partner_of};
ghost use Rattle.mc_model.specs.Rings.{IsLeastOnRing};
ghost use Rattle.mc_model.specs.Worlds.{box_at, number, slot_count};
ghost use Rattle.mc_divided.specs.Networks.{IsDividedNetwork, network_state};
ghost use Rattle.mc_divided.specs.States.{IsFirstShifterOr};
ghost use Rattle.mc_world.specs.Rings.{ArePartners};

use crate::network::DividedNetwork;
use mc_box::{Event, MediaBox};
use mc_slot::SlotGoal;
use mc_world::least_on_ring;
use std::alloc::{AllocError, Global};

/// The number in the network of a box's slot.
pub fn slot_number(network: &DividedNetwork, who: u32, local: u8) -> Option<u32>
    requires { IsDividedNetwork network.now }
    ensures { result ≡ number (network_state network.now).world who local }
{
    network.frame.number(who, local)
}

/// The first box whose program has an enabled transition.
pub fn first_shifter(network: &DividedNetwork) -> Option<u32>
    requires { IsDividedNetwork network.now }
    ensures { IsFirstShifterOr (network_state network.now).world result }
{
    for who in 0..network.assigned.len() {
        if box_of(network, who as u32).enabled(&Event::Shift) {
            return Some(who as u32);
        }
    }
    None
}

/// A box of the network, by its number there.
pub fn box_of(network: &DividedNetwork, who: u32) -> &MediaBox
    requires divided { IsDividedNetwork network.now }
    requires here { who < length network.now.assigned.items }
    ensures { result.now ≡ box_at (network_state network.now).world who }
{
    let part = network.assigned[who as usize] as usize;
    let number = network.numbers[who as usize] as usize;
    &network.runs[part].part.engine.boxes()[number]
}

/// The least slot on a ring of links and tunnels. It fails only for want of memory.
pub fn least_ring(alloc: Global, network: &DividedNetwork) -> Result<Option<u32>, AllocError>
    requires { IsDividedNetwork network.now }
    ensures { IfOk result (IsLeastOnRing (network_state network.now).world) }
{
    let partners = partners(alloc, network)?;
    Ok(least_on_ring(&partners))
}

// The partner of each slot.
fn partners(alloc: Global, network: &DividedNetwork) -> Result<Vec<Option<u32>>, AllocError>
    requires { IsDividedNetwork network.now }
    ensures { IfOk result (λ partners. ArePartners (network_state network.now).world partners.items) }
{
    let mut partners = Vec::with_capacity(alloc, network.frame.slot_count())?;
    for slot in 0..network.frame.slot_count() {
        partners.push(partner(network, slot as u32))?;
    }
    Ok(partners)
}

// The slot that a slot is linked with; none where its goal is an end's.
fn partner(network: &DividedNetwork, slot: u32) -> Option<u32>
    requires divided { IsDividedNetwork network.now }
    requires inside { slot < slot_count (network_state network.now).world }
    ensures { result ≡ partner_of (network_state network.now).world slot }
{
    let (who, local) = network.frame.place(slot);
    match box_of(network, who).goal(local) {
        SlotGoal::End(_) => None,
        SlotGoal::Link(partner) => network.frame.number(who, partner),
    }
}
