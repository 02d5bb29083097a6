// The rings of channels that cross.

ghost use Rattle.std.specs.Prelude.{◌≡◌, ◌<◌, ◌≤◌, ◌==◌, ℕ, [], length, replicate, All, IfOk, OnOk};
ghost use Rattle.mc_part.specs.DividedParts.{HasBoxes, inner_lists};
ghost use Rattle.mc_model.specs.Worlds.{channel_number_limit};
ghost use Rattle.mc_divided.specs.Laying.{AddsBy, AddsCrossing, AreWired, IsDivision, ports_in, with_port};

use crate::dividing::Division;
use crate::network::Crossing;
use mc_model::Channel;
use mc_part::Port;
use mc_port::pair;
use std::alloc::{AllocError, Global};

/// The ports of each part, in the order of its channels that cross, and these channels.
#[derive(Drop)]
pub(crate) struct Wiring {
    pub ports: Vec<Vec<Port>>,
    pub crossings: Vec<Crossing>,
}

/// Makes the rings of all channels that cross. It fails only for want of memory.
pub(crate) fn wire(
    alloc: Global,
    division: &Division,
    channels: &[Channel],
) -> Result<Wiring, AllocError>
    requires division { IsDivision division.now }
    requires few { length channels.now ≤ channel_number_limit }
    requires joins { All (HasBoxes (length division.now.assigned.items)) channels.now }
    ensures { IfOk result (λ wiring. AreWired division.now.assigned.items channels.now division.now.count
        (length channels.now) (inner_lists wiring.ports.items) wiring.crossings.items) }
{
    let mut wiring = Wiring {
        ports: no_ports(alloc, division.count)?,
        crossings: Vec::new(alloc),
    };
    for number in 0..channels.len() {
        let channel = &channels[number];
        let from = division.assigned[channel.from as usize];
        let to = division.assigned[channel.to as usize];
        wire_channel(alloc, from, to, &mut wiring)?;
    }
    Ok(wiring)
}

// So many empty lists.
fn no_ports(alloc: Global, count: usize) -> Result<Vec<Vec<Port>>, AllocError>
    ensures { IfOk result (λ ports. inner_lists ports.items ≡ replicate count []) }
{
    let mut ports = Vec::with_capacity(alloc, count)?;
    for _done in 0..count {
        ports.push(Vec::new(alloc))?;
    }
    Ok(ports)
}

// The rings of a channel between these parts, where it crosses.
fn wire_channel(alloc: Global, from: u32, to: u32, wiring: &mut Wiring) -> Result<(), AllocError>
    requires from { from < length wiring.old.ports.items }
    requires to { to < length wiring.old.ports.items }
    requires short { (part : ℕ) → length (ports_in (inner_lists wiring.old.ports.items) part) < channel_number_limit }
    ensures { OnOk result (AddsBy (to == from) from to wiring.old wiring.new) }
{
    if to == from {
        return Ok(());
    }
    add_crossing(alloc, from, to, wiring)
}

// The rings of one that does.
fn add_crossing(alloc: Global, from: u32, to: u32, wiring: &mut Wiring) -> Result<(), AllocError>
    requires from { from < length wiring.old.ports.items }
    requires to { to < length wiring.old.ports.items }
    requires short { (part : ℕ) → length (ports_in (inner_lists wiring.old.ports.items) part) < channel_number_limit }
    ensures { OnOk result (AddsCrossing from to wiring.old wiring.new) }
{
    let (out, into) = pair(alloc)?;
    let (out_back, into_back) = pair(alloc)?;
    let near = Port {
        holder: 0,
        starts_here: true,
        first: 0,
        from: into_back,
        to: out,
    };
    let far = Port {
        holder: 0,
        starts_here: false,
        first: 0,
        from: into,
        to: out_back,
    };
    let from_port = add_port(&mut wiring.ports, from, near)?;
    let to_port = add_port(&mut wiring.ports, to, far)?;
    wiring.crossings.push(Crossing {
        from,
        from_port,
        to,
        to_port,
    })?;
    Ok(())
}

// A port more for a part, which gets the next number there.
fn add_port(ports: &mut Vec<Vec<Port>>, part: u32, port: Port) -> Result<u32, AllocError>
    requires there { part < length ports.old.items }
    requires short { length (ports_in (inner_lists ports.old.items) part) ≤ channel_number_limit }
    ensures added { OnOk result (inner_lists ports.new.items ≡ with_port (inner_lists ports.old.items) part port) }
    ensures number { IfOk result (λ number. number ≡ length (ports_in (inner_lists ports.old.items) part)) }
{
    let own = &mut ports[part as usize];
    let number = own.len() as u32;
    own.push(port)?;
    Ok(number)
}
