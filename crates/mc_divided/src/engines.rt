// The parts of a network, as they are laid out.

ghost use Rattle.std.specs.Prelude.{◌≡◌, ◌<◌, ◌≤◌, ◌*◌, ◌-◌, ◌^◌, ℕ, [], length, slice_index_or, slice_set, All, IfOk};
ghost use Rattle.mc_part.specs.Divisions.{starts_in};
ghost use Rattle.mc_part.specs.DividedParts.{AreNumbersIn, HasBoxes, inner_lists, share_of};
ghost use Rattle.mc_model.specs.Worlds.{AreChannels, channel_number_limit, first_world};
ghost use Rattle.mc_divided.specs.Laying.{AllFit, AreLaid, AreNumbered, AreWhole, FitTogether, IsDivision, IsFresh};
ghost use Rattle.mc_divided.specs.Laying.{IsLaid, first_slots, ports_in};
ghost use Rattle.mc_divided.specs.declared.limit.TheConstants.{NETWORK_LIMIT};
ghost use Rattle.mc_part.specs.Ports.{sides};
ghost use Rattle.mc_world.specs.Pieces.{IsPiece};
ghost use Rattle.mc_world.specs.Lanes.{signals_of};

use crate::dividing::Division;
use crate::filling::fill;
use mc_box::MediaBox;
use mc_lane::Lane;
use mc_model::Channel;
use mc_part::{Known, Part, PartRun, Port, channels_in, share};
use mc_signal::Tagged;
use mc_world::{Engine, PieceFault, engine_of};
use std::alloc::{AllocError, Global};
use std::mem;

/// Lays out the parts: each with its share of the boxes, its channels, what is under way to its boxes, and its ports.
/// It fails only for want of memory.
pub(crate) fn lay_parts(
    alloc: Global,
    division: &Division,
    channels: &[Channel],
    lanes: &[Lane<Tagged>],
    boxes: Vec<MediaBox>,
    ports: Vec<Vec<Port>>,
) -> Result<Vec<PartRun>, AllocError>
    requires division { IsDivision division.now }
    requires each { length division.now.assigned.items ≡ length boxes.items }
    requires few { length boxes.items ≤ NETWORK_LIMIT }
    requires whole { AreWhole boxes.items channels.now (signals_of lanes.now) }
    requires lanes { length lanes.now ≡ 2 * length channels.now }
    requires count { length ports.items ≡ division.now.count }
    requires sides { (part : ℕ) → part < division.now.count
        → sides (ports_in (inner_lists ports.items) part) ≡ starts_in division.now.assigned.items channels.now part }
    ensures { IfOk result (λ runs. AreLaid division.now.assigned.items channels.now (signals_of lanes.now)
        (share_of boxes.items division.now.assigned.items) (inner_lists ports.items)
        division.now.count runs.items) }
{
    let shares = share(alloc, &division.assigned, division.count, boxes)?;
    lay_shares(alloc, division, channels, lanes, shares, ports)
}

// The same of these boxes by part.
fn lay_shares(
    alloc: Global,
    division: &Division,
    channels: &[Channel],
    lanes: &[Lane<Tagged>],
    shares: Vec<Vec<MediaBox>>,
    mut ports: Vec<Vec<Port>>,
) -> Result<Vec<PartRun>, AllocError>
    requires division { IsDivision division.now }
    requires joins { All (HasBoxes (length division.now.assigned.items)) channels.now }
    requires channels { AreChannels channels.now }
    requires lanes { length lanes.now ≡ 2 * length channels.now }
    requires fit { AllFit channels.now (signals_of lanes.now) }
    requires count { length shares.items ≡ division.now.count }
    requires ports { length ports.items ≡ division.now.count }
    requires together { (part : ℕ) → part < division.now.count
        → FitTogether division.now.assigned.items channels.now part
        (slice_index_or (inner_lists shares.items) part []) (ports_in (inner_lists ports.items) part) }
    ensures { IfOk result (λ runs. AreLaid division.now.assigned.items channels.now (signals_of lanes.now)
        (λ part. slice_index_or (inner_lists shares.items) part []) (inner_lists ports.items)
        division.now.count runs.items) }
{
    let mut runs = Vec::new(alloc);
    for boxes in shares {
        let part = runs.len();
        let own_ports = take_ports(alloc, &mut ports, part);
        let run = lay_part(
            alloc,
            division,
            channels,
            lanes,
            part as u32,
            boxes,
            own_ports,
        )?;
        runs.push(run)?;
    }
    Ok(runs)
}

// The ports of a part, which leaves none there.
fn take_ports(alloc: Global, ports: &mut Vec<Vec<Port>>, part: usize) -> Vec<Port>
    requires { part < length ports.old.items }
    ensures taken { result.items ≡ ports_in (inner_lists ports.old.items) part }
    ensures left { inner_lists ports.new.items ≡ slice_set (inner_lists ports.old.items) part [] }
{
    mem::replace(&mut ports[part], Vec::new(alloc))
}

// One part.
fn lay_part(
    alloc: Global,
    division: &Division,
    channels: &[Channel],
    lanes: &[Lane<Tagged>],
    part: u32,
    boxes: Vec<MediaBox>,
    mut ports: Vec<Port>,
) -> Result<PartRun, AllocError>
    requires numbers { AreNumbersIn division.now.assigned.items division.now.numbers.items }
    requires joins { All (HasBoxes (length division.now.assigned.items)) channels.now }
    requires channels { AreChannels channels.now }
    requires together { FitTogether division.now.assigned.items channels.now part boxes.items ports.items }
    requires lanes { length lanes.now ≡ 2 * length channels.now }
    requires fit { AllFit channels.now (signals_of lanes.now) }
    ensures { IfOk result (IsLaid division.now.assigned.items channels.now (signals_of lanes.now) part boxes.items
        ports.items) }
{
    let count = boxes.len();
    let own = channels_in(
        alloc,
        &division.assigned,
        &division.numbers,
        part,
        count as u32,
        channels,
    )?;
    let firsts = first_slots(alloc, &own)?;
    number_ports(count as u32, &firsts, &mut ports);
    let mut engine = engine_for(alloc, boxes, own, count + ports.len())?;
    fill(
        alloc,
        &division.assigned,
        channels,
        lanes,
        part,
        &firsts,
        &mut engine,
    )?;
    run_of(alloc, engine, ports, count)
}

// A part that has made nothing yet.
fn run_of(
    alloc: Global,
    engine: Engine,
    ports: Vec<Port>,
    count: usize,
) -> Result<PartRun, AllocError>
    requires { count ≡ length engine.boxes }
    ensures engine { IfOk result (λ run. run.part.engine ≡ engine) }
    ensures ports { IfOk result (λ run. run.part.ports.items ≡ ports.items) }
    ensures fresh { IfOk result IsFresh }
{
    let shifts = vec![in alloc; 0; count]?;
    let part = Part {
        engine,
        stamp: 0,
        heard: 0,
        log: Lane::new(alloc),
        ports,
        commands: Vec::new(alloc),
        used: 0,
        shifts,
    };
    Ok(PartRun {
        part,
        active: false,
        ended: None,
        known: Known {
            unowed: false,
            unshifted: true,
        },
    })
}

// The engine of boxes and channels that are a piece of a network.
fn engine_for(
    alloc: Global,
    boxes: Vec<MediaBox>,
    channels: Vec<Channel>,
    homes: usize,
) -> Result<Engine, AllocError>
    requires channels { AreChannels channels.items }
    requires few { homes ≤ 2 ^ 32 }
    requires piece { IsPiece boxes.items channels.items homes }
    ensures { IfOk result (λ engine. engine ≡ first_world boxes.items channels.items) }
{
    match engine_of(alloc, boxes, channels, homes) {
        Ok(engine) => Ok(engine),
        Err(PieceFault::NoMemory(e)) => Err(e),
        Err(PieceFault::NoPiece) => unreachable!(),
    }
}

// The number of the first slot of each of these channels.
fn first_slots(alloc: Global, channels: &[Channel]) -> Result<Vec<u32>, AllocError>
    requires { AreChannels channels.now }
    ensures { IfOk result (λ firsts. firsts.items ≡ first_slots channels.now) }
{
    let mut firsts = Vec::new(alloc);
    let mut slots = 0;
    for channel in channels {
        firsts.push(slots as u32)?;
        slots += 2 * channel.tunnels.len();
    }
    Ok(firsts)
}

// Ports get the numbers of their place holders, past so many boxes, and of their first slots.
fn number_ports(boxes: u32, firsts: &[u32], ports: &mut [Port])
    requires few { boxes ≤ NETWORK_LIMIT }
    requires ports { length ports.old ≤ channel_number_limit }
    requires each { length ports.old ≤ length firsts.now }
    requires fit { All (λ first. first < 2 ^ 32 - 1) firsts.now }
    ensures { AreNumbered boxes firsts.now ports.old ports.new }
{
    for number in 0..ports.len() {
        let port = &mut ports[number];
        port.holder = boxes + number as u32;
        port.first = firsts[number] + u32::from(!port.starts_here);
    }
}
