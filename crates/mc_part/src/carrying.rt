// What is carried over between two parts, by a lane that crosses.

ghost use Rattle.std.specs.Prelude.{◌≡◌, ◌<◌, ◌^◌, ◌++◌, [], ◌∷◌, length, slice_get, IfOk, IsFalse, IsTrue, OnErr, OnOk, Some};
ghost use Rattle.mc_port.specs.Ends.{GivesNothing, IsInOrder, IsPair, in_ring, known, left_in, received};
ghost use Rattle.mc_world.specs.Pumping.{is_slot_at, with_last};
ghost use Rattle.mc_part.specs.Ports.{entry_slot, into_lane};
ghost use Rattle.mc_part.specs.Carrying.{left_count, waiting_before};
ghost use Rattle.mc_part.specs.Carrying.{CanCarry, CarriesAll, GoesOver, HasNoneLeft, HasNoneWaiting, Knew, LosesNothing};

use crate::part::Part;
use crate::port::{Port, into_lane};
use mc_port::{InPort, OutPort, Stamped, look_beside};
use mc_signal::Signal;
use mc_world::{Engine, PutFault};
use std::alloc::AllocError;

/// What is left in the ring by which a part sends, and then what waits before it, goes to the end of the lane of the
/// part that takes. The ports have these numbers in their parts. It fails only for want of memory, and loses nothing
/// then.
pub fn carry(from: &mut Part, sender: usize, to: &mut Part, taker: usize) -> Result<(), AllocError>
    requires { CanCarry from.old to.old sender taker }
    ensures all { OnOk result (CarriesAll from.old from.new to.old to.new sender taker) }
    ensures kept { OnErr result (LosesNothing from.old from.new to.old to.new sender taker) }
{
    while carry_item(from, sender, to, taker)? {}
    while carry_signal(from, sender, to, taker)? {}
    Ok(())
}

// One item of the ring, where one is left.
fn carry_item(
    from: &mut Part,
    sender: usize,
    to: &mut Part,
    taker: usize,
) -> Result<bool, AllocError>
    requires { CanCarry from.old to.old sender taker }
    ensures over { (can : CanCarry from.old to.old sender taker)
        → GoesOver from.old to.old sender taker can from.new to.new }
    ensures knew { Knew from.old to.old sender taker }
    ensures none { IfOk result (λ more. IsFalse more → HasNoneLeft from.new to.new sender taker) }
    ensures fewer { IfOk result (λ more. IsTrue more
        → left_count from.new to.new sender taker < left_count from.old to.old sender taker) }
{
    let port = &mut to.ports[taker];
    let Some(item) = first_left(&mut from.ports[sender].to, &mut port.from) else {
        return Ok(false);
    };
    put(&mut to.engine, port, taker, item.tunnel, item.signal)?;
    take_item(&mut port.from, item);
    Ok(true)
}

// The oldest item that is left in a ring.
fn first_left(from: &mut OutPort, to: &mut InPort) -> Option<Stamped>
    requires { IsPair from.old to.old }
    ensures from { GivesNothing from.old from.new }
    ensures in_ring { in_ring to.new ≡ in_ring to.old }
    ensures received { received to.new ≡ received to.old }
    ensures order { IsInOrder from.old to.old }
    ensures first { result ≡ slice_get (left_in from.old to.old) 0 }
    ensures known { result ≡ slice_get (known to.new) 0 }
{
    if look_beside(from, to) == 0 {
        return None;
    }
    to.peek()
}

// Takes it.
fn take_item(to: &mut InPort, item: Stamped)
    requires { slice_get (known to.old) 0 ≡ Some item }
    ensures in_ring { in_ring to.new ≡ in_ring to.old }
    ensures received { received to.new ≡ received to.old ++ item ∷ [] }
{
    match to.take() {
        Some(_item) => {}
        None => unreachable!(),
    }
}

// One signal that waits before the ring, where one does.
fn carry_signal(
    from: &mut Part,
    sender: usize,
    to: &mut Part,
    taker: usize,
) -> Result<bool, AllocError>
    requires can { CanCarry from.old to.old sender taker }
    requires drained { HasNoneLeft from.old to.old sender taker }
    ensures over { (can : CanCarry from.old to.old sender taker)
        → GoesOver from.old to.old sender taker can from.new to.new }
    ensures drained { HasNoneLeft from.new to.new sender taker }
    ensures none { IfOk result (λ more. IsFalse more → HasNoneWaiting from.new to.new sender taker) }
    ensures fewer { IfOk result (λ more. IsTrue more
        → waiting_before from.new sender < waiting_before from.old sender) }
{
    let port = &to.ports[taker];
    let holder = from.ports[sender].holder;
    let Some(out) = from.engine.first_out(holder) else {
        return Ok(false);
    };
    put(&mut to.engine, port, taker, out.tunnel, out.signal)?;
    from.engine.pop_out(&out);
    Ok(true)
}

// A signal goes to the end of the lane that comes in by a port.
fn put(
    engine: &mut Engine,
    port: &Port,
    channel: usize,
    tunnel: u8,
    signal: Signal,
) -> Result<(), AllocError>
    requires few { channel < 2 ^ 32 }
    requires slot { IsTrue (is_slot_at engine.old (into_lane channel port.now.starts_here) tunnel
        (entry_slot port.now tunnel)) }
    ensures put { OnOk result (engine.new ≡ with_last engine.old (into_lane channel port.now.starts_here)
        (record { tunnel = tunnel; signal = signal })) }
    ensures there { OnOk result (into_lane channel port.now.starts_here < length engine.old.lanes) }
    ensures same { OnErr result (engine.new ≡ engine.old) }
{
    let lane = into_lane(channel, port.starts_here);
    let slot = port.slot(tunnel);
    match engine.put_in(lane, tunnel, slot, signal) {
        Ok(()) => Ok(()),
        Err(PutFault::NoMemory(e)) => Err(e),
        Err(PutFault::Stray) => unreachable!(),
    }
}
