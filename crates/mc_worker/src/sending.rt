// How a worker sends.

ghost use Rattle.std.specs.Prelude.{◌≡◌, ◌+◌, ◌<◌, ◌≤◌, ◌++◌, [], ℕ, length, map, Some, slice_get};
ghost use Rattle.mc_port.specs.Tunnels.{event_sends, sent_if, tunnels_at};
ghost use Rattle.mc_port.specs.Ends.{out_ring};
ghost use Rattle.mc_worker.specs.Ends.{OutAccount, if_at, out_end};
ghost use Rattle.mc_worker.specs.Places.{AreAtEnds};

use crate::outboxes::Outboxes;
use crate::places::Places;
use mc_lane::Lane;
use mc_port::{OutPort, Stamped};
use mc_signal::Signal;

// Sends an item by a channel end: into the outbox where something waits there or the ring hands it back, else into the
// ring.
fn send(outs: &mut Vec<OutPort>, outboxes: &mut Outboxes, end: u8, item: Stamped)
    requires port { end < length outs.old.items }
    requires boxes { length outboxes.old.boxes ≡ length outs.old.items }
    requires room { 0 < outboxes.old.room }
    ensures account { (e : ℕ) → OutAccount (out_end outs.old.items outboxes.old.boxes e)
        (out_end outs.new.items outboxes.new.boxes e) (if_at end e item) }
    ensures rings { map out_ring outs.new.items ≡ map out_ring outs.old.items }
    ensures ports { length outs.new.items ≡ length outs.old.items }
    ensures boxes { length outboxes.new.boxes ≡ length outboxes.old.boxes }
    ensures room { outboxes.old.room ≤ outboxes.new.room + 1 }
{
    if outboxes.has_items(end) {
        outboxes.push(end, item);
        return;
    }
    if let Err(back) = outs[end as usize].give(item) {
        outboxes.push(end, back);
    }
}

// Sends a signal by the channel end of its slot. A slot without a place sends nothing.
fn send_from(
    outs: &mut Vec<OutPort>,
    outboxes: &mut Outboxes,
    place: &Places,
    slot: u8,
    signal: Signal,
    stamp: u32,
)
    requires places { AreAtEnds (length outs.old.items) place.now }
    requires boxes { length outboxes.old.boxes ≡ length outs.old.items }
    requires room { 0 < outboxes.old.room }
    ensures account { (e : ℕ) → OutAccount (out_end outs.old.items outboxes.old.boxes e)
        (out_end outs.new.items outboxes.new.boxes e) (sent_if (tunnels_at place.now e slot) stamp signal) }
    ensures rings { map out_ring outs.new.items ≡ map out_ring outs.old.items }
    ensures ports { length outs.new.items ≡ length outs.old.items }
    ensures boxes { length outboxes.new.boxes ≡ length outboxes.old.boxes }
    ensures room { outboxes.old.room ≤ outboxes.new.room + 1 }
{
    if let Some((end, tunnel)) = place.place(slot) {
        let item = Stamped {
            stamp,
            tunnel,
            signal,
        };
        send(outs, outboxes, end, item);
    }
}

/// Sends what a turn of this stamp sends, in order.
pub(crate) fn send_all(
    outs: &mut Vec<OutPort>,
    outboxes: &mut Outboxes,
    place: &Places,
    sendings: &[(u8, Signal)],
    stamp: u32,
)
    requires places { AreAtEnds (length outs.old.items) place.now }
    requires boxes { length outboxes.old.boxes ≡ length outs.old.items }
    requires room { length sendings.now ≤ outboxes.old.room }
    ensures account { (e : ℕ) → OutAccount (out_end outs.old.items outboxes.old.boxes e)
        (out_end outs.new.items outboxes.new.boxes e) (event_sends (tunnels_at place.now e) stamp sendings.now) }
    ensures rings { map out_ring outs.new.items ≡ map out_ring outs.old.items }
    ensures ports { length outs.new.items ≡ length outs.old.items }
    ensures boxes { length outboxes.new.boxes ≡ length outboxes.old.boxes }
{
    for sending in sendings {
        send_from(outs, outboxes, place, sending.0, sending.1, stamp);
    }
}

/// Sends all that is in scratch, and leaves it empty.
pub(crate) fn send_scratch(
    outs: &mut Vec<OutPort>,
    outboxes: &mut Outboxes,
    place: &Places,
    scratch: &mut Lane<(u8, Signal)>,
    stamp: u32,
)
    requires places { AreAtEnds (length outs.old.items) place.now }
    requires boxes { length outboxes.old.boxes ≡ length outs.old.items }
    requires room { length scratch.old.items ≤ outboxes.old.room }
    ensures sent { scratch.new.items ≡ [] }
    ensures account { (e : ℕ) → OutAccount (out_end outs.old.items outboxes.old.boxes e)
        (out_end outs.new.items outboxes.new.boxes e) (event_sends (tunnels_at place.now e) stamp scratch.old.items) }
    ensures rings { map out_ring outs.new.items ≡ map out_ring outs.old.items }
    ensures ports { length outs.new.items ≡ length outs.old.items }
    ensures boxes { length outboxes.new.boxes ≡ length outboxes.old.boxes }
{
    while let Some(sending) = scratch.pop() {
        send_from(outs, outboxes, place, sending.0, sending.1, stamp);
    }
}
