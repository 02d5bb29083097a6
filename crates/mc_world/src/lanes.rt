// Lanes as they change, each given by its place among all lanes.

ghost use Rattle.std.specs.Prelude.{◌≡◌, ℕ, ◌+◌, ◌<◌, true, length, OnErr, OnOk};
ghost use Rattle.mc_slot.specs.Sending.{sends_of};
ghost use Rattle.std.specs.List.{slice_get};
ghost use Rattle.mc_world.specs.Lanes.{signals_of, lane_by, numbers_of, tunnel_by, without_front, one_sent, all_sent, relay, with_sending, IsLaid, HasRoom, HasRoomAway, HasRoomFor, HasRoomFrom};
ghost use Rattle.mc_box.specs.declared.event.Event.{Event};
ghost use Rattle.mc_world.specs.Senders.{AreSenders, MaySendBy};
ghost use Rattle.mc_world.specs.Fronts.{NextServed};
ghost use Rattle.mc_world.specs.Waiting.{waits_by, IsWaiting};

use crate::topology::{Topology, far};
use crate::waiting::Waiting;
use mc_box::Event;
use mc_lane::Lane;
use mc_signal::{Signal, Tagged};
use mc_slot::Sends;
use std::alloc::AllocError;

/// The slots by which a Take sends, each by its local number and its number: the one that takes, and the one that it is
/// linked with; where it is linked with none, itself again.
#[derive(Clone, Copy)]
pub struct Senders {
    pub own: (u8, u32),
    pub partner: (u8, u32),
}

impl Senders {
    // The number of a box's slot, which most of the time is one of these.
    fn number(&self, topology: &Topology, who: u32, local: u8) -> Option<u32>
        requires { AreSenders topology.now who self.now }
        ensures { result ≡ slice_get (numbers_of topology.now who) local }
    {
        if local == self.partner.0 {
            Some(self.partner.1)
        } else if local == self.own.0 {
            Some(self.own.1)
        } else {
            topology.number(who, local)
        }
    }
}

// Makes room in each lane that leads away from a slot of the box.
fn make_room(
    lanes: &mut [Lane<Tagged>],
    topology: &Topology,
    who: u32,
    most: usize,
) -> Result<(), AllocError>
    requires { IsLaid topology.now (length lanes.old) }
    ensures same { signals_of lanes.new ≡ signals_of lanes.old }
    ensures room { OnOk result ((local : ℕ) → HasRoomFor lanes.new topology.now who local most) }
{
    for slot in topology.numbers(who) {
        let (lane, _) = topology.toward(far(*slot));
        reserve(lanes, lane, most)?;
    }
    Ok(())
}

/// Makes room for as much as an event may send in all, in each lane by which it may.
pub fn make_room_for(
    lanes: &mut [Lane<Tagged>],
    topology: &Topology,
    who: u32,
    event: Event,
    most: usize,
) -> Result<(), AllocError>
    requires { IsLaid topology.now (length lanes.old) }
    ensures same { signals_of lanes.new ≡ signals_of lanes.old }
    ensures room { OnOk result ((local : ℕ) → MaySendBy event local → HasRoomFor lanes.new topology.now who local most) }
{
    match event {
        Event::Retry(local) => make_room_at(lanes, topology, who, local, most),
        _ => make_room(lanes, topology, who, most),
    }
}

// Makes room in the lane that leads away from a slot, if it has a number.
fn make_room_at(
    lanes: &mut [Lane<Tagged>],
    topology: &Topology,
    who: u32,
    local: u8,
    most: usize,
) -> Result<(), AllocError>
    requires { IsLaid topology.now (length lanes.old) }
    ensures same { signals_of lanes.new ≡ signals_of lanes.old }
    ensures room { OnOk result (HasRoomFor lanes.new topology.now who local most) }
{
    let Some(slot) = topology.number(who, local) else {
        return Ok(());
    };
    let (lane, _) = topology.toward(far(slot));
    reserve(lanes, lane, most)
}

/// Makes room in the two lanes that lead away from these slots: a Take sends by no other.
pub fn make_room_by(
    lanes: &mut [Lane<Tagged>],
    topology: &Topology,
    senders: &Senders,
    most: usize,
) -> Result<(), AllocError>
    requires laid { IsLaid topology.now (length lanes.old) }
    requires own { senders.now.own.1 < length topology.now.places.items }
    requires partner { senders.now.partner.1 < length topology.now.places.items }
    ensures same { signals_of lanes.new ≡ signals_of lanes.old }
    ensures own { OnOk result (HasRoomAway lanes.new topology.now senders.now.own.1 most) }
    ensures partner { OnOk result (HasRoomAway lanes.new topology.now senders.now.partner.1 most) }
{
    let (lane, _) = topology.toward(far(senders.own.1));
    reserve(lanes, lane, most)?;
    let (lane, _) = topology.toward(far(senders.partner.1));
    reserve(lanes, lane, most)
}

/// What a box sends goes away, each sending in its order to the end of the lane that leads to the far slot of its
/// own slot.
pub fn send_all(
    lanes: &mut [Lane<Tagged>],
    waiting: &mut Waiting,
    topology: &Topology,
    who: u32,
    senders: &Senders,
    sends: &Sends,
)
    requires laid { IsLaid topology.now (length lanes.old) }
    requires waiting { IsWaiting topology.now (signals_of lanes.old) waiting.old }
    requires senders { AreSenders topology.now who senders.now }
    requires room { HasRoomFrom lanes.old topology.now who (sends_of sends.now) sends.now.len }
    ensures sent { signals_of lanes.new ≡ all_sent topology.now who (signals_of lanes.old) (sends_of sends.now) }
    ensures waiting { IsWaiting topology.now (signals_of lanes.new) waiting.new }
{
    for sending in sends.as_slice() {
        let slot = senders.number(topology, who, sending.0);
        send(lanes, waiting, topology, who, slot, sending);
    }
}

/// The same for what stands in a queue.
pub fn send_lane(
    lanes: &mut [Lane<Tagged>],
    waiting: &mut Waiting,
    topology: &Topology,
    who: u32,
    sends: &Lane<(u8, Signal)>,
)
    requires laid { IsLaid topology.now (length lanes.old) }
    requires waiting { IsWaiting topology.now (signals_of lanes.old) waiting.old }
    requires room { HasRoomFrom lanes.old topology.now who sends.now.items (length sends.now.items) }
    ensures sent { signals_of lanes.new ≡ all_sent topology.now who (signals_of lanes.old) sends.now.items }
    ensures waiting { IsWaiting topology.now (signals_of lanes.new) waiting.new }
{
    for i in 0..sends.len() {
        let sending = sends.get(i);
        let slot = topology.number(who, sending.0);
        send(lanes, waiting, topology, who, slot, &sending);
    }
}

/// The first of these slots takes the front of the lane toward it, and then what its box sends goes away.
pub fn relay(
    lanes: &mut [Lane<Tagged>],
    waiting: &mut Waiting,
    topology: &Topology,
    who: u32,
    senders: &Senders,
    toward: (usize, u8),
    sends: &Sends,
)
    requires laid { IsLaid topology.now (length lanes.old) }
    requires waiting { IsWaiting topology.now (signals_of lanes.old) waiting.old }
    requires senders { AreSenders topology.now who senders.now }
    requires here { senders.now.own.1 < length topology.now.places.items }
    requires some { waits_by topology.now (signals_of lanes.old) senders.now.own.1 ≡ true }
    requires served { NextServed topology.now (signals_of lanes.old) senders.now.own.1 }
    requires lane { toward.0 ≡ lane_by topology.now senders.now.own.1 }
    requires tunnel { toward.1 ≡ tunnel_by topology.now senders.now.own.1 }
    requires room { HasRoomFrom lanes.old topology.now who (sends_of sends.now) sends.now.len }
    ensures sent { signals_of lanes.new
        ≡ relay topology.now who (signals_of lanes.old) senders.now.own.1 (sends_of sends.now) }
    ensures waiting { IsWaiting topology.now (signals_of lanes.new) waiting.new }
{
    pop_front(lanes, waiting, topology, senders.own.1, toward);
    send_all(lanes, waiting, topology, who, senders, sends);
}

/// The front of its lane leaves for a slot, and another slot may be next. The room in each lane stays.
pub fn pop_front(
    lanes: &mut [Lane<Tagged>],
    waiting: &mut Waiting,
    topology: &Topology,
    slot: u32,
    toward: (usize, u8),
)
    requires laid { IsLaid topology.now (length lanes.old) }
    requires waiting { IsWaiting topology.now (signals_of lanes.old) waiting.old }
    requires here { slot < length topology.now.places.items }
    requires some { waits_by topology.now (signals_of lanes.old) slot ≡ true }
    requires served { NextServed topology.now (signals_of lanes.old) slot }
    requires lane { toward.0 ≡ lane_by topology.now slot }
    requires tunnel { toward.1 ≡ tunnel_by topology.now slot }
    ensures popped { signals_of lanes.new ≡ without_front (signals_of lanes.old) (lane_by topology.now slot) }
    ensures waiting { IsWaiting topology.now (signals_of lanes.new) waiting.new }
    ensures room { (k count : ℕ) → HasRoom lanes.old k count → HasRoom lanes.new k count }
{
    let (lane, tunnel) = toward;
    let lane = &mut lanes[lane];
    let _front = lane.pop();
    match lane.front() {
        Some(next) => {
            // tunnels of a channel follow each other, and so do their slots on one side
            let next_slot = slot as usize + 2 * next.tunnel as usize - 2 * tunnel as usize;
            waiting.pass(slot, next_slot as u32);
        }
        None => waiting.clear(topology, slot),
    }
}

/// A signal goes to the end of the lane that leads to a slot, once there is room.
pub fn put_last(
    lanes: &mut [Lane<Tagged>],
    waiting: &mut Waiting,
    topology: &Topology,
    slot: u32,
    signal: &Signal,
) -> Result<(), AllocError>
    requires laid { IsLaid topology.now (length lanes.old) }
    requires waiting { IsWaiting topology.now (signals_of lanes.old) waiting.old }
    requires here { slot < length topology.now.places.items }
    ensures sent { OnOk result (signals_of lanes.new ≡ with_sending topology.now (signals_of lanes.old) signal.now slot) }
    ensures same { OnErr result (signals_of lanes.new ≡ signals_of lanes.old) }
    ensures waiting { IsWaiting topology.now (signals_of lanes.new) waiting.new }
{
    let (lane, _) = topology.toward(slot);
    reserve(lanes, lane, 1)?;
    push_last(lanes, waiting, topology, slot, signal);
    Ok(())
}

// Makes room in a lane. The room in each lane stays.
fn reserve(lanes: &mut [Lane<Tagged>], lane: usize, most: usize) -> Result<(), AllocError>
    requires { lane < length lanes.old }
    ensures same { signals_of lanes.new ≡ signals_of lanes.old }
    ensures room { OnOk result (HasRoom lanes.new lane most) }
    ensures kept { (k count : ℕ) → HasRoom lanes.old k count → HasRoom lanes.new k count }
{
    let lane = &mut lanes[lane];
    lane.reserve(most)
}

// What a box sends by one of its slots goes to the end of the lane that leads to the far slot. A slot without a
// number sends nothing.
fn send(
    lanes: &mut [Lane<Tagged>],
    waiting: &mut Waiting,
    topology: &Topology,
    who: u32,
    slot: Option<u32>,
    sending: &(u8, Signal),
)
    requires laid { IsLaid topology.now (length lanes.old) }
    requires waiting { IsWaiting topology.now (signals_of lanes.old) waiting.old }
    requires number { slot ≡ slice_get (numbers_of topology.now who) sending.now.0 }
    requires room { HasRoomFor lanes.old topology.now who sending.now.0 1 }
    ensures sent { signals_of lanes.new ≡ one_sent topology.now who (signals_of lanes.old) sending.now }
    ensures waiting { IsWaiting topology.now (signals_of lanes.new) waiting.new }
    ensures room { (k count : ℕ) → HasRoom lanes.old k (count + 1) → HasRoom lanes.new k count }
{
    if let Some(slot) = slot {
        push_last(lanes, waiting, topology, far(slot), &sending.1);
    }
}

// A signal goes to the end of the lane that leads to a slot, for which it may be the first.
fn push_last(
    lanes: &mut [Lane<Tagged>],
    waiting: &mut Waiting,
    topology: &Topology,
    slot: u32,
    signal: &Signal,
)
    requires laid { IsLaid topology.now (length lanes.old) }
    requires waiting { IsWaiting topology.now (signals_of lanes.old) waiting.old }
    requires here { slot < length topology.now.places.items }
    requires room { HasRoom lanes.old (lane_by topology.now slot) 1 }
    ensures sent { signals_of lanes.new ≡ with_sending topology.now (signals_of lanes.old) signal.now slot }
    ensures waiting { IsWaiting topology.now (signals_of lanes.new) waiting.new }
    ensures room { (k count : ℕ) → HasRoom lanes.old k (count + 1) → HasRoom lanes.new k count }
{
    let (lane, tunnel) = topology.toward(slot);
    let lane = &mut lanes[lane];
    let was_empty = lane.is_empty();
    lane.push(Tagged {
        tunnel,
        signal: *signal,
    });
    if was_empty {
        waiting.set(topology, slot);
    }
}
