// One event of one box, by the tables of its network: nothing is asked of the network as a whole.

ghost use Rattle.std.specs.Prelude.{◌≡◌, ◌<◌, ◌≤◌, ℕ, [], true, false, length, None, Some, IsSome, IsTrue, OnErr, OnOk};
ghost use Rattle.std.specs.List.{slice_get};
ghost use Rattle.std.specs.Option.{is_some};
ghost use Rattle.mc_slot.specs.Moves.{slot_take};
ghost use Rattle.mc_box.specs.BoxEvents.{is_enabled, is_take, is_version_end};
ghost use Rattle.mc_box.specs.Boxes.{slot_at};
ghost use Rattle.mc_box.specs.declared.event.Event.{Event};
ghost use Rattle.mc_world.specs.Fronts.{NextServed};
ghost use Rattle.mc_world.specs.Lanes.{lane_by, numbers_of, signals_of, tunnel_by, without_front, IsLaid};
ghost use Rattle.mc_world.specs.Making.{IsBeside, MakesEvent};
ghost use Rattle.mc_world.specs.Senders.{AreSenders};
ghost use Rattle.mc_world.specs.Waiting.{waits_by, IsWaiting};

use crate::lanes::{Senders, make_room_by, make_room_for, relay, send_lane};
use crate::topology::Topology;
use crate::waiting::Waiting;
use mc_box::limit::LAST_VERSION;
use mc_box::{Event, MediaBox, MediaChange};
use mc_lane::Lane;
use mc_signal::{Signal, Tagged};
use mc_slot::{SENDS_LIMIT, Sends, SlotGoal};
use std::alloc::AllocError;

/// The first of these slots takes the front of the lane toward it, which is a signal that it may take, and its box
/// does what comes of it.
pub fn take_front(
    lanes: &mut [Lane<Tagged>],
    waiting: &mut Waiting,
    topology: &Topology,
    home: &mut MediaBox,
    who: u32,
    senders: &Senders,
    toward: (usize, u8),
    signal: Signal,
) -> Result<(), AllocError>
    requires laid { IsLaid topology.now (length lanes.old) }
    requires waiting { IsWaiting topology.now (signals_of lanes.old) waiting.old }
    requires senders { AreSenders topology.now who senders.now }
    requires beside { IsBeside topology.now who home.old senders.now }
    requires here { senders.now.own.0 < length home.old.slots }
    requires lawful { IsSome (slot_take (slot_at home.old senders.now.own.0) signal) }
    requires some { waits_by topology.now (signals_of lanes.old) senders.now.own.1 ≡ true }
    requires served { NextServed topology.now (signals_of lanes.old) senders.now.own.1 }
    requires lane { toward.0 ≡ lane_by topology.now senders.now.own.1 }
    requires tunnel { toward.1 ≡ tunnel_by topology.now senders.now.own.1 }
    ensures made { OnOk result (MakesEvent topology.now who home.old home.new (Event.Take senders.now.own.0) (Some signal)
        (without_front (signals_of lanes.old) (lane_by topology.now senders.now.own.1)) (signals_of lanes.new)) }
    ensures waiting { IsWaiting topology.now (signals_of lanes.new) waiting.new }
    ensures same { OnErr result ((home.new ≡ home.old) × (signals_of lanes.new ≡ signals_of lanes.old)) }
{
    make_room_by(lanes, topology, senders, SENDS_LIMIT)?;
    home.keeps();
    let mut sends = Sends::none();
    home.send_take(senders.own.0, signal, &mut sends);
    relay(lanes, waiting, topology, who, senders, toward, &sends);
    Ok(())
}

/// An enabled event that takes no signal, and ends no version, happens to a box. What it sends is put into `sends`
/// first, which is empty before and after.
pub fn act(
    lanes: &mut [Lane<Tagged>],
    waiting: &mut Waiting,
    topology: &Topology,
    home: &mut MediaBox,
    who: u32,
    event: Event,
    sends: &mut Lane<(u8, Signal)>,
) -> Result<(), AllocError>
    requires laid { IsLaid topology.now (length lanes.old) }
    requires waiting { IsWaiting topology.now (signals_of lanes.old) waiting.old }
    requires other { is_take event ≡ false }
    requires enabled { is_enabled home.old event ≡ true }
    requires goes_on { is_version_end home.old event ≡ false }
    requires none { sends.old.items ≡ [] }
    ensures made { OnOk result (MakesEvent topology.now who home.old home.new event None
        (signals_of lanes.old) (signals_of lanes.new)) }
    ensures waiting { IsWaiting topology.now (signals_of lanes.new) waiting.new }
    ensures same { OnErr result ((home.new ≡ home.old) × (signals_of lanes.new ≡ signals_of lanes.old)) }
    ensures none { sends.new.items ≡ [] }
{
    let most = 2 * home.slots().len();
    make_room_for(lanes, topology, who, event, most)?;
    sends.reserve(most)?;
    if home.act(event, sends).is_err() {
        unreachable!()
    }
    send_lane(lanes, waiting, topology, who, sends);
    empty(sends);
    Ok(())
}

// Takes everything out of a queue, whose room stays.
fn empty(queue: &mut Lane<(u8, Signal)>)
    ensures { queue.new.items ≡ [] }
{
    for _done in 0..queue.len() {
        let _item = queue.pop();
    }
}

/// The slots by which a box sends where this one takes: it, and the one that it is linked with, if that has a number.
pub fn senders_of(topology: &Topology, home: &MediaBox, who: u32, local: u8, slot: u32) -> Senders
    requires inside { local < length home.now.slots }
    requires number { slice_get (numbers_of topology.now who) local ≡ Some slot }
    ensures own { result.own ≡ (local, slot) }
    ensures senders { AreSenders topology.now who result }
    ensures beside { IsBeside topology.now who home.now result }
{
    let own = (local, slot);
    let partner = match home.goal(local) {
        SlotGoal::End(_) => own,
        SlotGoal::Link(other) => match topology.number(who, other) {
            Some(number) => (other, number),
            None => own,
        },
    };
    Senders { own, partner }
}

/// Whether a slot may take a signal.
pub fn may_take(home: &MediaBox, local: u8, signal: &Signal) -> bool
    requires { local < length home.now.slots }
    ensures { result ≡ is_some (slot_take (slot_at home.now local) signal.now) }
{
    home.slots()[local as usize].lawful(signal)
}

/// Whether an event is a Hear of a slot whose descriptor has the last version.
pub fn is_version_end(actor: &MediaBox, event: Event) -> bool
    requires { IsTrue (is_enabled actor.now event) }
    ensures { result ≡ is_version_end actor.now event }
{
    match event {
        Event::Media(MediaChange::Hear(local, _)) => actor.own(local).version == LAST_VERSION,
        _ => false,
    }
}
