// The world that channels join.

ghost use Rattle.std.specs.Prelude.{◌≡◌, ℕ, ◌+◌, ◌<◌, ◌≤◌, ◌*◌, ◌^◌, ◌++◌, if◌then◌else◌, [], map, length, replicate, slice_index_or, ◌==◌, true, IfOk, IfSome, OnOk, Some};
ghost use Rattle.std.specs.List.{list_all, list_any};
ghost use Rattle.mc_box.specs.BoxEvents.{is_enabled};
ghost use Rattle.mc_model.specs.Paths.{partner_of};
ghost use Rattle.mc_model.specs.Settles.{can_shift, is_quiet, rests};
ghost use Rattle.mc_model.specs.Sound.{AreNew, IsNumbered, IsSound};
ghost use Rattle.mc_world.specs.Lanes.{lane_number};
ghost use Rattle.mc_world.specs.Tables.{channel_of, tunnels_by};
ghost use Rattle.mc_world.specs.Waiting.{take_waits, waiting_count, CountsTakes};
ghost use Rattle.mc_model.specs.declared.channel.TheConstants.{TUNNEL_LIMIT};
ghost use Rattle.mc_model.specs.Worlds.{AreChannels, first_world, slot_count, box_at, place, number, far, tunnel_of, front, lane_of, front_for, slot_of, goal_of, places_among, places_within, tunnels_from, tunnels_within};

mod engine;
mod joining;
mod parts;
mod piece;
mod rings;
mod step;

use crate::topology::{Topology, far, front_for, numbers_among};
use crate::waiting::Waiting;
pub use engine::{Engine, Outgoing, PutFault};
use mc_box::{Event, MediaBox};
use mc_lane::Lane;
use mc_model::{Channel, Tunnel};
use mc_signal::{Signal, Tagged};
use mc_slot::{Slot, SlotGoal};
use mc_sums::Sums;
pub use parts::Parts;
pub use piece::{PieceFault, Pieces, engine_of};
use std::alloc::{AllocError, Global};
use std::marker::Model;
pub use step::StepFault;

/// Boxes, the channels between them, and the signals under way. Every world is sound: each signal at the front
/// of a lane is one that its slot may take, and no step leads out of that.
///
/// Tunnels are counted over all channels in their order: tunnel `t` has the slots `2t`, on the initiator's
/// side, and `2t + 1`.
#[derive(Debug, Drop)]
pub struct World {
    boxes: Vec<MediaBox>,
    channels: Vec<Channel>,
    lanes: Vec<Lane<Tagged>>,
    topology: Topology,
    waiting: Waiting,
    // what a box sends in one turn, empty between turns, so that a turn takes no memory of its own
    scratch: Lane<(u8, Signal)>,
    // no slot stands on a ring; where this is false one may or not
    ringless: bool,
}

impl Model for World {
    ghost use Rattle.mc_model.specs.Worlds.{WorldState};

    ghost Value = { WorldState };

    ghost use Rattle.mc_world.specs.Tables.{world_state, HasTables};

    ghost view = { world_state };

    ghost invariant = { HasTables };
}

impl World {
    /// A world as new: nothing is under way. The boxes are new, and the channels join each of their slots once,
    /// with the numbers of the rules. There are at most 2^28 channels, each of one to eight tunnels, so that their
    /// slots have numbers.
    pub fn new(
        alloc: Global,
        boxes: Vec<MediaBox>,
        channels: Vec<Channel>,
    ) -> Result<World, AllocError>
        requires channels { AreChannels channels.items }
        requires fresh { AreNew boxes.items }
        requires numbered { IsNumbered (first_world boxes.items channels.items) }
        ensures { IfOk result (λ world. world ≡ first_world boxes.items channels.items) }
    {
        let lanes = empty_lanes(alloc, channels.len())?;
        let places = places_among(alloc, &channels)?;
        let tunnels = tunnels_among(alloc, &channels)?;
        let numbers = numbers_among(alloc, &boxes)?;
        let topology = Topology {
            places,
            tunnels,
            numbers,
        };
        let waiting = Waiting::new(alloc, &topology)?;
        Ok(World {
            boxes,
            channels,
            lanes,
            topology,
            waiting,
            scratch: Lane::new(alloc),
            ringless: true,
        })
    }

    /// What every world keeps, for a caller to rest on: it is sound, its channels are within the limits, and the
    /// numbers of slots fit.
    pub fn keeps(&self)
        ensures sound { IsSound self.now }
        ensures channels { AreChannels self.now.channels }
        ensures few { slot_count self.now ≤ 2 ^ 32 }
    {
        let _ = self.topology.places.len();
    }

    /// The boxes, in the order of their numbers.
    pub fn boxes(&self) -> &[MediaBox]
        ensures { result.now ≡ self.now.boxes }
    {
        &self.boxes
    }

    /// The number of the slots of all boxes.
    pub fn slot_count(&self) -> usize
        ensures { result ≡ slot_count self.now }
    {
        self.topology.places.len()
    }

    /// The number of the channels.
    pub fn channel_count(&self) -> usize
        ensures { result ≡ length self.now.channels }
    {
        self.channels.len()
    }

    /// The box of a slot, and the slot's local number there.
    pub fn place(&self, slot: u32) -> (u32, u8)
        requires { slot < slot_count self.now }
        ensures { result ≡ place self.now slot }
    {
        self.topology.places[slot as usize]
    }

    /// A slot, by its number.
    pub fn slot(&self, slot: u32) -> Slot
        requires { slot < slot_count self.now }
        ensures { result ≡ slot_of self.now slot }
    {
        let (who, local) = self.place(slot);
        self.boxes[who as usize].slots()[local as usize]
    }

    /// The goal of a slot, by its number.
    pub fn goal(&self, slot: u32) -> SlotGoal
        requires { slot < slot_count self.now }
        ensures { result ≡ goal_of self.now slot }
    {
        let (who, local) = self.place(slot);
        self.boxes[who as usize].goal(local)
    }

    /// The slot at the other end of a slot's tunnel.
    pub fn far(&self, slot: u32) -> u32
        requires { slot < slot_count self.now }
        ensures { result ≡ far slot }
    {
        far(slot)
    }

    /// The number of a box's slot.
    pub fn number(&self, who: u32, local: u8) -> Option<u32>
        ensures { result ≡ number self.now who local }
    {
        self.topology.number(who, local)
    }

    // The slot that a box's slot is linked with; none where its goal is an end's.
    fn partner_at(&self, who: u32, local: u8) -> Option<u32>
        requires here { who < length self.now.boxes }
        requires inside { local < length (box_at self.now who).slots }
        ensures partner { (slot : ℕ) → number self.now who local ≡ Some slot → result ≡ partner_of self.now slot }
        ensures there { IfSome result (λ partner. partner < slot_count self.now) }
    {
        match self.boxes[who as usize].goal(local) {
            SlotGoal::End(_) => None,
            SlotGoal::Link(partner) => self.number(who, partner),
        }
    }

    /// The channel of a slot, and the number of the slot's tunnel within it.
    pub fn channel(&self, slot: u32) -> (u32, u8)
        requires { slot < slot_count self.now }
        ensures channel { result ≡ channel_of (tunnel_of self.now slot) }
        ensures there { result.0 < length self.now.channels }
    {
        self.topology.tunnels[slot as usize / 2]
    }

    /// The signals under way in a channel, to its initiator or to the other end.
    pub fn lane(&self, channel: u32, to_initiator: bool) -> &Lane<Tagged>
        requires { channel < length self.now.channels }
        ensures { result.now.items ≡ slice_index_or self.now.lanes (lane_number channel to_initiator) [] }
    {
        &self.lanes[2 * channel as usize + usize::from(!to_initiator)]
    }

    /// The signal that a slot can take now: the front of its lane, where that is for its tunnel.
    pub fn front(&self, slot: u32) -> Option<Signal>
        requires { slot < slot_count self.now }
        ensures { result ≡ front self.now slot }
    {
        let toward = self.toward(slot);
        self.front_in(toward)
    }

    // The lane that leads to a slot, and the number of the slot's tunnel within its channel.
    fn toward(&self, slot: u32) -> (usize, u8)
        requires { slot < slot_count self.now }
        ensures lane { result.0 ≡ lane_of self.now slot }
        ensures tunnel { result.1 ≡ (tunnel_of self.now slot).within }
        ensures there { result.0 < length self.now.lanes }
    {
        self.topology.toward(slot)
    }

    // The front of a lane, where that is for this tunnel of it.
    fn front_in(&self, toward: (usize, u8)) -> Option<Signal>
        requires { toward.0 < length self.now.lanes }
        ensures { result ≡ front_for toward.1 (slice_index_or self.now.lanes toward.0 []) }
    {
        let (lane, tunnel) = toward;
        front_for(&self.lanes[lane], tunnel)
    }

    /// Whether a signal waits that a box's slot can take now.
    pub fn waits(&self, who: u32, local: u8) -> bool
        ensures { result ≡ take_waits self.now who local }
    {
        match self.number(who, local) {
            Some(slot) => self.waiting.flags[slot as usize],
            None => false,
        }
    }

    /// At how many slots of each box a signal waits that they can take now.
    pub fn takes(&self) -> &Sums
        ensures { CountsTakes self.now result.now }
    {
        &self.waiting.takes
    }

    /// The k-th slot of a box, by its local number, at which a signal waits that it can take now.
    pub fn kth_take(&self, who: u32, k: u64) -> u8
        requires { k < waiting_count self.now who (length (box_at self.now who).slots) }
        ensures waits { take_waits self.now who result ≡ true }
        ensures before { waiting_count self.now who result ≡ k }
        ensures there { result < length (box_at self.now who).slots }
    {
        self.waiting.kth(&self.topology, who, k)
    }

    /// Whether nothing is under way.
    pub fn quiet(&self) -> bool
        ensures { result ≡ is_quiet self.now }
    {
        are_empty(&self.lanes)
    }

    /// Whether nothing is under way, and no program can go on.
    pub fn rests(&self) -> bool
        ensures { result ≡ rests self.now }
    {
        self.quiet() && !self.can_shift()
    }

    // Whether some box's program has an enabled transition.
    fn can_shift(&self) -> bool
        ensures { result ≡ can_shift self.now }
    {
        can_shift(&self.boxes)
    }
}

// Whether the program of some of these boxes has an enabled transition.
fn can_shift(boxes: &[MediaBox]) -> bool
    ensures { result ≡ list_any (λ one. is_enabled one Event.Shift) boxes.now }
{
    boxes.iter().any(|one| one.enabled(&Event::Shift))
}

// Whether each of these lanes is empty.
fn are_empty(lanes: &[Lane<Tagged>]) -> bool
    ensures { result ≡ list_all (λ lane. length lane.items == 0) lanes.now }
{
    lanes.iter().all(|lane| lane.is_empty())
}

// Two lanes for each channel, with nothing in them.
fn empty_lanes(alloc: Global, channels: usize) -> Result<Vec<Lane<Tagged>>, AllocError>
    ensures { IfOk result (λ lanes. map (λ lane. lane.items) lanes.items ≡ replicate (2 * channels) []) }
{
    let mut lanes = Vec::new(alloc);
    for _done in 0..channels {
        lanes.push(Lane::new(alloc))?;
        lanes.push(Lane::new(alloc))?;
    }
    Ok(lanes)
}

// The places of the slots of these channels, by the slots' numbers.
fn places_among(alloc: Global, channels: &[Channel]) -> Result<Vec<(u32, u8)>, AllocError>
    ensures { IfOk result (λ places. places.items ≡ places_among channels.now) }
{
    let mut places = Vec::new(alloc);
    for channel in channels {
        add_places(channel, &mut places)?;
    }
    Ok(places)
}

// Adds the places of the slots of a channel.
fn add_places(channel: &Channel, places: &mut Vec<(u32, u8)>) -> Result<(), AllocError>
    ensures { OnOk result (places.new.items ≡ places.old.items ++ places_within channel.now) }
{
    for tunnel in &channel.tunnels {
        places.push((channel.from, tunnel.from))?;
        places.push((channel.to, tunnel.to))?;
    }
    Ok(())
}

// The channel of each tunnel of these channels, and its number within the channel.
fn tunnels_among(alloc: Global, channels: &[Channel]) -> Result<Vec<(u32, u8)>, AllocError>
    requires { AreChannels channels.now }
    ensures { IfOk result (λ places. places.items ≡ map channel_of (tunnels_from 0 channels.now)) }
{
    let mut places = Vec::new(alloc);
    for number in 0..channels.len() {
        let channel = &channels[number];
        add_tunnels(number as u32, &channel.tunnels, &mut places)?;
    }
    Ok(places)
}

// Adds the tunnels of a channel.
fn add_tunnels(
    channel: u32,
    tunnels: &[Tunnel],
    places: &mut Vec<(u32, u8)>,
) -> Result<(), AllocError>
    requires { length tunnels.now ≤ TUNNEL_LIMIT }
    ensures { OnOk result (places.new.items ≡ places.old.items ++ tunnels_by channel tunnels.now) }
{
    for within in 0..tunnels.len() {
        places.push((channel, within as u8))?;
    }
    Ok(())
}
