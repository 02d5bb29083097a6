// An engine of some boxes of a network, made anew and taken apart.

ghost use Rattle.std.specs.Prelude.{◌≡◌, ◌↔◌, ◌^◌, ◌<◌, ◌≤◌, ℕ, [], length, map, replicate, IfOk, IsTrue, OnOk, Some};
ghost use Rattle.std.specs.List.{slice_get};
ghost use Rattle.mc_model.specs.Worlds.{AreChannels, first_world};
ghost use Rattle.mc_world.specs.Pieces.{AreFilled, ArePlaced, EachFound, EachPlaced, FitsBoxes, HasPlaces, HaveSlots, IsPiece, PutsAt};
ghost use Rattle.mc_world.specs.Lanes.{HasNumbers, numbers_of, signals_of};

use super::engine::Engine;
use super::{empty_lanes, places_among, tunnels_among};
use crate::topology::Topology;
use crate::waiting::Waiting;
use mc_box::MediaBox;
use mc_box::limit::SLOT_LIMIT;
use mc_lane::Lane;
use mc_model::Channel;
use mc_signal::Tagged;
use std::alloc::{AllocError, Global};

/// Why boxes and channels make no engine.
#[derive(Debug, Drop)]
pub enum PieceFault {
    NoMemory(AllocError),
    /// A box has no home, or more or fewer slots there than the channels have places; or at some home two slots have
    /// one place, a local number below another has none, or there are more slots than a box may have; or a place is
    /// past the last home.
    NoPiece,
}

impl From<AllocError> for PieceFault {
    ghost use Rattle.mc_world.specs.declared.network.piece.PieceFault.TheVariants.{NoMemory};

    ghost from_gives = { λ e fault. fault ≡ NoMemory e };

    fn from(e: AllocError) -> Self {
        PieceFault::NoMemory(e)
    }
}

/// What an engine was made of, and what is under way in it.
#[derive(Debug, Drop)]
pub struct Pieces {
    pub boxes: Vec<MediaBox>,
    pub channels: Vec<Channel>,
    pub lanes: Vec<Lane<Tagged>>,
}

/// An engine of these boxes and of all channels that touch them, with nothing under way. Boxes have the first numbers of
/// so many homes; the others hold the places of boxes that are elsewhere.
pub fn engine_of(
    alloc: Global,
    boxes: Vec<MediaBox>,
    channels: Vec<Channel>,
    homes: usize,
) -> Result<Engine, PieceFault>
    requires channels { AreChannels channels.items }
    requires few { homes ≤ 2 ^ 32 }
    ensures first { IfOk result (λ engine. engine ≡ first_world boxes.items channels.items) }
    ensures piece { IfOk result (λ engine. IsPiece boxes.items channels.items homes) }
    ensures no_piece { result ≡ Err PieceFault.NoPiece → IsPiece boxes.items channels.items homes → ⊥ }
{
    let lanes = empty_lanes(alloc, channels.len())?;
    let places = places_among(alloc, &channels)?;
    let tunnels = tunnels_among(alloc, &channels)?;
    let numbers = numbers_by_place(alloc, homes, &places)?;
    let topology = Topology {
        places,
        tunnels,
        numbers,
    };
    if !fits_boxes(&topology, &boxes) {
        return Err(PieceFault::NoPiece);
    }
    let waiting = Waiting::new(alloc, &topology)?;
    Ok(Engine {
        boxes,
        channels,
        lanes,
        topology,
        waiting,
        scratch: Lane::new(alloc),
    })
}

impl Engine {
    /// The boxes, the channels, and what is under way. It takes no memory.
    pub fn into_pieces(self) -> Pieces
        ensures boxes { result.boxes.items ≡ self.boxes }
        ensures channels { result.channels.items ≡ self.channels }
        ensures lanes { signals_of result.lanes.items ≡ self.lanes }
    {
        Pieces {
            boxes: self.boxes,
            channels: self.channels,
            lanes: self.lanes,
        }
    }
}

// For each home the numbers of its slots, each at the slot's local number. A place past the homes is left out.
fn numbers_by_place(
    alloc: Global,
    homes: usize,
    places: &[(u32, u8)],
) -> Result<Vec<Vec<u32>>, AllocError>
    requires few { length places.now ≤ 2 ^ 32 }
    ensures homes { IfOk result (λ numbers. length numbers.items ≡ homes) }
    ensures filled { IfOk result (λ numbers. (count : ℕ → ℕ) → HasPlaces places.now homes count
        → AreFilled places.now count (length places.now) (map (λ numbers. numbers.items) numbers.items)) }
{
    let mut numbers = no_numbers(alloc, homes)?;
    for slot in 0..places.len() {
        let (who, local) = places[slot];
        if (who as usize) < numbers.len() {
            put_number(&mut numbers[who as usize], local, slot as u32)?;
        }
    }
    Ok(numbers)
}

// So many homes without slots.
fn no_numbers(alloc: Global, homes: usize) -> Result<Vec<Vec<u32>>, AllocError>
    ensures { IfOk result (λ numbers. map (λ numbers. numbers.items) numbers.items ≡ replicate homes []) }
{
    let mut numbers = Vec::new(alloc);
    for _done in 0..homes {
        numbers.push(Vec::new(alloc))?;
    }
    Ok(numbers)
}

// A slot's number stands at its local number.
fn put_number(home: &mut Vec<u32>, local: u8, slot: u32) -> Result<(), AllocError>
    ensures { OnOk result (PutsAt home.old.items home.new.items local slot) }
{
    let place = local as usize;
    lengthen(home, place + 1)?;
    home[place] = slot;
    Ok(())
}

// Makes a home's list of numbers at least so long.
fn lengthen(home: &mut Vec<u32>, least: usize) -> Result<(), AllocError>
    ensures same { (k s : ℕ) → slice_get home.old.items k ≡ Some s → slice_get home.new.items k ≡ Some s }
    ensures least { OnOk result (least ≤ length home.new.items) }
    ensures most { (m : ℕ) → length home.old.items ≤ m → least ≤ m → length home.new.items ≤ m }
{
    for _done in home.len()..least {
        home.push(0)?;
    }
    Ok(())
}

// Whether a table that was filled by place is right, and each box has as many numbers as slots.
fn fits_boxes(topology: &Topology, boxes: &[MediaBox]) -> bool
    requires few { length topology.now.places.items ≤ 2 ^ 32 }
    ensures { IsTrue result ↔ FitsBoxes topology.now boxes.now }
{
    are_placed(topology) && have_slots(topology, boxes)
}

// Whether each slot is found by its place, and each number is that of the slot with this place.
fn are_placed(topology: &Topology) -> bool
    requires few { length topology.now.places.items ≤ 2 ^ 32 }
    ensures { IsTrue result ↔ ArePlaced topology.now }
{
    each_found(topology) && each_placed(topology)
}

// Whether each slot is found by its place.
fn each_found(topology: &Topology) -> bool
    requires few { length topology.now.places.items ≤ 2 ^ 32 }
    ensures { IsTrue result ↔ EachFound topology.now (length topology.now.places.items) }
{
    for slot in 0..topology.places.len() {
        let (who, local) = topology.places[slot];
        if !is_number(topology, who, local, slot) {
            return false;
        }
    }
    true
}

// Whether a box's slot has this number.
fn is_number(topology: &Topology, who: u32, local: u8, slot: usize) -> bool
    ensures { IsTrue result ↔ (slice_get (numbers_of topology.now who) local ≡ Some slot) }
{
    match topology.number(who, local) {
        Some(number) => number as usize == slot,
        None => false,
    }
}

// Whether each number is that of the slot with its place, and no home has more than a box may.
fn each_placed(topology: &Topology) -> bool
    ensures { IsTrue result ↔ ((who : ℕ) → who < length topology.now.numbers.items → EachPlaced topology.now who) }
{
    for who in 0..topology.numbers.len() {
        if !home_placed(topology, who) {
            return false;
        }
    }
    true
}

// The same of one home.
fn home_placed(topology: &Topology, who: usize) -> bool
    requires here { who < length topology.now.numbers.items }
    ensures { IsTrue result ↔ EachPlaced topology.now who }
{
    let numbers = &topology.numbers[who];
    if numbers.len() > SLOT_LIMIT {
        return false;
    }
    for local in 0..numbers.len() {
        if !is_placed(topology, numbers[local], who, local) {
            return false;
        }
    }
    true
}

// Whether a slot has this place.
fn is_placed(topology: &Topology, slot: u32, who: usize, local: usize) -> bool
    ensures { IsTrue result ↔ (slice_get topology.now.places.items slot ≡ Some (who, local)) }
{
    match topology.places.get(slot as usize) {
        Some(place) => place.0 as usize == who && place.1 as usize == local,
        None => false,
    }
}

// Whether each box has a home, and as many numbers there as slots.
fn have_slots(topology: &Topology, boxes: &[MediaBox]) -> bool
    ensures { IsTrue result ↔ HaveSlots topology.now boxes.now }
{
    if boxes.len() > topology.numbers.len() {
        return false;
    }
    for who in 0..boxes.len() {
        if topology.numbers[who].len() != boxes[who].slots().len() {
            return false;
        }
    }
    true
}
