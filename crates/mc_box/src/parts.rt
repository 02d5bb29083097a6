// The parts of a box: its links are as they should be, while its goals may still have to come to rest.

ghost use Rattle.std.specs.Prelude.{◌≡◌, ◌^◌, ◌<◌, ◌≤◌, if◌then◌else◌, length, map, IfOk, OnErr, OnOk};
ghost use Rattle.mc_signal.specs.Empty.{no_codecs};
ghost use Rattle.mc_signal.specs.Own.{address_of};
ghost use Rattle.mc_box.specs.BoxSound.{box_state, IsWired};
ghost use Rattle.mc_box.specs.Boxes.{first_slot, first_goal, first_media, media_address, own, sender, set_up, with_new_slot};

use crate::event::Kind;
use crate::setup::{MediaAddress, Setup, SlotMedia, SlotSetup};
use mc_rule::Program;
use mc_signal::{CodecList, Descriptor, Sender};
use mc_slot::{Goal, Slot, SlotGoal};
use std::alloc::{AllocError, Global};

/// The parts of a box: what it is, the codecs that it receives and those that it sends, the version at which its
/// descriptors begin, for each slot the slot, its goal, and what its descriptors are made of; its program, the number of
/// the state that that is at, and the told word that it hasn't used.
#[derive(Debug, Drop)]
pub struct BoxParts {
    pub kind: Kind,
    pub number: u32,
    pub codecs: CodecList,
    pub sends: CodecList,
    pub first_version: u32,
    pub slots: Vec<Slot>,
    pub goals: Vec<SlotGoal>,
    pub media: Vec<SlotMedia>,
    pub program: Option<Program>,
    pub at: Option<u32>,
    pub told: Option<u8>,
}

impl BoxParts {
    /// The parts of a new box.
    pub(crate) fn new(alloc: Global, setup: Setup) -> Result<BoxParts, AllocError>
        ensures { IfOk result (λ made. box_state made ≡ set_up setup) }
    {
        let Setup {
            kind,
            number,
            codecs,
            sends,
            first_version,
            slots,
            program,
        } = setup;
        Ok(BoxParts {
            kind,
            number,
            codecs,
            sends,
            first_version,
            slots: first_slots(alloc, &slots)?,
            goals: first_goals(alloc, &slots)?,
            media: first_media_of(alloc, first_version, &slots)?,
            program,
            at: None,
            told: None,
        })
    }

    /// One slot more, in the last place: it is closed, its goal is close, and it hears and talks, at the box's first
    /// version.
    pub(crate) fn add_slot(&mut self, setup: SlotSetup) -> Result<(), AllocError>
        ensures added { OnOk result (box_state self.new ≡ with_new_slot (box_state self.old) setup) }
        ensures unchanged { OnErr result (box_state self.new ≡ box_state self.old) }
    {
        self.slots.reserve(1)?;
        self.goals.reserve(1)?;
        self.media.push(SlotMedia {
            origin: setup.origin,
            version: self.first_version,
            hears: true,
            talks: true,
            address: setup.address,
        })?;
        self.slots
            .push_reserved(Slot::new(setup.medium, setup.initiator));
        self.goals.push_reserved(SlotGoal::End(Goal::Close));
        Ok(())
    }

    /// The newest descriptor of a slot.
    pub(crate) fn own(&self, local: u8) -> Descriptor
        requires wired { IsWired (box_state self.now) }
        requires here { local < length self.now.slots.items }
        ensures { result ≡ own (box_state self.now) local }
    {
        let media = &self.media[local as usize];
        let address = media_address(media.address, self.number, local);
        match self.kind {
            Kind::Device => Descriptor {
                origin: media.origin,
                version: media.version,
                addr: address.addr,
                port: address.port,
                codecs: only_if(media.hears, self.codecs),
            },
            Kind::Feature => Descriptor {
                origin: media.origin,
                version: 1,
                addr: 0,
                port: 0,
                codecs: CodecList::none(),
            },
        }
    }

    /// What a slot can send.
    pub(crate) fn sender(&self, local: u8) -> Sender
        requires wired { IsWired (box_state self.now) }
        requires here { local < length self.now.slots.items }
        ensures { result ≡ sender (box_state self.now) local }
    {
        let media = &self.media[local as usize];
        let address = media_address(media.address, self.number, local);
        match self.kind {
            Kind::Device => Sender {
                addr: address.addr,
                port: address.port,
                codecs: only_if(media.talks, self.sends),
            },
            Kind::Feature => Sender {
                addr: 0,
                port: 0,
                codecs: CodecList::none(),
            },
        }
    }
}

// The media address of a device's slot: the one that it was given, or else one of its numbers.
fn media_address(given: Option<MediaAddress>, number: u32, local: u8) -> MediaAddress
    requires { address_of number < 2 ^ 32 }
    ensures { result ≡ media_address given number local }
{
    match given {
        Some(address) => address,
        None => MediaAddress {
            addr: number + 1,
            port: 5000 + local as u16,
        },
    }
}

// The codecs, where a media flag is on.
fn only_if(on: bool, codecs: CodecList) -> CodecList
    ensures { result ≡ (if on then codecs else no_codecs) }
{
    if on { codecs } else { CodecList::none() }
}

fn first_slots(alloc: Global, setups: &[SlotSetup]) -> Result<Vec<Slot>, AllocError>
    ensures { IfOk result (λ slots. slots.items ≡ map first_slot setups.now) }
{
    setups
        .iter()
        .map(|setup| Slot::new(setup.medium, setup.initiator))
        .collect(alloc)
}

fn first_goals(alloc: Global, setups: &[SlotSetup]) -> Result<Vec<SlotGoal>, AllocError>
    ensures { IfOk result (λ goals. goals.items ≡ map first_goal setups.now) }
{
    setups
        .iter()
        .map(|_| SlotGoal::End(Goal::Close))
        .collect(alloc)
}

fn first_media_of(
    alloc: Global,
    version: u32,
    setups: &[SlotSetup],
) -> Result<Vec<SlotMedia>, AllocError>
    ensures { IfOk result (λ media. media.items ≡ map (first_media version) setups.now) }
{
    setups
        .iter()
        .map(|setup| SlotMedia {
            origin: setup.origin,
            version,
            hears: true,
            talks: true,
            address: setup.address,
        })
        .collect(alloc)
}
