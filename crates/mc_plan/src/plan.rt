// The plan of a network.

ghost use Rattle.std.specs.Prelude.{◌≡◌, ◌-◌, ◌<◌, ◌≤◌, length, IfOk, OnOk, OnErr};
ghost use Rattle.mc_plan.specs.LaidOut.{IsLaidOut};
ghost use Rattle.mc_plan.specs.Plans.{empty_plan, next_tunnel, slots_of, with_channel, with_plan, with_sends, with_tunnel, world_of};
ghost use Rattle.mc_plan.specs.Refusals.{add_fault, join_fault, may_join, may_widen, overfills, unless_fault, widen_fault, widen_fault_at, Gives};
ghost use Rattle.mc_box.specs.declared.limit.TheConstants.{SLOT_LIMIT};
ghost use Rattle.mc_model.specs.declared.channel.TheConstants.{TUNNEL_LIMIT};

use crate::boxes::setups_from;
use crate::fault::PlanFault;
use crate::layout::Layout;
use crate::limit::{PLAN_BOX_LIMIT, PLAN_CHANNEL_LIMIT};
use crate::tunnels::{add_tunnel, count_of, count_slots, last_channel, tunnels_between};
use mc_box::Kind;
use mc_box::limit::SLOT_LIMIT;
use mc_signal::{CodecList, Medium};
use mc_world::{Channel, TUNNEL_LIMIT, Tunnel, World};
use std::alloc::{AllocError, Global};
use std::marker::Model;

/// A box that is planned: its kind, the codecs that it receives and those that it sends, and the version that its
/// descriptors begin at.
#[derive(Clone, Copy, PartialEq, Eq, Debug)]
pub struct BoxPlan {
    pub kind: Kind,
    pub codecs: CodecList,
    pub sends: CodecList,
    pub first_version: u32,
}

/// The plan of a network: at most 262,144 boxes, numbered from 0 on in the order in which they were added, and at most
/// as many channels between them. A box has at most 64 slots. They are numbered from 0 on too, in the order of the
/// channels that lead to it and of the tunnels of each.
#[derive(Debug, Drop)]
pub struct Plan {
    boxes: Vec<BoxPlan>,
    channels: Vec<Channel>,
    // How many slots each box has at these channels.
    slot_counts: Vec<u8>,
    alloc: Global,
}

impl Model for Plan {
    ghost use Rattle.mc_plan.specs.Plans.{PlanState};

    ghost Value = { PlanState };

    ghost use Rattle.mc_plan.specs.LaidOut.{IsCountedPlan};

    ghost view = { λ plan. record { boxes = plan.boxes.items; channels = plan.channels.items } };

    ghost invariant = { λ plan. IsCountedPlan (record { boxes = plan.boxes.items; channels = plan.channels.items })
        plan.slot_counts.items };
}

impl Plan {
    /// A plan of nothing.
    pub fn new(alloc: Global) -> Plan
        ensures { result ≡ empty_plan }
    {
        Plan {
            boxes: Vec::new(alloc),
            channels: Vec::new(alloc),
            slot_counts: Vec::new(alloc),
            alloc,
        }
    }

    /// What every plan keeps, for a caller to rest on: it is within the limits, and the slots of each box are numbered
    /// in the order of tunnels.
    pub fn keeps(&self)
        ensures { IsLaidOut self.now }
    {
        let _ = self.boxes.len();
    }

    /// The boxes, in the order of their numbers.
    pub fn boxes(&self) -> &[BoxPlan]
        ensures { result.now ≡ self.now.boxes }
    {
        &self.boxes
    }

    /// The channels, in the order of their numbers.
    pub fn channels(&self) -> &[Channel]
        ensures { result.now ≡ self.now.channels }
    {
        &self.channels
    }

    /// How many slots a box has so far, at most 64: 0 where there is no such box.
    pub fn slots(&self, who: u32) -> usize
        ensures slots { result ≡ slots_of self.now.channels who }
        ensures few { result ≤ SLOT_LIMIT }
    {
        usize::from(count_of(&self.slot_counts, who))
    }

    /// Adds a box, and answers its number. It is refused where the plan has 262,144 boxes.
    pub fn add(&mut self, planned: BoxPlan) -> Result<u32, PlanFault>
        ensures answer { Gives result (add_fault self.old) (length self.old.boxes) }
        ensures added { OnOk result (self.new ≡ with_plan self.old planned) }
        ensures unchanged { OnErr result (self.new ≡ self.old) }
    {
        let number = self.boxes.len();
        if PLAN_BOX_LIMIT <= number {
            return Err(PlanFault::BoxesFull);
        }
        self.slot_counts.reserve(1)?;
        self.boxes.push(planned)?;
        self.slot_counts.push_reserved(0);
        Ok(number as u32)
    }

    /// Replaces the codecs that a box sends. All else of the plan stays.
    pub fn set_sends(&mut self, who: u32, sends: CodecList)
        requires { who < length self.old.boxes }
        ensures { self.new ≡ with_sends self.old who sends }
    {
        self.boxes[who as usize].sends = sends;
    }

    /// Joins two boxes by a channel with a tunnel for each of these media, and answers the channel's number. The box
    /// `from` is the initiator. Each tunnel takes the next slot of both boxes. It is refused by the first rule that
    /// the channel breaks, in the order of `PlanFault`.
    pub fn join(&mut self, from: u32, to: u32, media: &[Medium]) -> Result<u32, PlanFault>
        ensures answer { Gives result (join_fault self.old from to media.now) (length self.old.channels) }
        ensures joined { OnOk result (self.new ≡ with_channel self.old from to media.now) }
        ensures unchanged { OnErr result (self.new ≡ self.old) }
    {
        self.may_join(from, to, media)?;
        let near = self.slots(from) as u8;
        let far = self.slots(to) as u8;
        let number = self.channels.len() as u32;
        let tunnels = tunnels_between(self.alloc, near, far, media)?;
        self.channels.push(Channel { from, to, tunnels })?;
        count_slots(&mut self.slot_counts, from, to, media.len());
        Ok(number)
    }

    /// Gives the channel that was joined last one tunnel more, of this medium, and answers the channel's number. The
    /// tunnel takes the next slot of both boxes. It is refused by the first rule that this breaks, in the order of
    /// `PlanFault`.
    pub fn widen(&mut self, medium: Medium) -> Result<u32, PlanFault>
        ensures answer { Gives result (widen_fault self.old) (length self.old.channels - 1) }
        ensures widened { OnOk result (self.new ≡ with_tunnel self.old medium) }
        ensures unchanged { OnErr result (self.new ≡ self.old) }
    {
        self.may_widen()?;
        let number = self.channels.len() - 1;
        let channel = last_channel(&self.channels);
        let (from, to) = (channel.from, channel.to);
        let tunnel = self.next_tunnel(channel, medium);
        add_tunnel(&mut self.channels, number, tunnel)?;
        count_slots(&mut self.slot_counts, from, to, 1);
        Ok(number as u32)
    }

    /// What the first world of the plan is, for programs to be laid into it.
    pub fn layout(self) -> Result<Layout, AllocError>
        ensures { IfOk result (λ layout. layout ≡ world_of self) }
    {
        let setups = setups_from(self.alloc, &self.boxes, &self.channels)?;
        Ok(Layout {
            setups,
            channels: self.channels,
            alloc: self.alloc,
        })
    }

    /// The first world of the plan: its boxes are new, and nothing is under way.
    pub fn world(self) -> Result<World, AllocError>
        ensures { IfOk result (λ world. world ≡ world_of self) }
    {
        self.layout()?.world()
    }

    /// Whether two boxes may be joined by a channel with a tunnel for each of these media: else the first rule that
    /// the channel would break, in the order of `PlanFault`.
    pub fn may_join(&self, from: u32, to: u32, media: &[Medium]) -> Result<(), PlanFault>
        ensures { result ≡ may_join self.now from to media.now }
    {
        let boxes = self.boxes.len();
        if boxes <= from as usize || boxes <= to as usize {
            return Err(PlanFault::NoBox);
        }
        if from == to {
            return Err(PlanFault::SameBox);
        }
        if media.is_empty() {
            return Err(PlanFault::NoTunnels);
        }
        if TUNNEL_LIMIT < media.len() {
            return Err(PlanFault::TooManyTunnels);
        }
        if PLAN_CHANNEL_LIMIT <= self.channels.len() {
            return Err(PlanFault::ChannelsFull);
        }
        if self.overfills(from, media.len()) || self.overfills(to, media.len()) {
            return Err(PlanFault::SlotsFull);
        }
        Ok(())
    }

    /// Whether the channel that was joined last may get one tunnel more: else the first rule that this would break, in
    /// the order of `PlanFault`.
    pub fn may_widen(&self) -> Result<(), PlanFault>
        ensures { result ≡ may_widen self.now }
    {
        if self.channels.is_empty() {
            return Err(PlanFault::NoChannel);
        }
        self.may_widen_at(last_channel(&self.channels))
    }

    // Whether a channel may get one tunnel more.
    fn may_widen_at(&self, channel: &Channel) -> Result<(), PlanFault>
        ensures { result ≡ unless_fault (widen_fault_at self.now channel.now) }
    {
        if TUNNEL_LIMIT <= channel.tunnels.len() {
            return Err(PlanFault::TooManyTunnels);
        }
        if self.overfills(channel.from, 1) || self.overfills(channel.to, 1) {
            return Err(PlanFault::SlotsFull);
        }
        Ok(())
    }

    // A tunnel of a channel that takes the next slot of both boxes.
    fn next_tunnel(&self, channel: &Channel, medium: Medium) -> Tunnel
        ensures { result ≡ next_tunnel self.now.channels channel.now medium }
    {
        Tunnel {
            medium,
            from: self.slots(channel.from) as u8,
            to: self.slots(channel.to) as u8,
        }
    }

    // Whether a box would have too many slots.
    fn overfills(&self, who: u32, more: usize) -> bool
        requires { more ≤ TUNNEL_LIMIT }
        ensures { result ≡ overfills self.now who more }
    {
        SLOT_LIMIT < self.slots(who) + more
    }
}
