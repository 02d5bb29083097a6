// A box with its ports.

ghost use Rattle.std.specs.Prelude.{◌≡◌, ◌≤◌, ◌++◌, [], ◌∷◌, length, IfOk, OnErr, OnOk};
ghost use Rattle.mc_worker.specs.Boxes.{AreEmpty, items_of};
ghost use Rattle.mc_worker.specs.Places.{AreAtEnds};
ghost use Rattle.mc_worker.specs.Ready.{IsAllowed, IsNewWorker, IsReady};
ghost use Rattle.mc_worker.specs.declared.limit.TheConstants.{END_LIMIT};

use crate::inboxes::Inboxes;
use crate::logged::Logged;
use crate::outboxes::Outboxes;
use crate::places::Places;
use mc_box::{Event, MediaBox};
use mc_lane::Lane;
use mc_port::{InPort, OutPort};
use mc_signal::Signal;
use std::alloc::{AllocError, Global};

/// A box with its ports: for each of its channel ends an end of each of the channel's two rings, what has come before,
/// and what the ring had no place for.
#[derive(Drop)]
pub struct Worker {
    /// The box.
    pub part: MediaBox,
    /// By which it takes, one for each channel end.
    pub ins: Vec<InPort>,
    /// By which it gives, one for each channel end.
    pub outs: Vec<OutPort>,
    /// The channel end and the tunnel of each slot.
    pub place: Places,
    /// What has come for each channel end before its ring. It is taken first.
    pub inboxes: Inboxes,
    /// What each channel end's ring had no place for. It goes its way when the round is over.
    pub outboxes: Outboxes,
    /// The commands that are still to be made, in order.
    pub stimuli: Lane<Event>,
    /// The turns that were made, with their stamps.
    pub log: Lane<Logged>,
    /// What an event sends, within its turn. It is empty between turns.
    pub scratch: Lane<(u8, Signal)>,
    /// The stamp of the last turn, or the one to begin from.
    pub stamp: u32,
    /// How many shifts the box's program has made.
    pub shifts: u32,
}

impl Worker {
    /// A box with its ports and the places of its slots. Nothing waits, and no command is left. It fails only for want
    /// of memory.
    pub fn new(
        alloc: Global,
        part: MediaBox,
        place: Places,
        ins: Vec<InPort>,
        outs: Vec<OutPort>,
    ) -> Result<Worker, AllocError>
        requires places { length place ≡ length part.slots }
        requires ends { AreAtEnds (length ins.items) place }
        requires outs { length outs.items ≡ length ins.items }
        requires few { length ins.items ≤ END_LIMIT }
        ensures ready { IfOk result IsReady }
        ensures new { IfOk result (λ made. IsNewWorker part place ins.items outs.items made) }
    {
        let inboxes = Inboxes::new(empty_lanes(alloc, ins.len())?);
        let outboxes = Outboxes::new(empty_lanes(alloc, outs.len())?);
        Ok(Worker {
            part,
            ins,
            outs,
            place,
            inboxes,
            outboxes,
            stimuli: Lane::new(alloc),
            log: Lane::new(alloc),
            scratch: Lane::new(alloc),
            stamp: 0,
            shifts: 0,
        })
    }

    /// Adds a command, which the shape of the box enables, after those that are left. It fails only for want of
    /// memory, and adds nothing then.
    pub fn add(&mut self, command: Event) -> Result<(), AllocError>
        requires ready { IsReady self.old }
        requires allowed { IsAllowed self.old.part command }
        ensures ready { IsReady self.new }
        ensures added { OnOk result (self.new.stimuli.items ≡ self.old.stimuli.items ++ command ∷ []) }
        ensures kept { OnErr result (self.new.stimuli.items ≡ self.old.stimuli.items) }
        ensures others { self.new ≡ record self.old { stimuli = self.new.stimuli } }
    {
        self.stimuli.reserve(1)?;
        self.stimuli.push(command);
        Ok(())
    }
}

// So many lanes with nothing in them.
fn empty_lanes<T: Copy>(alloc: Global, count: usize) -> Result<Vec<Lane<T>>, AllocError>
    ensures count { IfOk result (λ lanes. length lanes.items ≡ count) }
    ensures empty { IfOk result (λ lanes. AreEmpty (items_of lanes.items)) }
{
    let mut lanes = Vec::new(alloc);
    for _ in 0..count {
        lanes.push(Lane::new(alloc))?;
    }
    Ok(lanes)
}
