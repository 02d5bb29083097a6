// A part of a network, with one clock for all its boxes.

ghost use Rattle.std.specs.Prelude.{◌≡◌, ◌<◌, ◌^◌, ◌++◌, ◌∷◌, ℕ, [], length, max, slice_index_or, IfErr, IsTrue, OnErr, OnOk};
ghost use Rattle.mc_box.specs.BoxEvents.{is_command, turn_of};
ghost use Rattle.mc_part.specs.Parts.{IsRefused, IsWithin, TurnsOnce, shifts_of};
ghost use Rattle.mc_part.specs.Running.{AreCalmFrom, NoneLeft};

use crate::port::Port;
use mc_box::{Event, Turn};
use mc_io::Gate;
use mc_lane::Lane;
use mc_merge::Made;
use mc_world::{Engine, StepFault};
use std::alloc::AllocError;

/// Boxes that take turns on one thread: with what is under way between them, the stamp of their last turn, and the
/// greatest stamp of what came from other parts. For a settle it has the commands of its boxes, by their numbers here,
/// of which the first so many are made, and how many Shifts each box has made in it.
#[derive(Drop)]
pub struct Part {
    pub engine: Engine,
    pub stamp: u32,
    pub heard: u32,
    pub log: Lane<Made>,
    pub ports: Vec<Port>,
    pub commands: Vec<Turn>,
    pub used: usize,
    pub shifts: Vec<u32>,
}

impl Part {
    /// A settle begins: there are no commands yet, and no box has made a Shift in it. Where `unshifted` is set none has
    /// made one in the settle before either, and the boxes aren't looked over.
    pub fn begin_settle(&mut self, unshifted: bool)
        requires { IsTrue unshifted → (who : ℕ) → shifts_of self.old who ≡ 0 }
        ensures left { NoneLeft self.new }
        ensures shifts { (who : ℕ) → shifts_of self.new who ≡ 0 }
        ensures within { IsWithin self.old → IsWithin self.new }
        ensures rest { self.new ≡ record self.old { commands = self.new.commands; used = 0; shifts = self.new.shifts } }
    {
        self.commands.clear();
        self.used = 0;
        set_back(unshifted, &mut self.shifts);
    }

    /// One command more, for one of the boxes, by its number here. It fails only for want of memory.
    pub fn add_command(&mut self, turn: Turn) -> Result<(), AllocError>
        requires { IsTrue (is_command turn.event) }
        ensures added { OnOk result (self.new.commands.items ≡ self.old.commands.items ++ turn ∷ []) }
        ensures same { OnErr result (self.new.commands.items ≡ self.old.commands.items) }
        ensures within { IsWithin self.old → IsWithin self.new }
        ensures calm { AreCalmFrom 0 self.old → AreCalmFrom 0 self.new }
        ensures rest { self.new ≡ record self.old { commands = self.new.commands } }
    {
        self.commands.push(turn)?;
        Ok(())
    }

    /// One event of one box, with the next stamp, where it is enabled. Otherwise nothing changes but the room of the
    /// log. The gate is told first, before memory is asked for.
    pub fn turn<G: Gate>(&mut self, gate: &G, who: u32, event: Event) -> Result<(), StepFault>
        requires stamp_fits { self.old.stamp < 2 ^ 31 }
        requires heard_fits { self.old.heard < 2 ^ 31 }
        ensures made { OnOk result (TurnsOnce self.old self.new who event) }
        ensures refused { IfErr result (IsRefused self.old.engine (turn_of who event)) }
        ensures same { OnErr result (self.new ≡ record self.old { log = self.new.log }) }
        ensures log { OnErr result (self.new.log.items ≡ self.old.log.items) }
    {
        self.tell(gate, who);
        self.engine.keeps();
        self.log.reserve(1)?;
        self.engine.step(who, event)?;
        let stamp = self.stamp.max(self.heard) + 1;
        self.stamp = stamp;
        self.log.push(Made { stamp, who, event });
        Ok(())
    }

    // Tells the gate which box is about to turn, by its number in the network, and which turn of the part this is.
    fn tell<G: Gate>(&self, gate: &G, who: u32) {
        if let Some(home) = self.engine.boxes().get(who as usize) {
            let turn = self.log.len().saturating_add(1);
            gate.reached(home.number(), u32::try_from(turn).unwrap_or(u32::MAX));
        }
    }
}

// Sets all counts back to 0, unless they are.
fn set_back(unshifted: bool, counts: &mut [u32])
    requires { IsTrue unshifted → (who : ℕ) → slice_index_or counts.old who 0 ≡ 0 }
    ensures count { length counts.new ≡ length counts.old }
    ensures none { (who : ℕ) → slice_index_or counts.new who 0 ≡ 0 }
{
    if unshifted {
        return;
    }
    for place in 0..counts.len() {
        counts[place] = 0;
    }
}
