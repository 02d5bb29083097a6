// A journal that is made again, line by line.

ghost use Rattle.std.specs.Prelude.{◌≡◌, ◌+◌, ◌<◌, ◌≤◌, ◌^◌, drop, length, map, IfOk, IsTrue, OnOk, Some};
ghost use Rattle.mc_model.specs.Settles.{is_quiet};
ghost use Rattle.mc_model.specs.Shapes.{AreAllAllowed};
ghost use Rattle.mc_model.specs.Steps.{step};
ghost use Rattle.mc_script.specs.Batches.{batch_turns};
ghost use Rattle.mc_script.specs.declared.command.JournalLine.TheVariants.{Turn as Made, Settled};
ghost use Rattle.mc_replay.specs.Follows.{Stands};
ghost use Rattle.mc_replay.specs.Points.{Point, first_batch};
ghost use Rattle.mc_replay.specs.Replays.{EndsJournal, IsFresh, Reads, StandsAt};
ghost use Rattle.mc_replay.specs.declared.fault.ReplayFault.TheVariants.{At};

use crate::fault::{JournalFault, ReplayFault};
use crate::rule;
use crate::segment::{Segment, TurnFault, begin};
use mc_box::Turn;
use mc_script::Batch;
use mc_world::World;
use std::alloc::{AllocError, Global};

// The segment that is followed, how many batches have their marks, and how many turns were made in all.
#[derive(Drop)]
pub struct Replay {
    pub segment: Segment,
    pub settled: usize,
    pub turns: u32,
}

impl Replay {
    // A replay of which no line is read.
    pub fn new(alloc: Global, world: World, batches: &[Batch]) -> Result<Replay, AllocError>
        requires { AreAllAllowed world (map batch_turns batches.now) }
        ensures { IfOk result (IsFresh world (map batch_turns batches.now)) }
    {
        let segment = begin(alloc, world, batch_at(batches, 0))?;
        Ok(Replay {
            segment,
            settled: 0,
            turns: 0,
        })
    }

    // Makes a turn, where it is one of a batch and can happen.
    pub fn make(&mut self, batches: &[Batch], turn: Turn) -> Result<(), ReplayFault>
        requires stands { Stands self.old.segment }
        requires few { self.old.turns + self.old.settled + 1 < 2 ^ 32 }
        requires retries { self.old.segment.retries.made ≤ self.old.turns }
        ensures reads { (point : Point) → StandsAt (map batch_turns batches.now) point self.old
            → Reads (map batch_turns batches.now) point (Made turn) self.old result self.new }
        ensures goes { OnOk result (step self.old.segment.world turn ≡ Some self.new.segment.world) }
        ensures turns { OnOk result (self.new.turns ≡ self.old.turns + 1) }
    {
        if self.settled >= batches.len() {
            return Err(self.fault(rule::NOT_SETTLED));
        }
        match self.segment.make(turn) {
            Ok(()) => {
                self.turns += 1;
                Ok(())
            }
            Err(TurnFault::NotNext) => Err(self.fault(rule::NOT_NEXT)),
            Err(TurnFault::NotEnabled) => Err(self.fault(rule::NOT_ENABLED)),
            Err(TurnFault::NoMemory(e)) => Err(ReplayFault::NoMemory(e)),
        }
    }

    // Takes a mark, where the turns have settled their batch. The next segment begins.
    pub fn settle(&mut self, alloc: Global, batches: &[Batch]) -> Result<(), ReplayFault>
        requires stands { Stands self.old.segment }
        requires few { self.old.turns + self.old.settled + 1 < 2 ^ 32 }
        requires allowed { AreAllAllowed self.old.segment.world (map batch_turns batches.now) }
        ensures reads { (point : Point) → StandsAt (map batch_turns batches.now) point self.old
            → Reads (map batch_turns batches.now) point Settled self.old result self.new }
        ensures quiet { OnOk result (IsTrue (is_quiet self.new.segment.world)) }
        ensures world { OnOk result (self.new.segment.world ≡ self.old.segment.world) }
        ensures turns { OnOk result (self.new.turns ≡ self.old.turns) }
    {
        if self.settled >= batches.len() || !self.segment.is_settled() {
            return Err(self.fault(rule::NOT_SETTLED));
        }
        self.settled += 1;
        let next = batch_at(batches, self.settled);
        self.segment.go_on(alloc, next)?;
        Ok(())
    }

    // The end of the lines, after which a bad one may stand.
    pub fn end(&self, batches: &[Batch], bad: bool) -> Result<(), ReplayFault>
        requires { self.now.turns + self.now.settled + 1 < 2 ^ 32 }
        ensures { EndsJournal (length batches.now) self.now bad result }
    {
        if bad {
            return Err(self.fault(rule::NO_LINE));
        }
        if self.settled < batches.len() {
            return Err(self.fault(rule::ENDS_EARLY));
        }
        Ok(())
    }

    // A fault of the line that is read now. Each line before it is a turn or a mark.
    fn fault(&self, number: u8) -> ReplayFault
        requires { self.now.turns + self.now.settled + 1 < 2 ^ 32 }
        ensures { result ≡ At (record {
          number = number;
          turn = self.now.turns + 1;
          before = self.now.turns + self.now.settled;
        }) }
    {
        ReplayFault::At(JournalFault {
            number,
            turn: self.turns + 1,
            before: self.turns + self.settled as u32,
        })
    }
}

// The commands of a batch, by its place; none where no such batch is there.
fn batch_at(batches: &[Batch], place: usize) -> &[Turn]
    ensures { result.now ≡ first_batch (drop place (map batch_turns batches.now)) }
{
    match batches.get(place) {
        Some(batch) => &batch.turns,
        None => &[],
    }
}
