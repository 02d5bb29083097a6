// Why slots are closed, beside a world that another keeps.

ghost use Rattle.std.specs.Prelude.{◌≡◌, ◌<◌, ◌+◌, ◌^◌, ◌++◌, [], ◌∷◌, List, length, replicate, slice_index_or, None, IfOk};
ghost use Rattle.mc_box.specs.declared.event.Turn.{Turn};
ghost use Rattle.mc_cause.specs.Carried.{AreOfSlots, HasHappened, IsAfterTurn, TellsCauses};
ghost use Rattle.mc_cause.specs.CauseLaws.{NoneCloses};
ghost use Rattle.mc_model.specs.Worlds.{WorldState};

use crate::notes::note;
use mc_box::Turn;
use mc_world::World;
use std::alloc::{AllocError, Global};
use std::marker::Model;

/// Why the closed slots of a world are closed, for whoever keeps the world, and has each turn noted once it was made. A
/// number beside each close under way tells from which turn it came.
#[derive(Debug, Drop)]
pub struct Whys {
    turns: u32,
    // of each slot that waits for a closeack, from which turn its close came
    origins: Vec<Option<u32>>,
    // of each slot, from which turn the close came by which it last became closed
    whys: Vec<Option<u32>>,
}

impl Model for Whys {
    ghost use Rattle.mc_cause.specs.Carried.{WhysState};

    ghost Value = { WhysState };

    ghost view = { λ inside. record {
      turns = inside.turns;
      origins = inside.origins.items;
      whys = inside.whys.items;
    } };
}

impl Whys {
    /// Those of no turns. No slot of the world waits for a closeack, as in each first world.
    pub fn new(alloc: Global, world: &World) -> Result<Whys, AllocError>
        requires { NoneCloses world.now }
        ensures slots { IfOk result (AreOfSlots world.now) }
        ensures tells { IfOk result (TellsCauses world.now [] world.now) }
    {
        world.keeps();
        let origins = nones(alloc, world.slot_count())?;
        let whys = nones(alloc, world.slot_count())?;
        Ok(Whys {
            turns: 0,
            origins,
            whys,
        })
    }

    /// Notes a turn that was made, by the world after it. Fewer than 4,294,967,295 turns were made before.
    pub fn note(&mut self, world: &World, turn: Turn)
        requires few { self.old.turns + 1 < 2 ^ 32 }
        requires after { IsAfterTurn world.now turn self.old }
        ensures turns { self.new.turns ≡ self.old.turns + 1 }
        ensures slots { AreOfSlots world.now self.new }
        ensures tells { (first before : WorldState) (turns : List Turn) → TellsCauses first turns before self.old
            → HasHappened before world.now turn → TellsCauses first (turns ++ turn ∷ []) world.now self.new }
    {
        let number = self.turns + 1;
        self.turns = number;
        note(world, turn, number, &mut self.origins, &mut self.whys);
    }

    /// Why a slot is closed: from which turn the close came by which it last became closed, counted from 1. None where
    /// it never did.
    pub fn why(&self, slot: u32) -> Option<u32>
        requires { slot < length self.now.whys }
        ensures { result ≡ slice_index_or self.now.whys slot None }
    {
        self.whys[slot as usize]
    }

    /// The same of all slots, by their numbers.
    pub fn all(&self, alloc: Global) -> Result<Vec<Option<u32>>, AllocError>
        ensures { IfOk result (λ all. all.items ≡ self.now.whys) }
    {
        copied(alloc, &self.whys)
    }
}

// So many numbers, none of which is there.
fn nones(alloc: Global, count: usize) -> Result<Vec<Option<u32>>, AllocError>
    ensures { IfOk result (λ numbers. numbers.items ≡ replicate count None) }
{
    let mut numbers = Vec::new(alloc);
    for _done in 0..count {
        numbers.push(None)?;
    }
    Ok(numbers)
}

// The same numbers once more.
fn copied(alloc: Global, numbers: &[Option<u32>]) -> Result<Vec<Option<u32>>, AllocError>
    ensures { IfOk result (λ copied. copied.items ≡ numbers.now) }
{
    let mut copied = Vec::new(alloc);
    copied.extend_from_slice(numbers)?;
    Ok(copied)
}
