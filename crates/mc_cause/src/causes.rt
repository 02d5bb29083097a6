// A world, with why its closed slots are closed.

ghost use Rattle.std.specs.Prelude.{◌≡◌, ◌↔◌, ◌<◌, ◌+◌, ◌^◌, ◌++◌, [], ◌∷◌, List, IfOk, OnErr, OnOk};
ghost use Rattle.mc_box.specs.declared.event.Turn.{Turn};
ghost use Rattle.mc_cause.specs.Carried.{TellsCauses};
ghost use Rattle.mc_cause.specs.CauseLaws.{NoneCloses};
ghost use Rattle.mc_cause.specs.Causes.{why};
ghost use Rattle.mc_model.specs.Steps.{step};
ghost use Rattle.mc_model.specs.Worlds.{WorldState, slot_count};
ghost use Rattle.mc_world.specs.StepAnswers.{CannotHappen, LacksVersion};

use crate::whys::Whys;
use mc_box::Turn;
use mc_world::{StepFault, World};
use std::alloc::{AllocError, Global};
use std::marker::Model;

/// A world, and why its closed slots are closed. Whoever has a world of their own keeps `Whys` beside it.
#[derive(Debug, Drop)]
pub struct Causes {
    world: World,
    whys: Whys,
}

impl Model for Causes {
    ghost use Rattle.mc_cause.specs.Carried.{CausesState};

    ghost Value = { CausesState };

    ghost use Rattle.mc_cause.specs.Kept.{causes_state, IsOfItsSlots};

    ghost view = { causes_state };

    ghost invariant = { IsOfItsSlots };
}

impl Causes {
    /// The causes of no turns. No slot of the world waits for a closeack, as in each first world.
    pub fn new(alloc: Global, world: World) -> Result<Causes, AllocError>
        requires { NoneCloses world }
        ensures world { IfOk result (λ causes. causes.world ≡ world) }
        ensures tells { IfOk result (λ causes. TellsCauses world [] causes.world causes.whys) }
    {
        let whys = Whys::new(alloc, &world)?;
        Ok(Causes { world, whys })
    }

    /// One turn more. Its refusals are those of the world's step, in their order, and change nothing. Fewer than
    /// 4,294,967,295 turns were made before.
    pub fn step(&mut self, turn: Turn) -> Result<(), StepFault>
        requires few { self.old.whys.turns + 1 < 2 ^ 32 }
        ensures world { OnOk result (step self.old.world turn ≡ Some self.new.world) }
        ensures turns { OnOk result (self.new.whys.turns ≡ self.old.whys.turns + 1) }
        ensures unchanged { OnErr result (self.new ≡ self.old) }
        ensures version_end { (result ≡ Err StepFault.VersionEnd) ↔ LacksVersion self.old.world turn }
        ensures not_enabled { (result ≡ Err StepFault.NotEnabled) ↔ CannotHappen self.old.world turn }
        ensures tells { (first : WorldState) (turns : List Turn) → TellsCauses first turns self.old.world self.old.whys
            → OnOk result (TellsCauses first (turns ++ turn ∷ []) self.new.world self.new.whys) }
    {
        self.world.keeps();
        self.world.step(turn.who, turn.event)?;
        self.whys.note(&self.world, turn);
        Ok(())
    }

    /// The world after the turns that were made.
    pub fn world(&self) -> &World
        ensures { result.now ≡ self.now.world }
    {
        &self.world
    }

    /// Why a slot is closed: from which turn the close came by which it last became closed, counted from 1. None where
    /// it never did.
    pub fn why(&self, slot: u32) -> Option<u32>
        requires { slot < slot_count self.now.world }
        ensures { (first : WorldState) (turns : List Turn) → TellsCauses first turns self.now.world self.now.whys
            → result ≡ why first turns slot }
    {
        self.whys.why(slot)
    }
}
