// A plan that is laid out: what its first world is, while boxes get their programs.

ghost use Rattle.std.specs.Prelude.{◌≡◌, IfOk, OnErr, OnOk};
ghost use Rattle.mc_plan.specs.Layouts.{may_program, with_program, IsLayout};

use crate::boxes::boxes_of;
use crate::fault::ProgramFault;
use crate::programs::{may_program_box, set_program};
use mc_box::Setup;
use mc_rule::Program;
use mc_world::{Channel, World};
use std::alloc::{AllocError, Global};
use std::marker::Model;

/// The first world of a plan as far as it is made: its boxes are new, nothing is under way, and features may still get
/// programs.
#[derive(Debug, Drop)]
pub struct Layout {
    pub(crate) setups: Vec<Setup>,
    pub(crate) channels: Vec<Channel>,
    pub(crate) alloc: Global,
}

impl Model for Layout {
    ghost use Rattle.std.specs.Prelude.{map};
    ghost use Rattle.mc_box.specs.Boxes.{set_up};
    ghost use Rattle.mc_model.specs.Worlds.{WorldState, first_world};
    ghost use Rattle.mc_plan.specs.Layouts.{IsLayout};

    ghost Value = { WorldState };

    ghost view = { λ layout. first_world (map set_up layout.setups.items) layout.channels.items };

    ghost invariant = { λ layout. IsLayout (first_world (map set_up layout.setups.items) layout.channels.items) };
}

impl Layout {
    /// What every layout keeps, for a caller to rest on: its boxes are new, and the tunnels of its channels join each
    /// of their slots once.
    pub fn keeps(&self)
        ensures { IsLayout self.now }
    {
        let _ = self.setups.len();
    }

    /// Gives a feature its program. It is refused by the first rule that this breaks, in the order of `ProgramFault`.
    pub fn program(&mut self, who: u32, program: Program) -> Result<(), ProgramFault>
        ensures answer { result ≡ may_program self.old who program }
        ensures programmed { OnOk result (self.new ≡ with_program self.old who program) }
        ensures unchanged { OnErr result (self.new ≡ self.old) }
    {
        self.may_program(who, &program)?;
        set_program(&mut self.setups, who, program);
        Ok(())
    }

    /// Whether a box may get this program: else the first rule that this would break, in the order of `ProgramFault`.
    pub fn may_program(&self, who: u32, program: &Program) -> Result<(), ProgramFault>
        ensures { result ≡ may_program self.now who program.now }
    {
        match self.setups.get(who as usize) {
            None => Err(ProgramFault::NoBox),
            Some(setup) => may_program_box(setup, program),
        }
    }

    /// The first world, with the programs that its boxes have got.
    pub fn world(self) -> Result<World, AllocError>
        ensures { IfOk result (λ world. world ≡ self) }
    {
        let boxes = boxes_of(self.alloc, self.setups)?;
        World::new(self.alloc, boxes, self.channels)
    }
}
