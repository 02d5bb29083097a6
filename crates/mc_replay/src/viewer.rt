// What is shown of a world.

ghost use Rattle.std.specs.Prelude.{IfOk, IsTrue, List};
ghost use Rattle.mc_model.specs.Settles.{is_quiet};
ghost use Rattle.mc_model.specs.Worlds.{WorldState};
ghost use Rattle.mc_view.specs.declared.PathView.{PathView};

use mc_view::PathView;
use mc_world::World;
use std::alloc::{AllocError, Global};

/// Shows the paths of a world in which nothing is under way.
pub trait Viewer {
    /// Whether these views are those of a world.
    ghost shows: { Self → WorldState → List PathView → Type 0 };

    /// The views of its paths.
    fn views(&self, alloc: Global, world: &World) -> Result<Vec<PathView>, AllocError>
        requires { IsTrue (is_quiet world.now) }
        ensures { IfOk result (λ views. shows self.now world.now views.items) };
}
