// The paths that are shown at the marks of a journal.

ghost use Rattle.mc_top.specs.Shown.{ShowsPaths};

use mc_path::paths;
use mc_replay::Viewer;
use mc_view::PathView;
use mc_world::World;
use std::alloc::{AllocError, Global};

/// Shows all paths of a world.
#[derive(Clone, Copy)]
pub struct PathViewer;

impl Viewer for PathViewer {
    ghost shows = { λ viewer. ShowsPaths };

    fn views(&self, alloc: Global, world: &World) -> Result<Vec<PathView>, AllocError> {
        paths(alloc, world)
    }
}
