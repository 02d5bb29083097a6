//! Laws of paths, and of what may be at rest on one side of a box, over the definitions alone: each function's contract
//! is the law's sentence.

ghost use Rattle.mc_path.specs.Views.{TwoSlotsATunnel, SilentUnlessFlowing};

pub use mc_path_laws::laws::{
    clean_paths, each_end_once, each_slot_once, ends_at_rest, links_at_rest, paths_of_one_medium,
    paths_pass_once, quiet_paths, rested_paths_hold, settled_paths_hold,
};

/// A path goes over two slots for each tunnel that is shown of it.
pub fn two_slots_a_tunnel()
    ensures { TwoSlotsATunnel }
{}

/// No end hears anything on a path that doesn't flow, whatever its slot keeps, in any world.
pub fn silent_unless_flowing()
    ensures { SilentUnlessFlowing }
{}
