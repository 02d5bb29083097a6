// Where turns settle.

ghost use Rattle.std.specs.Prelude.{◌≡◌, IfErr, IfOk, Some};
ghost use Rattle.mc_model.specs.Steps.{run};
ghost use Rattle.mc_segments.specs.Ends.{AreEnds, IsSegmentsFault};

use crate::fault::SegmentsFault;
use crate::following::follow_none;
use mc_box::Turn;
use mc_world::World;
use std::alloc::Global;

/// The places at which turns settle, each the number of turns before it, in rising order; and the world after all
/// turns, also those after the last place.
#[derive(Debug, Drop)]
pub struct Segments {
    pub ends: Vec<usize>,
    pub world: World,
}

/// The places at which turns from a world settle. A settle ends where the turns since the end before it, one at least,
/// settle the commands among them, and a command comes next or nothing. A journal of the turns has its marks there.
///
/// A turn takes no longer in a larger network. An end takes time in proportion to the boxes. Where all has settled but
/// for a ring of links, a command takes time by the whole network.
pub fn settled_ends(alloc: Global, world: World, turns: &[Turn]) -> Result<Segments, SegmentsFault>
    ensures ends { IfOk result (λ segments. AreEnds world turns.now 0 segments.ends.items) }
    ensures runs { IfOk result (λ segments. run world turns.now ≡ Some segments.world) }
    ensures why { IfErr result (IsSegmentsFault world turns.now) }
{
    let mut following = follow_none(alloc, world)?;
    following.follow_all(alloc, turns)?;
    Ok(Segments {
        ends: following.ends,
        world: following.segment.world,
    })
}
