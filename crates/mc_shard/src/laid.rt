// Boxes, places and owners that make a shard.

ghost use Rattle.std.specs.Prelude.{MatchBool};
ghost use Rattle.mc_shard.specs.Shards.{AreLaid};

use crate::places::SlotPlaces;
use mc_box::MediaBox;

/// Whether these make a shard: each box has its places, and each of its slots is at an end that is there and is the
/// box's.
pub fn are_laid(boxes: &[MediaBox], places: &[SlotPlaces], owners: &[u32]) -> bool
    ensures { MatchBool result (AreLaid boxes.now places.now owners.now)
        (AreLaid boxes.now places.now owners.now → ⊥) }
{
    if places.len() != boxes.len() {
        return false;
    }
    for who in 0..places.len() {
        if !places[who].are_own(who, owners) {
            return false;
        }
    }
    true
}
