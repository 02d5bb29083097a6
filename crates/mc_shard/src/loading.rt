// Whether parts are those of a shard: for a shard that is made again of what was written of one.

ghost use Rattle.std.specs.Prelude.{◌≡◌, ◌<◌, ◌≤◌, length, MatchBool};
ghost use Rattle.mc_shard.specs.Loading.{AreFew, AreFewAt, HaveLengths};
ghost use Rattle.mc_shard.specs.Shards.{IsShaped, shard_of};
ghost use Rattle.mc_shard.specs.declared.limit.TheConstants.{LAST_STAMP};

use crate::laid::are_laid;
use crate::limit::{LAST_STAMP, SENT_LIMIT};
use crate::parts::ShardParts;

impl ShardParts {
    /// Whether they are what a shard keeps.
    pub(crate) fn is_shaped(&self) -> bool
        ensures { MatchBool result (IsShaped (shard_of self.now)) (IsShaped (shard_of self.now) → ⊥) }
    {
        if !self.have_lengths() {
            return false;
        }
        if self.stamp > LAST_STAMP || !self.are_few() {
            return false;
        }
        are_laid(&self.boxes, &self.places, &self.owners)
    }

    // Whether each channel end has its box and its counts.
    fn have_lengths(&self) -> bool
        ensures { MatchBool result (HaveLengths (shard_of self.now)) (HaveLengths (shard_of self.now) → ⊥) }
    {
        self.taken.len() == self.sent.len() && self.owners.len() == self.sent.len()
    }

    // Whether the counts are within what so many turns can send and take.
    fn are_few(&self) -> bool
        requires lengths { HaveLengths (shard_of self.now) }
        requires stamp { self.now.stamp ≤ LAST_STAMP }
        ensures { MatchBool result (AreFew (shard_of self.now)) (AreFew (shard_of self.now) → ⊥) }
    {
        for end in 0..self.sent.len() {
            if !self.are_few_at(end) {
                return false;
            }
        }
        true
    }

    fn are_few_at(&self, end: usize) -> bool
        requires lengths { HaveLengths (shard_of self.now) }
        requires stamp { self.now.stamp ≤ LAST_STAMP }
        requires here { end < length self.now.sent.items }
        ensures { MatchBool result (AreFewAt (shard_of self.now) end) (AreFewAt (shard_of self.now) end → ⊥) }
    {
        let most = SENT_LIMIT as u64 * self.stamp;
        self.sent[end].count <= most && self.taken[end].count <= self.stamp
    }
}
