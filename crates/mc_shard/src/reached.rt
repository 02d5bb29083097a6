// How far a lane is.

ghost use Rattle.std.specs.Prelude.{◌≡◌, ◌<◌, MatchBool, length};
ghost use Rattle.mc_shard.specs.States.{Follows, reached_at};

use crate::digest::digest_after;
use crate::entry::Numbered;

/// How many signals of a lane were sent, or taken, at one of its ends, and the digest of the last; both are 0 before
/// the first.
#[derive(Clone, Copy, Debug)]
pub struct Reached {
    pub count: u64,
    pub digest: u64,
}

/// How far the lane at an end is.
pub fn reached_at(lanes: &Vec<Reached>, end: u32) -> Reached
    requires { end < length lanes.now.items }
    ensures { result ≡ reached_at lanes.now.items end }
{
    lanes[end as usize]
}

/// Whether a signal's digest goes on from that of the one before it.
pub fn follows(last: u64, item: &Numbered) -> bool
    ensures { MatchBool result (Follows last item.now) (Follows last item.now → ⊥) }
{
    let digest = digest_after(last, item.number, item.stamp, item.tunnel, &item.signal);
    item.digest == digest
}
