// How what a turn sends gets its numbers and digests.

ghost use Rattle.std.specs.Prelude.{◌≡◌, ◌+◌, ◌^◌, ◌<◌, ◌≤◌, ◌++◌, ℕ, length, slice_get};
ghost use Rattle.mc_shard.specs.States.{count_at, next_item, numbered, numbered_if, raised_all};
ghost use Rattle.mc_shard.specs.Shards.{AreEnds};

use crate::digest::digest_after;
use crate::entry::{AtEnd, Numbered};
use crate::places::SlotPlaces;
use crate::reached::{Reached, reached_at};
use mc_lane::Lane;
use mc_signal::Signal;

// The next signal of a lane that is so far.
fn next_item(last: Reached, stamp: u64, tunnel: u8, signal: Signal) -> Numbered
    requires { last.count < 2 ^ 63 }
    ensures { result ≡ next_item last stamp tunnel signal }
{
    let number = last.count + 1;
    let digest = digest_after(last.digest, number, stamp, tunnel, &signal);
    Numbered {
        number,
        stamp,
        digest,
        tunnel,
        signal,
    }
}

// One signal gets the next number of its end, and its digest. A slot without a place sends nothing.
fn number_one(
    places: &SlotPlaces,
    stamp: u64,
    lanes: &mut Vec<Reached>,
    slot: u8,
    signal: Signal,
    out: &mut Lane<AtEnd>,
)
    requires ends { AreEnds (length lanes.old.items) places.now }
    requires fits { (end : ℕ) → count_at lanes.old.items end < 2 ^ 63 }
    requires room { 0 < out.old.spare }
    ensures out { out.new.items
        ≡ out.old.items ++ numbered_if (slice_get places.now slot) stamp lanes.old.items signal }
    ensures lanes { lanes.new.items
        ≡ raised_all lanes.old.items (numbered_if (slice_get places.now slot) stamp lanes.old.items signal) }
    ensures room { out.old.spare ≤ out.new.spare + 1 }
{
    if let Some((end, tunnel)) = places.get(slot) {
        let item = next_item(reached_at(lanes, end), stamp, tunnel, signal);
        lanes[end as usize] = Reached {
            count: item.number,
            digest: item.digest,
        };
        out.push(AtEnd { end, item });
    }
}

/// All that a turn sends, in order, which is used up.
pub(crate) fn number_all(
    places: &SlotPlaces,
    stamp: u64,
    lanes: &mut Vec<Reached>,
    sendings: &mut Lane<(u8, Signal)>,
    out: &mut Lane<AtEnd>,
)
    requires ends { AreEnds (length lanes.old.items) places.now }
    requires fits { (end : ℕ) → count_at lanes.old.items end + length sendings.old.items < 2 ^ 63 }
    requires room { length sendings.old.items ≤ out.old.spare }
    ensures out { out.new.items
        ≡ out.old.items ++ numbered places.now stamp lanes.old.items sendings.old.items }
    ensures lanes { lanes.new.items
        ≡ raised_all lanes.old.items (numbered places.now stamp lanes.old.items sendings.old.items) }
{
    while let Some(sending) = sendings.pop() {
        number_one(places, stamp, lanes, sending.0, sending.1, out);
    }
}
