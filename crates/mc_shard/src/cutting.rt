// What may be cut of a journal: entries that no neighbour needs any more.

ghost use Rattle.std.specs.Prelude.{◌≡◌, All, MatchBool};
ghost use Rattle.mc_shard.specs.Cutting.{IsCuttable, IsTakenForGood, MayBeCut, taken_for_good};

use crate::entry::{AtEnd, Entry};
use mc_lane::Lane;

// How many of the signals sent at an end were taken for good.
fn taken_for_good(taken: &[u64], end: u32) -> u64
    ensures { result ≡ taken_for_good taken.now end }
{
    match taken.get(end as usize) {
        Some(count) => *count,
        None => 0,
    }
}

fn is_taken_for_good(taken: &[u64], at: &AtEnd) -> bool
    ensures { MatchBool result (IsTakenForGood taken.now at.now) (IsTakenForGood taken.now at.now → ⊥) }
{
    at.item.number <= taken_for_good(taken, at.end)
}

fn all_taken_for_good(taken: &[u64], sent: &Lane<AtEnd>) -> bool
    ensures { MatchBool result (All (IsTakenForGood taken.now) sent.now.items)
        (All (IsTakenForGood taken.now) sent.now.items → ⊥) }
{
    for i in 0..sent.len() {
        if !is_taken_for_good(taken, &sent.get(i)) {
            return false;
        }
    }
    true
}

/// Whether an entry that a snapshot of its shard has may be cut off the journal: each signal that it sent was taken for
/// good. `taken` says for each of the shard's channel ends, by its number, how many of the signals sent there the
/// snapshot of the neighbour has taken; at an end past its last none counts as taken.
pub fn may_be_cut(taken: &[u64], entry: &Entry) -> bool
    ensures { MatchBool result (MayBeCut taken.now entry.now) (MayBeCut taken.now entry.now → ⊥) }
{
    all_taken_for_good(taken, &entry.sent)
}

/// How many entries may be cut off the front of a journal, or of that part of it that a snapshot of its shard has: as
/// many as there are before the first that may not, as `may_be_cut` says.
pub fn cuttable(taken: &[u64], journal: &[Entry]) -> usize
    ensures { IsCuttable taken.now journal.now result }
{
    for index in 0..journal.len() {
        if !may_be_cut(taken, &journal[index]) {
            return index;
        }
    }
    journal.len()
}
