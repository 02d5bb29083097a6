// Whether each entry's box has a number in the world.

ghost use Rattle.std.specs.Prelude.{◌≡◌, ◌<◌, length, MatchOption};
ghost use Rattle.mc_shard_merge.specs.Compared.{journals_of};
ghost use Rattle.mc_shard_merge.specs.Turns.{AllNamed, EachNamed, IsUnnamed, LacksName, names_at, names_of};

use crate::comparing::journal_at;
use mc_shard::Entry;

/// An entry whose box has no number in the world: the number of its shard, and its place in the journal, from 0 on.
#[derive(Clone, Copy, PartialEq, Eq, Debug)]
pub struct Unnamed {
    pub shard: usize,
    pub index: usize,
}

/// The world's numbers of the boxes of a shard: none where the shard has no list.
pub fn names_at(names: &[Vec<u32>], shard: usize) -> &[u32]
    ensures { result.now ≡ names_at (names_of names.now) shard }
{
    match names.get(shard) {
        Some(numbers) => numbers,
        None => &[],
    }
}

// The first entry of a journal whose box has no number.
fn unnamed_in(journal: &[Entry], numbers: &[u32]) -> Option<usize>
    ensures { MatchOption result (EachNamed numbers.now journal.now) (LacksName numbers.now journal.now) }
{
    for (index, entry) in journal.iter().enumerate() {
        if entry.who as usize >= numbers.len() {
            return Some(index);
        }
    }
    None
}

/// The first entry, shard by shard, whose box has no number.
pub fn first_unnamed(journals: &[Vec<Entry>], names: &[Vec<u32>]) -> Option<Unnamed>
    ensures { MatchOption result (AllNamed (names_of names.now) (journals_of journals.now))
        (IsUnnamed (names_of names.now) (journals_of journals.now)) }
{
    for shard in 0..journals.len() {
        let journal = journal_at(journals, shard);
        if let Some(index) = unnamed_in(journal, names_at(names, shard)) {
            return Some(Unnamed { shard, index });
        }
    }
    None
}
