//! Laws of shards, over the definitions alone: each function's contract is the law's sentence.

ghost use Rattle.mc_shard_laws.specs.Askers.{RequestsGoOn};
ghost use Rattle.mc_shard_laws.specs.Digests.{NextIsChained, SentIsChained};
ghost use Rattle.mc_shard_laws.specs.Growth.{CutsKeepTheRest, JournalsGrow, JournalsSplit, QuietStays};
ghost use Rattle.mc_shard_laws.specs.Merged.{MergedRun};
ghost use Rattle.mc_shard_laws.specs.Sound.{NextIsLawful, ShardsKeepSound};
ghost use Rattle.mc_shard_laws.specs.Together.{ShardsAreLogged, ShardsRun, TakenFromCut, TakenIsFront};
ghost use Rattle.mc_shard_laws.specs.Worked.{WorkedShards};

/// Whatever arrived, in any order and any number of times: what was taken at an end is a front of what was sent to it,
/// where each take has its sending.
pub fn taken_is_front()
    ensures { TakenIsFront }
{}

/// Journals of shards that hold all boxes of a world, in which each take has its sending, are what the merge law asks
/// for.
pub fn shards_are_logged()
    ensures { ShardsAreLogged }
{}

/// So all their entries, in one list in which no stamp is below one before it, are one run of the world, to the boxes
/// as the shards have them, with what was sent and not yet taken under way.
pub fn shards_run()
    ensures { ShardsRun }
{}

/// A journal with one entry more, that may follow, is a journal, and tells the state after it.
pub fn journals_grow()
    ensures { JournalsGrow }
{}

/// Each front of a journal is a journal, so where one is cut doesn't matter.
pub fn journals_split()
    ensures { JournalsSplit }
{}

/// A cut of all journals in which each lane was taken to its end is quiet whenever its parts were read, and stays so
/// until an event is made that takes nothing.
pub fn quiet_stays()
    ensures { QuietStays }
{}

/// The merge of the journals by their stamps, as it is computed, is that run.
pub fn merged_run()
    ensures { MergedRun }
{}

/// Two phones in two shards have all that these laws ask for, and their merge has these turns.
pub fn worked_shards()
    ensures { WorkedShards }
{}

/// Of a lane whose sender's journal is cut, what was taken from then on is a front of what is still to be taken: so
/// what a neighbour has taken may be cut.
pub fn taken_from_cut()
    ensures { TakenFromCut }
{}

/// Of the entries that a snapshot has, a cuttable front may be cut: from the snapshot the rest of the journal leads where
/// the whole leads, and each signal that a neighbour may still take, from its snapshot on, is in what is kept.
pub fn cuts_keep_the_rest()
    ensures { CutsKeepTheRest }
{}

/// From a sound world shards lead to a sound one.
pub fn shards_keep_sound()
    ensures { ShardsKeepSound }
{}

/// And the next signal of each lane may be taken by the box at its end, as the shards have it.
pub fn next_is_lawful()
    ensures { NextIsLawful }
{}

/// The digests of all that a journal sends at an end go on from one to the next.
pub fn sent_is_chained()
    ensures { SentIsChained }
{}

/// So the next signal of a lane is never refused for its digest by a shard that took what the sender's journal says.
pub fn next_is_chained()
    ensures { NextIsChained }
{}

/// The requests that a journal made of an asker are numbered one by one, from the one after its last before the journal
/// to the one that the state keeps: each was made once.
pub fn requests_go_on()
    ensures { RequestsGoOn }
{}
