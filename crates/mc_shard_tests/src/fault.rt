// What stops a test.

use mc_entry::EntryFault;
use mc_shard::{Refused, ReplayRefused};
use mc_shard_merge::MergeFault;
use mc_snapshot::SnapshotFault;
use std::alloc::AllocError;

/// Why a shard isn't made, or makes no turn.
#[derive(Debug, Drop)]
pub enum TestFault {
    /// The boxes, places and owners don't fit together.
    Unlaid,
    /// A request or a signal is refused.
    Refused(Refused),
    /// A signal was taken already, or a request made.
    Had,
    /// An entry isn't made again.
    Replay(ReplayRefused),
    /// Bytes are no entry's, or memory ran out.
    Read(EntryFault),
    NoMemory(AllocError),
    /// Journals aren't merged.
    Merge(MergeFault),
    /// Bytes are no shard's, or memory ran out.
    Snapshot(SnapshotFault),
}

impl From<Refused> for TestFault {
    fn from(e: Refused) -> Self {
        TestFault::Refused(e)
    }
}

impl From<ReplayRefused> for TestFault {
    fn from(e: ReplayRefused) -> Self {
        TestFault::Replay(e)
    }
}

impl From<EntryFault> for TestFault {
    fn from(e: EntryFault) -> Self {
        TestFault::Read(e)
    }
}

impl From<AllocError> for TestFault {
    fn from(e: AllocError) -> Self {
        TestFault::NoMemory(e)
    }
}

impl From<MergeFault> for TestFault {
    fn from(e: MergeFault) -> Self {
        TestFault::Merge(e)
    }
}

impl From<SnapshotFault> for TestFault {
    fn from(e: SnapshotFault) -> Self {
        TestFault::Snapshot(e)
    }
}
