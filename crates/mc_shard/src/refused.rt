// Why a shard makes no turn.

/// Why a shard makes no turn.
#[derive(Clone, Copy, PartialEq, Eq, Debug)]
pub enum Refused {
    /// There is no box of this number.
    NoBox,
    /// There is no asker of this number.
    NoAsker,
    /// There is no channel end of this number.
    NoEnd,
    /// No slot has this tunnel of the channel end.
    NoTunnel,
    /// The event can't happen to the box now.
    NotEnabled,
    /// The descriptor of its slot has the last version.
    VersionEnd,
    /// The slot may not take this signal now.
    Unlawful,
    /// It isn't the next of its lane or of its asker, but a later one.
    Ahead,
    /// It is the next of its lane by its number, but its digest doesn't go on from that of the last that was taken: its
    /// sender lost a part of its journal.
    Digest,
    /// There is no stamp above those that the turn's has to be above.
    Stamp,
    /// It isn't the entry that the boxes make.
    Differs,
    /// Memory ran out.
    NoMemory,
}

/// The first entry of a journal that a shard doesn't make again, by its place in the journal, from 0 on, and why.
#[derive(Clone, Copy, PartialEq, Eq, Debug)]
pub struct ReplayRefused {
    pub index: usize,
    pub why: Refused,
}
