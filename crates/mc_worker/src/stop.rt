// Why a round ends.

use std::alloc::AllocError;

/// Why a round has ended.
#[derive(Debug, Drop)]
pub enum Stop {
    /// Nothing was left to do.
    Rested,
    /// It has made as many turns as a round may make.
    Spent,
    /// Memory for the next turn was wanting. Nothing of that turn was done.
    NoMemory(AllocError),
    /// The next stimulus is a Hear of this slot, which is at the last version. It stays the next.
    VersionEnd(u8),
    /// What is next at this channel end, for this tunnel, can't be taken: no slot has the tunnel there, the slot may
    /// not take the signal, or its stamp is too great. It stays the next.
    Strange(u8, u8),
}

/// How many turns a round has made, how many signals it has sent and taken, and why it has ended.
#[derive(Debug, Drop)]
pub struct RoundEnd {
    pub turns: u32,
    pub sent: u32,
    pub took: u32,
    pub stop: Stop,
}
