//! The limits of shards, which clauses cite.

/// The last stamp of a turn: so neither stamps nor numbers of signals ever wrap.
pub const LAST_STAMP: u64 = 0x1_0000_0000_0000;

/// The factor of a round of a digest: the prime of FNV-1a for 64 bits.
pub const DIGEST_FACTOR: u64 = 0x100_0000_01b3;

/// The most signals that one turn sends.
pub const SENT_LIMIT: usize = 128;
