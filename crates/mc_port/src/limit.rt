//! The limits of rings, which clauses cite.

/// How many items a ring has places for.
pub const RING_LIMIT: usize = 16;

/// The last count that a port reaches: it counts no further.
pub const LAST_COUNT: u64 = u64::MAX;
