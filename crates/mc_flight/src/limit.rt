//! The limits of the counter, which clauses cite.

/// The most seats that a counter has. The knowledge of its totals is cut into as many parts.
pub const SEAT_LIMIT: u32 = 256;

/// The most signals that are counted as sent with one seat, and the most that are counted as taken: 2^48.
pub const COUNT_LIMIT: u64 = 281_474_976_710_656;
