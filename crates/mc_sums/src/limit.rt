//! The limit of counts, which clauses cite.

/// The greatest count.
pub const COUNT_LIMIT: u64 = 65_536;
