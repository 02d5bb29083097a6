//! The limits of networks that are divided into parts, which clauses cite.

/// The most boxes of such a network. So the retries of all its slots fit into one phase.
pub const NETWORK_LIMIT: usize = 262_144;
