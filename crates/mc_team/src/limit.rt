//! The limits of teams, which clauses cite.

/// The most boxes of a team. Each makes at most 64 turns in a round, so no stamp of a round is above the greatest that
/// is taken.
pub const TEAM_LIMIT: usize = 262_144;

/// On how many threads a round runs at most.
pub const THREAD_LIMIT: usize = 8;
