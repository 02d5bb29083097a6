//! The limits of programs, which clauses cite.

/// The most states of a program.
pub const STATE_LIMIT: u8 = 64;

/// The most transitions of a state.
pub const TRANSITION_LIMIT: usize = 16;
