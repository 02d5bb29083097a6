//! The limits of workers, which clauses cite.

/// The most turns of a round. A box has no more slots, so a round has turns for all the retries that it owes.
pub const TURN_LIMIT: u32 = 64;

/// The most channel ends of a box.
pub const END_LIMIT: usize = 64;

/// The greatest stamp of what is taken.
pub const STAMP_LIMIT: u32 = 16_777_216;

/// The greatest stamp that a worker may have when a round begins.
pub const FIRST_STAMP_LIMIT: u32 = 33_554_432;

/// How many entries the table of places has: one for each tunnel of each channel end.
pub const TABLE_LEN: usize = 512;
