//! The limits of generated texts, which clauses cite.

/// The greatest number at which draws may be told to begin.
pub const NUMBER_LIMIT: u32 = 2_147_483_647;

/// The most chains of a text.
pub const SIZE_LIMIT: u32 = 50;
