//! The limits of boxes, which clauses cite.

/// The most slots of a box.
pub const SLOT_LIMIT: usize = 64;

/// The last version of a descriptor: no newer one comes after it.
pub const LAST_VERSION: u32 = u32::MAX;

/// How many times the program of a box may shift in one settle.
pub const SHIFT_LIMIT: u16 = 256;
