//! The limits of boxes that run freely, which clauses cite.

/// The most turns after which a box makes a further round.
pub const FURTHER_ROUND_LIMIT: u32 = 4_032;

/// The most requests that a box takes at once: as many as there is room for on its desk.
pub const ROOM: u32 = 16;

/// The number by which the first operator is known to the gate; those of boxes are below it.
pub const FIRST_OPERATOR_GATE: u32 = 256;
