//! The limits of desks, which clauses cite.

/// The most operators of a desk.
pub const OPERATOR_LIMIT: u32 = 8;

/// The most requests that a desk has room for.
pub const ROOM_LIMIT: usize = 1_024;

/// The most requests of one operator.
pub const REQUEST_LIMIT: u32 = 4_294_967_295;
