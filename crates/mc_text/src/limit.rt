//! The limits of names, which clauses cite.

/// The most codecs that have names.
pub const CODEC_LIMIT: usize = 64;

/// The most boxes that have names.
pub const BOX_LIMIT: usize = 256;

/// The most slots of a box that have names.
pub const SLOT_LIMIT: usize = 64;

/// The most told words.
pub const TOLD_LIMIT: usize = 64;

/// The most bytes of a name.
pub const NAME_LIMIT: usize = 16;
