//! The limits of a text and of what it declares, which clauses cite.

/// The most bytes of a text.
pub const TEXT_LIMIT: usize = 1_048_576;

/// The most bytes of a text and the journal after it.
pub const JOURNAL_TEXT_LIMIT: usize = 16_777_216;

/// The most codecs of a `dev` or `send` line.
pub const LIST_LIMIT: u8 = 8;

/// The most channels, those that join after `grow` included.
pub const CHANNEL_LIMIT: usize = 1024;

/// The most commands, settles included.
pub const COMMAND_LIMIT: usize = 4096;
