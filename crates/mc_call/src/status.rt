//! The statuses with which a call of the program ends.

/// The work was done.
pub const WORKED: u8 = 0;

/// The text has a fault.
pub const FAULTY_TEXT: u8 = 1;

/// A script stopped at the last version of a slot: the same status.
pub const VERSION_END: u8 = 1;

/// The words are no command.
pub const USAGE: u8 = 2;

/// Memory ran out.
pub const NO_MEMORY: u8 = 3;

/// The source failed.
pub const READ_FAULT: u8 = 4;

/// The sink failed.
pub const WRITE_FAULT: u8 = 5;

/// A script stopped at a box whose program doesn't come to rest.
pub const RESTLESS: u8 = 6;

/// A script stopped at a ring of links.
pub const RING: u8 = 7;

/// The journal that is checked has a fault.
pub const JOURNAL_FAULT: u8 = 8;

/// The text declares no feature of the name that the words have.
pub const NO_BOX: u8 = 9;

/// A script stopped at a cut of a channel that is in use.
pub const CHANNEL_IN_USE: u8 = 10;
