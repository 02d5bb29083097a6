//! The numbers of the rules on the lines of a text. A line's fault is the least number of those that it breaks.

/// The text is within its limit up to this line.
pub const TEXT_TOO_LONG: u8 = 1;

/// The line is within its limit.
pub const LINE_TOO_LONG: u8 = 2;

/// Each byte of the line is 0x20 to 0x7E.
pub const STRANGE_BYTE: u8 = 3;

/// Each box, codec, state and told word that the line names is declared.
pub const UNDECLARED: u8 = 4;

/// Each word may stand in its place, and the line in its section.
pub const WRONG_WORD: u8 = 5;

/// No word is missing.
pub const MISSING_WORD: u8 = 6;

/// No word is left over.
pub const EXTRA_WORD: u8 = 7;

/// A version is a number from 1 to 4294967295.
pub const WRONG_VERSION: u8 = 8;

/// Nothing is declared, listed or given twice.
pub const GIVEN_TWICE: u8 = 9;

/// A channel is between two boxes.
pub const SAME_BOX: u8 = 10;

/// The box has such a slot.
pub const NO_SUCH_SLOT: u8 = 11;

/// A link is between two slots.
pub const SAME_SLOT: u8 = 12;

/// A link is between slots of one medium.
pub const TWO_MEDIA: u8 = 13;

/// Each limit on what is declared is kept.
pub const LIMIT_PASSED: u8 = 14;

/// A program has all its states and goals when another section, or another program, begins.
pub const UNFINISHED: u8 = 15;

/// The line `begin` stands in the text.
pub const NO_BEGIN: u8 = 16;

/// The version line stands first.
pub const NO_VERSION_LINE: u8 = 17;

/// A name has at most 16 bytes.
pub const NAME_TOO_LONG: u8 = 18;

/// No command came since the last settle.
pub const NOT_SETTLED: u8 = 20;
