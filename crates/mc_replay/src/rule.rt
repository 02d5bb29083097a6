//! The numbers of the rules on journals. Of those that a line breaks, `NO_LINE` counts before `NOT_SETTLED`, and that
//! before `NOT_NEXT` and then `NOT_ENABLED`.

/// Each turn can happen in the world that the turns before it leave.
pub const NOT_ENABLED: u8 = 31;

/// Each line is one of a journal.
pub const NO_LINE: u8 = 32;

/// A mark stands where the turns since the last one have settled the next batch, and nothing stands after the mark of
/// the last batch.
pub const NOT_SETTLED: u8 = 33;

/// A command is the next one of its box in its batch.
pub const NOT_NEXT: u8 = 34;

/// Each batch has its mark.
pub const ENDS_EARLY: u8 = 35;
