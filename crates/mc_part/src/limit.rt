// The limits of stamps and looks.

/// No stamp of a phase is above this: so many turns all parts make in one at most.
pub const STAMP_LIMIT: u32 = 1 << 25;

/// How many looks in turn that find nothing end a part, where no part is busy.
pub const QUIET_LIMIT: u32 = 2;

/// How many end it in any case: about as many as another thread takes to begin. Where all processors have other work, each
/// of them may take a while.
pub const IDLE_LIMIT: u32 = 256;

/// The most looks of a part.
pub const LOOK_LIMIT: u32 = 1 << 25;
