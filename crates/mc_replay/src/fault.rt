//! Why a journal isn't taken.

ghost use Rattle.std.specs.Prelude.{◌≡◌};
ghost use Rattle.mc_replay.specs.declared.fault.CheckFault.TheVariants as why;
ghost use Rattle.mc_replay.specs.declared.fault.ReplayFault.TheVariants as place;

use std::alloc::AllocError;
use thiserror::Error;

/// Why a journal isn't one of the batches.
#[derive(Debug, Drop, Error)]
pub enum CheckFault {
    /// The first line that breaks a rule, or the end where it does: the rule's number, and one more than the turns that
    /// stand before it in the whole journal.
    #[error("the journal has a fault")]
    At { number: u8, turn: u32 },
    /// Memory ran out.
    #[error("out of memory")]
    NoMemory(AllocError),
}

impl From<AllocError> for CheckFault {
    ghost from_gives = { λ e fault. fault ≡ why.NoMemory e };

    fn from(e: AllocError) -> Self {
        CheckFault::NoMemory(e)
    }
}

/// The first fault of a journal: its rule's number, one more than the turns that stand before it, and how many lines of
/// the journal stand before it.
#[derive(Clone, Copy, PartialEq, Eq, Debug)]
pub struct JournalFault {
    pub number: u8,
    pub turn: u32,
    pub before: u32,
}

/// Why a journal isn't one of the batches, with the place.
#[derive(Debug, Drop, Error)]
pub enum ReplayFault {
    /// The first line that breaks a rule, or the end where it does.
    #[error("the journal has a fault")]
    At(JournalFault),
    /// Memory ran out.
    #[error("out of memory")]
    NoMemory(AllocError),
}

impl From<AllocError> for ReplayFault {
    ghost from_gives = { λ e fault. fault ≡ place.NoMemory e };

    fn from(e: AllocError) -> Self {
        ReplayFault::NoMemory(e)
    }
}
