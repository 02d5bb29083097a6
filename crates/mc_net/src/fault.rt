//! Why a text isn't taken.

ghost use Rattle.std.specs.Prelude.{◌≡◌};
ghost use Rattle.mc_net.specs.declared.fault.NetFault.TheVariants as net;

use std::alloc::AllocError;
use thiserror::Error;

/// The first line of a text that breaks a rule, counted from 1, and the least number of the rules that it breaks. The
/// end of the text is one more line.
#[derive(Clone, Copy, PartialEq, Eq, Debug)]
pub struct TextFault {
    pub number: u8,
    pub line: u32,
}

/// Why a text declares no network. What is displayed of it tells no number and no line: these are in the fault.
#[derive(Debug, Drop, Error)]
pub enum NetFault {
    /// The text isn't in the grammar.
    #[error("the text has a fault")]
    Line(TextFault),
    /// Memory ran out.
    #[error("out of memory")]
    NoMemory(AllocError),
}

impl From<AllocError> for NetFault {
    ghost from_gives = { λ e fault. fault ≡ net.NoMemory e };

    fn from(e: AllocError) -> Self {
        NetFault::NoMemory(e)
    }
}
