// How a script ends.

use mc_script::JournalLine;
use mc_seq::SettleStop;

/// Why a script of a network that grows stopped before its end.
#[derive(Clone, Copy, Debug, PartialEq, Eq)]
pub enum GrownStop {
    /// A settle stopped.
    Settle(SettleStop),
    /// A channel was to be cut while this slot of it, by its number, isn't closed, or has another goal than close. It is
    /// the least such slot of the channel.
    Cut(u32),
}

/// What a script printed, its journal, and why it stopped before its end, if it did.
#[derive(Debug, Drop)]
pub struct ScriptRun {
    pub output: Vec<u8>,
    pub journal: Vec<JournalLine>,
    pub stop: Option<GrownStop>,
}
