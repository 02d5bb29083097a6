// Why a writer makes no turn.

use mc_shard::Refused;

/// Why a writer makes no turn.
#[derive(Clone, Copy, PartialEq, Eq, Debug)]
pub enum NoTurn {
    /// The entry of the last turn doesn't stand yet.
    Waits,
    /// The shard makes none, for this cause.
    Refused(Refused),
}
