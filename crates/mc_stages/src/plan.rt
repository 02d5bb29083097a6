// What a script is to do.

use mc_box::Turn;
use mc_signal::Medium;

/// What happens to a network between two settles.
#[derive(Clone, Copy, Debug, PartialEq, Eq)]
pub enum ChannelChange {
    /// A channel of one tunnel joins two boxes, by their numbers, the initiator's first.
    Join { medium: Medium, from: u32, to: u32 },
    /// A channel, by its number, is cut.
    Cut { channel: u32 },
}

/// What a script does up to a settle: its joins and cuts, in order, and then its batch of commands.
#[derive(Debug, Drop)]
pub struct StagePlan {
    pub growths: Vec<ChannelChange>,
    pub batch: Vec<Turn>,
}
