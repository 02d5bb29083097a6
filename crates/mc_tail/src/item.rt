// What lines after `grow` say.

use mc_script::Command;
use mc_signal::Medium;

/// What a line after `grow` says.
#[derive(Clone, Copy, PartialEq, Eq, Debug)]
pub enum Item {
    /// A command.
    Line(Command),
    /// A channel of one tunnel joins two boxes, the initiator's first. Its slot comes last in each of them.
    Join { medium: Medium, from: u32, to: u32 },
    /// A channel is cut. Channels are numbered in the order in which they were declared and joined.
    Cut { channel: u32 },
}
