// What goes through a ring.

use mc_signal::Signal;

/// A signal of one of a channel's tunnels, and the stamp of the turn that sent it.
#[derive(Clone, Copy, PartialEq, Eq, Debug)]
pub struct Stamped {
    pub stamp: u32,
    pub tunnel: u8,
    pub signal: Signal,
}
