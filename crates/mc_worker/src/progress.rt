// What a round keeps beside its worker.

ghost use Rattle.std.specs.Prelude.{◌≡◌};

use crate::stop::{RoundEnd, Stop};

/// How far a round has come: how many channel ends it has passed, at which nothing is left, how many turns it has made,
/// and how many signals these sent and took.
#[derive(Clone, Copy)]
pub struct Progress {
    pub passed: usize,
    pub turns: u32,
    pub sent: u32,
    pub took: u32,
}

/// Where each round begins.
pub const START: Progress = Progress {
    passed: 0,
    turns: 0,
    sent: 0,
    took: 0,
};

impl Progress {
    /// The round ends for this reason.
    pub fn ended(self, stop: Stop) -> RoundEnd
        ensures { result ≡ record { turns = self.turns; sent = self.sent; took = self.took; stop = stop } }
    {
        RoundEnd {
            turns: self.turns,
            sent: self.sent,
            took: self.took,
            stop,
        }
    }
}
