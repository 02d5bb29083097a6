// A box of a team.

use mc_worker::{RoundEnd, Worker};

/// A box of a team with its ports, and how its last round ended, where it made one.
#[derive(Drop)]
pub struct Member {
    pub worker: Worker,
    pub end: Option<RoundEnd>,
}
