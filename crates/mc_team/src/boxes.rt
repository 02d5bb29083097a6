// The boxes of a team.

use crate::layout::LaneEnds;
use crate::member::Member;
use mc_model::Channel;

/// The boxes of a team, and the ends of the lanes between them.
#[derive(Drop)]
pub struct TeamBoxes {
    /// The channels that join the boxes.
    pub channels: Vec<Channel>,
    pub members: Vec<Member>,
    /// The two ends of each lane. Lane `2k` leads to the initiator's end of channel `k`, and lane `2k + 1` to the
    /// other.
    pub lanes: Vec<LaneEnds>,
    /// Of each box, by channel end, the lane that leads to it.
    pub ends: Vec<Vec<u32>>,
}
