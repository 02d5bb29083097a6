// Which ends lanes join.

/// A lane between two shards: the number of the shard that sends into it, and the channel end there; and the same for
/// the shard that takes from it.
#[derive(Clone, Copy, PartialEq, Eq, Debug)]
pub struct JoinedEnds {
    pub from: u32,
    pub out: u32,
    pub to: u32,
    pub into: u32,
}
