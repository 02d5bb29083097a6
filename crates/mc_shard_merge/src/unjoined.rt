// Why journals don't agree.

/// Why the journals of two shards don't agree on a lane.
#[derive(Clone, Copy, PartialEq, Eq, Debug)]
pub enum WhyUnjoined {
    /// There is no shard of one of the two numbers.
    NoShard,
    /// The entry at this place in the taker's journal, from 0 on, took what wasn't sent.
    NotSent(usize),
}

/// The first of the joined ends on which journals don't agree, by its place among them, from 0 on, and why.
#[derive(Clone, Copy, PartialEq, Eq, Debug)]
pub struct Unjoined {
    pub place: usize,
    pub why: WhyUnjoined,
}
