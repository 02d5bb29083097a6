// What came of each operator, counted.

use crate::equal::is_equal;
use mc_desk::Request;
use std::process::Abort;

/// How many requests came of each operator of a desk, and how many operators have ended.
#[derive(Drop)]
pub struct Tally {
    pub came: [u32; 8],
    pub ended: u32,
}

impl Tally {
    /// Before any request came.
    pub fn new() -> Tally {
        Tally {
            came: [0; 8],
            ended: 0,
        }
    }

    /// Counts a request, whose index is the number of those that came of its operator before.
    pub fn count(&mut self, rt: &impl Abort, request: &Request) {
        let came = self
            .came
            .get_mut(request.operator as usize)
            .expect(rt, "no operator has this number");
        is_equal(rt, &request.index, came);
        *came = came.saturating_add(1);
        if request.event.is_none() {
            self.ended = self.ended.saturating_add(1);
        }
    }
}
