// Turns, followed one after another.

ghost use Rattle.std.specs.Prelude.{◌≡◌, ◌+◌, ◌<◌, ◌≤◌, ◌^◌, IfErr, IfOk, List, OnOk, Some, length, slice_get};
ghost use Rattle.mc_box.specs.declared.event.Turn.{Turn};
ghost use Rattle.mc_model.specs.Steps.{run};
ghost use Rattle.mc_model.specs.Worlds.{WorldState};
ghost use Rattle.mc_replay.specs.Follows.{Stands};
ghost use Rattle.mc_segments.specs.Ends.{AreEnds, IsSegmentsFault, may_end};
ghost use Rattle.mc_segments.specs.Following.{EndsHere, FollowsOwn, FollowsTurn, HasFollowed, MakesOwn, fault_at};

use crate::fault::SegmentsFault;
use mc_box::Turn;
use mc_replay::moments::forget;
use mc_replay::retries::count_retry;
use mc_replay::segment::{Segment, TurnFault, begin, keep_moment, step};
use mc_seq::is_command;
use mc_world::World;
use std::alloc::{AllocError, Global};

// The turns since the last end as a segment, the ends, and the last of them, or 0. Of a segment's batch nothing is ever
// left: its commands are those that were made.
#[derive(Drop)]
pub struct Following {
    pub segment: Segment,
    pub ends: Vec<usize>,
    pub from: usize,
}

// No turn is followed yet.
pub fn follow_none(alloc: Global, world: World) -> Result<Following, AllocError>
    ensures world { IfOk result (λ following. following.segment.world ≡ world) }
    ensures followed { IfOk result (λ following. (turns : List Turn) → HasFollowed world turns 0 following) }
{
    let segment = begin(alloc, world, &[])?;
    Ok(Following {
        segment,
        ends: Vec::new(alloc),
        from: 0,
    })
}

impl Following {
    // Follows all turns.
    pub fn follow_all(&mut self, alloc: Global, turns: &[Turn]) -> Result<(), SegmentsFault>
        requires { HasFollowed self.old.segment.world turns.now 0 self.old }
        ensures ends { OnOk result (AreEnds self.old.segment.world turns.now 0 self.new.ends.items) }
        ensures runs { OnOk result (run self.old.segment.world turns.now ≡ Some self.new.segment.world) }
        ensures why { IfErr result (IsSegmentsFault self.old.segment.world turns.now) }
    {
        for place in 0..turns.len() {
            self.follow(alloc, turns, place)?;
        }
        self.end(alloc, turns, turns.len())?;
        Ok(())
    }

    // Follows the turn at a place, before which the segment may end.
    fn follow(&mut self, alloc: Global, turns: &[Turn], place: usize) -> Result<(), SegmentsFault>
        requires stands { Stands self.old.segment }
        requires within { place < length turns.now }
        requires few { self.old.segment.retries.made ≤ place }
        ensures { (world : WorldState) → HasFollowed world turns.now place self.old
            → FollowsTurn world turns.now place result self.new }
    {
        self.end(alloc, turns, place)?;
        match make_own(&mut self.segment, turns[place]) {
            Ok(()) => Ok(()),
            Err(fault) => Err(fault_at(fault, place)),
        }
    }

    // Ends the segment at a place, where it may end and has settled. The next one begins.
    fn end(&mut self, alloc: Global, turns: &[Turn], place: usize) -> Result<(), AllocError>
        requires { Stands self.old.segment }
        ensures ends { (world : WorldState) → HasFollowed world turns.now place self.old
            → OnOk result (EndsHere world turns.now place self.new) }
        ensures stands { OnOk result (Stands self.new.segment) }
        ensures made { OnOk result (self.new.segment.retries.made ≡ self.old.segment.retries.made) }
    {
        if self.from == place || !may_end(turns, place) || !self.segment.is_settled() {
            return Ok(());
        }
        self.ends.push(place)?;
        self.segment.go_on(alloc, &[])?;
        self.from = place;
        Ok(())
    }
}

// Whether a settle may end at a place.
fn may_end(turns: &[Turn], place: usize) -> bool
    ensures { result ≡ may_end (slice_get turns.now place) }
{
    match turns.get(place) {
        None => true,
        Some(turn) => is_command(turn.event),
    }
}

// Why turns aren't followed, where the turn at a place isn't made.
fn fault_at(fault: TurnFault, place: usize) -> SegmentsFault
    ensures { result ≡ fault_at fault place }
{
    match fault {
        TurnFault::NotNext | TurnFault::NotEnabled => SegmentsFault::NotEnabled(place),
        TurnFault::NoMemory(e) => SegmentsFault::NoMemory(e),
    }
}

// Makes a turn, also a command.
fn make_own(segment: &mut Segment, turn: Turn) -> Result<(), TurnFault>
    requires stands { Stands segment.old }
    requires few { segment.old.retries.made + 1 < 2 ^ 64 }
    ensures makes { (begins : WorldState) (turns : List Turn) → FollowsOwn begins turns segment.old
        → MakesOwn begins turns turn result segment.new }
    ensures made { OnOk result (segment.new.retries.made ≤ segment.old.retries.made + 1) }
{
    segment.world.keeps();
    step(&mut segment.world, &mut segment.counts, turn)?;
    count_retry(&mut segment.retries, &segment.world, turn);
    forget(&mut segment.moments, turn.event);
    keep_moment(
        &mut segment.moments,
        &segment.world,
        &segment.left,
        segment.counts,
        &segment.retries,
    )?;
    Ok(())
}
