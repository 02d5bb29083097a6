// Where the turns of a call settle.

use crate::equal::is_equal;
use crate::fault::TestFault;
use crate::networks::row;
use crate::steps::TURNS;
use mc_box::{Event, Turn};
use mc_script::{Batch, JournalLine};
use mc_segments::{SegmentsFault, settled_batches, settled_ends, settled_lines};
use std::alloc::{AllocError, Global};
use std::process::Abort;

// Some of the turns of the call through a feature.
fn call(alloc: Global, part: &[(u32, Event)]) -> Result<Vec<Turn>, AllocError> {
    let mut turns = Vec::new(alloc);
    for (who, event) in part {
        turns.push(Turn {
            who: *who,
            event: *event,
        })?;
    }
    Ok(turns)
}

// Where turns of a row settle, or the place of the one that can't happen.
fn ends_of(alloc: Global, turns: &[Turn]) -> Result<Result<Vec<usize>, usize>, TestFault> {
    let world = row(alloc, 2)?;
    match settled_ends(alloc, world, turns) {
        Ok(segments) => Ok(Ok(segments.ends)),
        Err(SegmentsFault::NotEnabled(place)) => Ok(Err(place)),
        Err(SegmentsFault::NoMemory(e)) => Err(TestFault::NoMemory(e)),
    }
}

// How many commands each batch has.
fn sizes(alloc: Global, batches: &[Batch]) -> Result<Vec<usize>, AllocError> {
    let mut sizes = Vec::new(alloc);
    for batch in batches {
        sizes.push(batch.turns.len())?;
    }
    Ok(sizes)
}

// Which lines are marks.
fn marks(alloc: Global, lines: &[JournalLine]) -> Result<Vec<usize>, AllocError> {
    let mut marks = Vec::new(alloc);
    for (place, line) in lines.iter().enumerate() {
        if *line == JournalLine::Settled {
            marks.push(place)?;
        }
    }
    Ok(marks)
}

// These turns settle at these places.
fn settles_at<R: Abort + AllocGlobal>(
    rt: &R,
    part: &[(u32, Event)],
    ends: &[usize],
) -> Result<(), TestFault> {
    let turns = call(rt.alloc(), part)?;
    let got = ends_of(rt.alloc(), &turns)?;
    is_equal(
        rt,
        &got.as_ref().map(|got| got.as_slice()).ok(),
        &Some(ends),
    );
    Ok(())
}

#[test]
fn a_call_settles_before_commands_and_at_its_end(rt: HostRuntime) -> Result<(), TestFault> {
    // the link; then the call, which flows; then bob closes, and alice tries again once
    settles_at(&rt, &TURNS, &[1, 11, 23])?;
    // before the retry nothing is under way, but it is owed
    settles_at(&rt, &TURNS[..16], &[1, 11])
}

#[test]
fn nothing_is_taken_where_nothing_was_sent(rt: HostRuntime) -> Result<(), TestFault> {
    // bob closes what is closed
    let turns = call(rt.alloc(), &TURNS[11..])?;
    let got = ends_of(rt.alloc(), &turns)?;
    is_equal(&rt, &got.err(), &Some(1));
    Ok(())
}

#[test]
fn a_mark_stands_after_each_settle(rt: HostRuntime) -> Result<(), TestFault> {
    let turns = call(rt.alloc(), &TURNS)?;
    let lines = settled_lines(rt.alloc(), &turns, &[1, 11])?;
    is_equal(&rt, &lines.len(), &13);
    is_equal(
        &rt,
        &marks(rt.alloc(), &lines)?.as_slice(),
        &[1, 12].as_slice(),
    );
    Ok(())
}

#[test]
fn a_batch_has_the_commands_of_its_settle(rt: HostRuntime) -> Result<(), TestFault> {
    let turns = call(rt.alloc(), &TURNS)?;
    let batches = settled_batches(rt.alloc(), &turns, &[1, 11, 23])?;
    is_equal(
        &rt,
        &sizes(rt.alloc(), &batches)?.as_slice(),
        &[1, 2, 1].as_slice(),
    );
    Ok(())
}
