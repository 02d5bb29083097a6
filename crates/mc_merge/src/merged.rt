// The turns of all parts, by the times at which they were made.

ghost use Rattle.std.specs.Prelude.{◌≡◌, ℕ, ◌+◌, ◌^◌, ◌<◌, ◌≤◌, [], ◌++◌, length, vec_capacity, vec_len, IfSome, IsTrue, OnErr, OnOk};
ghost use Rattle.mc_merge.specs.Weaving.{AddsMerged, AreClimbing, AreKnown, AreWritten, Climb, IsKnown, IsNext, IsPast, IsWhole};
ghost use Rattle.mc_merge.specs.Weaving.{IsWritten, TakesTurn, TakesUntil, clocks_of, entry_count, log_at, logs_of, made_stamps};
ghost use Rattle.mc_merge.specs.Weaving.{numbers_of, sooner, sooner_of_two};

use crate::log::{Made, PartLog};
use mc_box::Turn;
use mc_lane::Lane;
use std::alloc::AllocError;

/// No entry is made as late as this.
pub const LAST_TIME: u64 = u64::MAX;

/// Which log goes on, with the time of its front, and up to which time: no other log has an entry before that.
#[derive(Clone, Copy, Debug)]
pub struct NextLog {
    pub part: usize,
    pub time: u64,
    pub until: u64,
}

/// Takes all entries out of these logs, and adds their turns to those before: those of a log in their own order, and
/// none after one with a greater time. Of logs whose times don't meet each goes over as a whole, and where its turns are
/// written down, these do.
///
/// It fails only for want of memory, and changes nothing then.
pub fn merge(logs: &mut [PartLog], turns: &mut Vec<Turn>) -> Result<(), AllocError>
    requires few { entry_count (logs_of logs.old) < 2 ^ 32 }
    requires known { AreKnown logs.old }
    requires climb { AreClimbing (logs_of logs.old) }
    requires written { AreWritten logs.old }
    ensures merged { OnOk result (AddsMerged logs.old turns.old.items turns.new.items) }
    ensures empty { OnOk result ((part : ℕ) → log_at (logs_of logs.new) part ≡ []) }
    ensures numbers { numbers_of logs.new ≡ numbers_of logs.old }
    ensures clocks { clocks_of logs.new ≡ clocks_of logs.old }
    ensures same { OnErr result (logs_of logs.new ≡ logs_of logs.old) }
    ensures kept { OnErr result (turns.new.items ≡ turns.old.items) }
{
    turns.reserve(count(logs))?;
    merge_all(logs, turns);
    Ok(())
}

// How many entries there are.
fn count(logs: &[PartLog]) -> usize
    requires { entry_count (logs_of logs.now) < 2 ^ 32 }
    ensures { result ≡ entry_count (logs_of logs.now) }
{
    let mut all = 0;
    for log in logs {
        all += log.made.len();
    }
    all
}

// Takes the entries of one log after another, each time as many as come before those of others. There is room for all.
fn merge_all(logs: &mut [PartLog], turns: &mut Vec<Turn>)
    requires room { vec_len turns.old + entry_count (logs_of logs.old) ≤ vec_capacity turns.old }
    requires known { AreKnown logs.old }
    requires climb { AreClimbing (logs_of logs.old) }
    requires written { AreWritten logs.old }
    ensures merged { AddsMerged logs.old turns.old.items turns.new.items }
    ensures empty { (part : ℕ) → log_at (logs_of logs.new) part ≡ [] }
    ensures numbers { numbers_of logs.new ≡ numbers_of logs.old }
    ensures clocks { clocks_of logs.new ≡ clocks_of logs.old }
{
    while let Some(next) = next_log(logs) {
        take_log(next.until, &mut logs[next.part], turns);
    }
}

// The log that goes on, if an entry is left.
fn next_log(logs: &[PartLog]) -> Option<NextLog>
    ensures { IsNext (clocks_of logs.now) (logs_of logs.now) (length logs.now) result }
{
    let mut best = None;
    for part in 0..logs.len() {
        let log = &logs[part];
        best = sooner(best, part, log.clock, log.made.front());
    }
    best
}

// The one of two that goes on, where the other has this front.
fn sooner(best: Option<NextLog>, part: usize, clock: u64, front: Option<Made>) -> Option<NextLog>
    requires { clock < 2 ^ 63 }
    ensures sooner { result ≡ sooner best part clock front }
    ensures fits { IfSome front (λ made. clock + made.stamp ≤ LAST_TIME) }
{
    match (best, front) {
        (Some(next), Some(made)) => Some(sooner_of_two(next, part, clock + made.stamp as u64)),
        (None, Some(made)) => Some(NextLog {
            part,
            time: clock + made.stamp as u64,
            until: LAST_TIME,
        }),
        (_, None) => best,
    }
}

// That with the lower time.
fn sooner_of_two(next: NextLog, part: usize, time: u64) -> NextLog
    ensures { result ≡ sooner_of_two next part time }
{
    if next.time <= time {
        NextLog {
            until: next.until.min(time),
            ..next
        }
    } else {
        NextLog {
            part,
            time,
            until: next.time,
        }
    }
}

// Takes the entries of a log up to a time: where that is all of them, and their turns are written down, at once. There
// is room for them among the turns.
fn take_log(until: u64, log: &mut PartLog, turns: &mut Vec<Turn>)
    requires room { vec_len turns.old + length log.old.made.items ≤ vec_capacity turns.old }
    requires known { IsKnown log.old.numbers.items log.old.made.items }
    requires climb { Climb (made_stamps log.old.made.items) }
    requires written { IsWritten log.old.numbers.items log.old.made.items log.old.turns.items }
    ensures takes { TakesUntil until log.old log.new turns.old.items turns.new.items }
    ensures stops { IsPast until log.new.clock log.new.made.items }
    ensures written { log.new.turns.items ≡ [] }
    ensures numbers { log.new.numbers ≡ log.old.numbers }
    ensures clock { log.new.clock ≡ log.old.clock }
    ensures capacity { vec_capacity turns.old ≤ vec_capacity turns.new }
{
    if is_whole(until, log) {
        take_whole(log, turns);
    } else {
        take_until(until, log, turns);
        log.turns.clear();
    }
}

// Whether the turns of a log are written down, and its last entry comes up to a time.
fn is_whole(until: u64, log: &PartLog) -> bool
    requires climb { Climb (made_stamps log.now.made.items) }
    requires written { IsWritten log.now.numbers.items log.now.made.items log.now.turns.items }
    ensures { IsTrue result → IsWhole until log.now }
{
    let count = log.made.len();
    if count == 0 || log.turns.len() != count {
        return false;
    }
    log.clock + log.made.get(count - 1).stamp as u64 <= until
}

// Takes all entries out of a log, whose turns are written down. There is room for them.
fn take_whole(log: &mut PartLog, turns: &mut Vec<Turn>)
    requires room { vec_len turns.old + length log.old.turns.items ≤ vec_capacity turns.old }
    ensures added { turns.new.items ≡ turns.old.items ++ log.old.turns.items }
    ensures empty { log.new.made.items ≡ [] }
    ensures written { log.new.turns.items ≡ [] }
    ensures numbers { log.new.numbers ≡ log.old.numbers }
    ensures clock { log.new.clock ≡ log.old.clock }
    ensures capacity { vec_capacity turns.old ≤ vec_capacity turns.new }
{
    append_reserved(turns, &mut log.turns);
    clear(&mut log.made);
}

// Moves turns to the end of others, where there is room for them.
fn append_reserved(turns: &mut Vec<Turn>, more: &mut Vec<Turn>)
    requires { vec_len turns.old + vec_len more.old ≤ vec_capacity turns.old }
    ensures added { turns.new.items ≡ turns.old.items ++ more.old.items }
    ensures moved { more.new.items ≡ [] }
    ensures capacity { vec_capacity turns.old ≤ vec_capacity turns.new }
{
    match turns.append(more) {
        Ok(()) => {}
        Err(_) => unreachable!(),
    }
}

// Takes all entries out.
fn clear(made: &mut Lane<Made>)
    ensures { made.new.items ≡ [] }
{
    while let Some(_made) = made.pop() {}
}

// Takes entries out of a log up to a time. There is room for them among the turns.
fn take_until(until: u64, log: &mut PartLog, turns: &mut Vec<Turn>)
    requires room { vec_len turns.old + length log.old.made.items ≤ vec_capacity turns.old }
    requires known { IsKnown log.old.numbers.items log.old.made.items }
    ensures takes { TakesUntil until log.old log.new turns.old.items turns.new.items }
    ensures stops { IsPast until log.new.clock log.new.made.items }
    ensures numbers { log.new.numbers ≡ log.old.numbers }
    ensures clock { log.new.clock ≡ log.old.clock }
    ensures capacity { vec_capacity turns.new ≡ vec_capacity turns.old }
{
    while let Some(first) = log.made.front() {
        if log.clock + first.stamp as u64 > until {
            return;
        }
        let turn = take_turn(log);
        turns.push_reserved(turn);
    }
}

// The oldest entry leaves a log that isn't empty. Its turn, by the box's number in the world.
fn take_turn(log: &mut PartLog) -> Turn
    requires some { 0 < length log.old.made.items }
    requires known { IsKnown log.old.numbers.items log.old.made.items }
    ensures turn { TakesTurn log.old log.new result }
    ensures numbers { log.new.numbers ≡ log.old.numbers }
    ensures clock { log.new.clock ≡ log.old.clock }
{
    match log.made.pop() {
        Some(made) => Turn {
            who: log.numbers[made.who as usize],
            event: made.event,
        },
        None => unreachable!(),
    }
}
