// A round of each box that has work.

ghost use Rattle.std.specs.Prelude.{◌≡◌, [], All, MatchBool};
ghost use Rattle.mc_team.specs.Runs.{CanMakeRound, HasRun, HaveRun, IsLookedAt, IsRan};
ghost use Rattle.mc_worker.specs.Ready.{IsReady};
ghost use Rattle.mc_worker.specs.Rounds.{HasWaitingWork};

use crate::limit::THREAD_LIMIT;
use crate::member::Member;
use mc_io::Gate;
use mc_lane::Lane;
use mc_worker::Logged;
use std::thread::{Threads, for_each_mut};

/// A round of each box that has work, by one call of `Worker::round`, whose answer is kept. The log of every other box
/// is emptied. The boxes run on a few threads, and no order is promised.
pub fn run_boxes<R: Threads + Sync, G: Gate + Sync>(
    rt: &R,
    gate: &G,
    retries: bool,
    members: &mut [Member],
)
    requires ready { All (λ member. IsReady member.worker) members.old }
    ensures { HaveRun retries members.old members.new }
{
    for_each_mut(
        rt,
        members,
        THREAD_LIMIT,
        &|_, member: &mut Member|
            requires { IsReady member.now.worker }
            ensures { HasRun retries member.entry.now member.exit.now }
        { run_box(gate, retries, member) },
    );
}

// A round of a box, where something waits for it.
fn run_box<G: Gate>(gate: &G, retries: bool, member: &mut Member)
    requires { IsReady member.old.worker }
    ensures { HasRun retries member.old member.new }
{
    let works = look_at(member, retries);
    run_where(gate, retries, works, member);
}

// Makes a box ready for a round, and asks whether it has work.
fn look_at(member: &mut Member, retries: bool) -> bool
    requires { IsReady member.old.worker }
    ensures work { MatchBool result
        (HasWaitingWork retries member.new.worker) (HasWaitingWork retries member.new.worker → ⊥) }
    ensures looked { IsLookedAt member.old member.new }
{
    empty(&mut member.worker.log);
    member.worker.stamp = 0;
    member.end = None;
    member.worker.has_waiting_work(retries)
}

// Takes all entries off a log.
fn empty(log: &mut Lane<Logged>)
    ensures { log.new.items ≡ [] }
{
    while let Some(_entry) = log.pop() {}
}

// A round of a box, where it is to make one.
fn run_where<G: Gate>(gate: &G, retries: bool, works: bool, member: &mut Member)
    requires { CanMakeRound member.old.worker }
    ensures { MatchBool works (IsRan retries member.old member.new) (member.new ≡ member.old) }
{
    if works {
        run_member(gate, retries, member);
    }
}

// One round of one box.
fn run_member<G: Gate>(gate: &G, retries: bool, member: &mut Member)
    requires { CanMakeRound member.old.worker }
    ensures { IsRan retries member.old member.new }
{
    member.end = Some(member.worker.round(gate, retries));
}
