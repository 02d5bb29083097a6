// The boxes of a team, set free.

ghost use Rattle.std.specs.Prelude.{◌≡◌, ◌≤◌, ◌++◌, length, IfOk, IsPermutation};
ghost use Rattle.std.specs.List.{AllByRecursion, AllZip};
ghost use Rattle.mc_desks.specs.Laid.{IsNewTaker};
ghost use Rattle.mc_live.specs.BoxRuns.{AreNewRuns};
ghost use Rattle.mc_live.specs.Phases.{AreSetFree};
ghost use Rattle.mc_phase.specs.Prepared.{CanBeFree, IsFreed, IsNewSeat, seats_of};

use mc_desk::{Desk, Taker};
use mc_flight::{Flight, FlightSeat};
use mc_lane::Lane;
use mc_live::{BoxRun, Course};
use mc_team::Member;
use std::alloc::{AllocError, Global};

/// Sets boxes free, each with the taker of its place and with a seat. It fails only for want of memory.
pub fn set_free(
    alloc: Global,
    flight: &Flight,
    desks: &[Desk],
    members: Vec<Member>,
    takers: Vec<Taker>,
    seats: &mut Vec<FlightSeat>,
) -> Result<Vec<BoxRun>, AllocError>
    requires free { AllByRecursion CanBeFree members.items }
    requires count { length members.items ≡ length desks.now }
    requires takers { AllZip IsNewTaker desks.now takers.items }
    requires seats { AllByRecursion (IsNewSeat flight.now) seats.old.items }
    requires enough { length members.items ≤ length seats.old.items }
    ensures free { IfOk result (λ runs. AreSetFree members.items runs.items) }
    ensures new { IfOk result (λ runs. AreNewRuns flight.now desks.now runs.items) }
    ensures seats { IfOk result (λ runs. IsPermutation seats.old.items (seats.new.items ++ seats_of runs.items)) }
{
    let mut runs = Vec::with_capacity(alloc, members.len())?;
    let mut takers = takers.into_iter();
    for member in members {
        let Some(taker) = takers.next() else {
            unreachable!()
        };
        let Some(seat) = seats.pop() else {
            unreachable!()
        };
        runs.push(free_one(alloc, member, taker, seat))?;
    }
    Ok(runs)
}

// Sets one box free: its log is empty, and its stamp is 0.
fn free_one(alloc: Global, member: Member, taker: Taker, seat: FlightSeat) -> BoxRun
    requires { CanBeFree member }
    ensures { IsFreed member taker seat result }
{
    let mut worker = member.worker;
    worker.log = Lane::new(alloc);
    worker.stamp = 0;
    BoxRun {
        worker,
        taker,
        seat,
        course: Course::new(alloc),
    }
}
