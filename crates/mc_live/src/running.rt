// One box that runs freely.

ghost use Rattle.std.specs.Prelude.{◌≡◌, ◌≤◌, [], List, ℕ, IsTrue};
ghost use Rattle.mc_desk.specs.Desks.{operator_count};
ghost use Rattle.mc_desk.specs.declared.request.Request.{Request};
ghost use Rattle.mc_flight.specs.Seats.{IsSameSeat, IsSeatOf, sent_count, taken_count};
ghost use Rattle.mc_live.specs.BoxRuns.{HasRunFreely, IsNewRun};
ghost use Rattle.mc_live.specs.Courses.{IsOn, pace_after, pace_by};
ghost use Rattle.mc_live.specs.declared.course.Pace.TheVariants.{Runs};
ghost use Rattle.mc_live.specs.declared.limit.TheConstants.{FURTHER_ROUND_LIMIT};
ghost use Rattle.mc_worker.specs.declared.worker.Worker.{Worker};

use crate::box_run::BoxRun;
use crate::collecting::{collect, is_running};
use crate::course::{Course, Pace};
use crate::limit::FURTHER_ROUND_LIMIT;
use mc_desk::Desk;
use mc_flight::{Flight, FlightSeat};
use mc_io::Gate;
use mc_worker::laws::join_accounts;
use mc_worker::{Stop, Worker};
use std::sync::Wait;
use std::thread::yield_now;

/// Runs a box until each of its operators has ended and its commands are used up, or it makes no further round: it takes
/// what lies on its desk, makes a round, and so on. With each round it raises the counter of signals in flight by what
/// the round sent and took. All rounds together have one account, as if all commands had been there from the beginning.
pub fn run_box<R: Wait, G: Gate>(
    rt: &R,
    gate: &G,
    operators: u32,
    desk: &Desk,
    flight: &Flight,
    run: &mut BoxRun,
)
    requires operators { operators ≡ operator_count desk.now }
    requires new { IsNewRun desk.now flight.now run.old }
    ensures { HasRunFreely desk.now run.old run.new }
{
    for _ in rt.forever() {
        let found = collect(rt, desk, &mut run.taker, &mut run.worker, &mut run.course);
        if is_over(operators, &run.worker, &run.course) {
            return;
        }
        let moved = go_on(
            gate,
            flight,
            &mut run.worker,
            &mut run.seat,
            &mut run.course,
        );
        pause_unless(found || moved);
    }
    unreachable!()
}

// Whether all operators have ended, and no command is left or the box makes no further round.
fn is_over(operators: u32, worker: &Worker, course: &Course) -> bool
    ensures ended { IsTrue result → operators ≤ course.now.ended }
    ensures used { IsTrue result → course.now.pace ≡ Runs → worker.now.stimuli.items ≡ [] }
{
    course.ended >= u64::from(operators) && (!is_running(&course.pace) || worker.stimuli.is_empty())
}

// One round more, where the box makes rounds. Whether it made a turn.
fn go_on<G: Gate>(
    gate: &G,
    flight: &Flight,
    worker: &mut Worker,
    seat: &mut FlightSeat,
    course: &mut Course,
) -> bool
    requires seat { IsSeatOf flight.now seat.old }
    requires on { (a : Worker) × (asked : List Request)
        × IsOn a worker.old asked (sent_count seat.old) (taken_count seat.old) course.old }
    ensures same { IsSameSeat seat.old seat.new }
    ensures on { (a : Worker) (asked : List Request)
        → IsOn a worker.old asked (sent_count seat.old) (taken_count seat.old) course.old
        → IsOn a worker.new asked (sent_count seat.new) (taken_count seat.new) course.new }
{
    if !is_running(&course.pace) {
        return false;
    }
    join_accounts();
    let end = worker.round(gate, false);
    flight.sent(seat, end.sent);
    flight.took(seat, end.took);
    course.turns += end.turns;
    course.pace = pace_after(course.turns, end.stop);
    end.turns > 0
}

// Whether a box goes on after a round that ended so.
fn pace_after(turns: u32, stop: Stop) -> Pace
    ensures { result ≡ pace_after turns stop }
{
    match stop {
        Stop::Rested | Stop::Spent => pace_by(turns > FURTHER_ROUND_LIMIT),
        Stop::NoMemory(e) => Pace::Refused(e),
        stop => Pace::Stopped(stop),
    }
}

// After too many turns a box makes no round.
fn pace_by(finished: bool) -> Pace
    ensures { result ≡ pace_by finished }
{
    if finished { Pace::Finished } else { Pace::Runs }
}

// Where nothing was found and no turn was made, another thread may run first.
fn pause_unless(busy: bool) {
    if !busy {
        yield_now();
    }
}
