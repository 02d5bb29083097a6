// What a box is asked comes to its worker.

ghost use Rattle.std.specs.Prelude.{◌≡◌, ◌+◌, ◌^◌, ◌<◌, ◌≤◌, ◌++◌, ◌∷◌, [], List, Some, ℕ, length, IsTrue, OnOk};
ghost use Rattle.mc_box.specs.BoxEvents.{is_command};
ghost use Rattle.mc_box.specs.BoxShapes.{box_shape, is_enabled_by};
ghost use Rattle.mc_desk.specs.Desks.{IsSameTaker, IsTakerOf, taken_by};
ghost use Rattle.mc_desk.specs.declared.request.Request.{Request};
ghost use Rattle.mc_live.specs.Courses.{IsOn, MeetsEvent, TakesIn, is_refused};
ghost use Rattle.mc_live.specs.Requests.{AreOfDesk, end_in};
ghost use Rattle.mc_live.specs.declared.course.Pace.TheVariants.{Runs};
ghost use Rattle.mc_worker.specs.Ready.{IsReady};
ghost use Rattle.mc_worker.specs.declared.worker.Worker.{Worker};

use crate::course::{Course, Pace};
use crate::limit::ROOM;
use mc_box::{Event, MediaBox};
use mc_desk::{Desk, Request, Taker};
use mc_worker::Worker;
use mc_worker::laws::join_accounts;
use std::alloc::AllocError;
use std::sync::Wait;

/// Takes what lies on a box's desk, as much as there is room for at once. Whether something lay there.
pub(crate) fn collect<R: Wait>(
    rt: &R,
    desk: &Desk,
    taker: &mut Taker,
    worker: &mut Worker,
    course: &mut Course,
) -> bool
    requires taker { IsTakerOf desk.now taker.old }
    requires known { AreOfDesk desk.now (taken_by taker.old) }
    requires on { (a : Worker) × (sent : ℕ) × (took : ℕ) × IsOn a worker.old (taken_by taker.old) sent took course.old }
    ensures same { IsSameTaker taker.old taker.new }
    ensures known { AreOfDesk desk.now (taken_by taker.new) }
    ensures on { (a : Worker) (sent took : ℕ) → IsOn a worker.old (taken_by taker.old) sent took course.old
        → IsOn a worker.new (taken_by taker.new) sent took course.new }
{
    let mut found = false;
    for _ in 0..ROOM {
        match desk.next(rt, taker) {
            None => return found,
            Some(request) => take_in(request, worker, course),
        }
        found = true;
    }
    found
}

// Takes in one request. Without memory the box drops it, and each later one, but counts the ends of operators.
fn take_in(request: Request, worker: &mut Worker, course: &mut Course)
    requires { (a : Worker) × (asked : List Request) × (sent : ℕ) × (took : ℕ)
        × IsOn a worker.old asked sent took course.old }
    ensures on { (a : Worker) (asked : List Request) (sent took : ℕ) → IsOn a worker.old asked sent took course.old
        → IsOn a worker.new (asked ++ request ∷ []) sent took course.new }
    ensures ended { course.old.ended + 1 < 2 ^ 64 → course.new.ended ≡ course.old.ended + end_in request.event }
{
    join_accounts();
    if is_refused(&course.pace) {
        count_end(request.event, course);
        return;
    }
    if let Err(e) = keep(request, worker, course) {
        course.pace = Pace::Refused(e);
    }
}

// An end is counted, which needs no memory, a request kept, and what is asked comes to the worker.
fn keep(request: Request, worker: &mut Worker, course: &mut Course) -> Result<(), AllocError>
    requires ready { IsReady worker.old }
    requires few { course.old.ended ≤ length course.old.taken.items }
    ensures ready { IsReady worker.new }
    ensures ended { course.new.ended ≡ course.old.ended + end_in request.event }
    ensures taken { OnOk result (TakesIn request worker.old worker.new course.old course.new) }
{
    count_end(request.event, course);
    course.taken.push(request)?;
    meet(request.event, worker, course)
}

// Counts the end of an operator, as far as numbers go.
fn count_end(event: Option<Event>, course: &mut Course)
    ensures others { course.new ≡ record course.old { ended = course.new.ended } }
    ensures ended { course.old.ended + 1 < 2 ^ 64 → course.new.ended ≡ course.old.ended + end_in event }
{
    if event.is_none() {
        course.ended = course.ended.saturating_add(1);
    }
}

// What is asked comes to the worker.
fn meet(event: Option<Event>, worker: &mut Worker, course: &mut Course) -> Result<(), AllocError>
    requires ready { IsReady worker.old }
    ensures ready { IsReady worker.new }
    ensures met { OnOk result (MeetsEvent event worker.old worker.new course.old course.new) }
    ensures others { course.new ≡ record course.old { kept = course.new.kept; pace = course.new.pace } }
{
    match event {
        None => Ok(()),
        Some(event) => command(event, worker, course),
    }
}

// A command comes to the worker, where the box can make it. From the first on that it can't make all are kept apart.
fn command(event: Event, worker: &mut Worker, course: &mut Course) -> Result<(), AllocError>
    requires ready { IsReady worker.old }
    ensures ready { IsReady worker.new }
    ensures met { OnOk result (MeetsEvent (Some event) worker.old worker.new course.old course.new) }
    ensures others { course.new ≡ record course.old { kept = course.new.kept; pace = course.new.pace } }
{
    if course.kept.is_empty() && allows(&worker.part, event) {
        return worker.add(event);
    }
    course.kept.reserve(1)?;
    course.kept.push(event);
    if is_running(&course.pace) {
        course.pace = Pace::Unfit;
    }
    Ok(())
}

// Whether an event is a command that the shape of a box enables.
#[tactic(auto, using(mc_box::proofs::ShapeEnables::shape_enables))]
fn allows(part: &MediaBox, event: Event) -> bool
    ensures { result ≡ is_enabled_by (box_shape part.now) event }
{
    is_command(event) && part.enabled(&event)
}

// Whether an event comes from a command.
fn is_command(event: Event) -> bool
    ensures { result ≡ is_command event }
{
    matches!(event, Event::Set(_) | Event::Media(_) | Event::Tell(_))
}

// Whether memory was wanting.
fn is_refused(pace: &Pace) -> bool
    ensures { result ≡ is_refused pace.now }
{
    matches!(pace, Pace::Refused(_))
}

/// Whether a box makes rounds.
pub(crate) fn is_running(pace: &Pace) -> bool
    ensures is { IsTrue result → pace.now ≡ Runs }
    ensures only { pace.now ≡ Runs → IsTrue result }
{
    matches!(pace, Pace::Runs)
}
