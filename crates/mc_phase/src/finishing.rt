// All that took part in a phase, after the boxes ran.

ghost use Rattle.std.specs.Prelude.{◌≡◌, ◌++◌, false, map, IfOk, OnOk};
ghost use Rattle.mc_desks.specs.Passes.{lists_of};
ghost use Rattle.mc_live.specs.Courses.{is_refused};
ghost use Rattle.mc_live.specs.Phases.{NoneRefused, member_of};
ghost use Rattle.mc_phase.specs.Asked.{request_lists};
ghost use Rattle.mc_phase.specs.Prepared.{CanClose, IsFinished, all_taken, passes_of, seats_of, takers_of};

use crate::preparing::PhaseParts;
use mc_desk::{Operator, Request, Taker};
use mc_desks::finish_desks;
use mc_flight::{FlightSeat, Totals};
use mc_live::limit::ROOM;
use mc_live::{Asker, BoxRun, Pace};
use mc_team::Member;
use std::alloc::{AllocError, Global};
use std::sync::Wait;

/// What is known after a phase.
#[derive(Drop)]
pub struct Finished {
    pub members: Vec<Member>,
    /// What each box took.
    pub taken: Vec<Vec<Request>>,
    pub totals: Totals,
}

/// Closes desks and counter, and makes the boxes members again. It fails only for want of memory; it may wait, too.
pub fn finish<R: Wait>(rt: &R, alloc: Global, parts: PhaseParts) -> Result<Finished, AllocError>
    requires { CanClose parts }
    ensures { IfOk result (IsFinished parts.askers.items parts.runs.items) }
{
    let PhaseParts {
        desks,
        askers,
        flight,
        mut spare,
        runs,
    } = parts;
    let RunParts {
        members,
        takers,
        taken,
    } = take_apart(alloc, runs, &mut spare)?;
    let passes = take_passes(alloc, askers)?;
    let _rests = finish_desks(rt, alloc, ROOM as usize, desks, takers, passes)?;
    Ok(Finished {
        members,
        taken,
        totals: flight.close(spare),
    })
}

// What boxes that ran freely are taken apart into.
#[derive(Drop)]
struct RunParts {
    members: Vec<Member>,
    takers: Vec<Taker>,
    taken: Vec<Vec<Request>>,
}

// Takes apart boxes that ran freely. Their seats are added to the others.
fn take_apart(
    alloc: Global,
    runs: Vec<BoxRun>,
    seats: &mut Vec<FlightSeat>,
) -> Result<RunParts, AllocError>
    ensures members { IfOk result (λ parts. parts.members.items ≡ map member_of runs.items) }
    ensures takers { IfOk result (λ parts. parts.takers.items ≡ takers_of runs.items) }
    ensures taken { IfOk result (λ parts. request_lists parts.taken.items ≡ all_taken runs.items) }
    ensures seats { OnOk result (seats.new.items ≡ seats.old.items ++ seats_of runs.items) }
{
    let mut members = Vec::with_capacity(alloc, runs.len())?;
    let mut takers = Vec::with_capacity(alloc, runs.len())?;
    let mut taken = Vec::with_capacity(alloc, runs.len())?;
    for run in runs {
        let BoxRun {
            worker,
            taker,
            seat,
            course,
        } = run;
        members.push(Member { worker, end: None })?;
        takers.push(taker)?;
        taken.push(course.taken)?;
        seats.push(seat)?;
    }
    Ok(RunParts {
        members,
        takers,
        taken,
    })
}

// The passes of each operator.
fn take_passes(alloc: Global, askers: Vec<Asker>) -> Result<Vec<Vec<Operator>>, AllocError>
    ensures { IfOk result (λ passes. lists_of passes.items ≡ passes_of askers.items) }
{
    let mut passes = Vec::with_capacity(alloc, askers.len())?;
    for asker in askers {
        passes.push(asker.passes)?;
    }
    Ok(passes)
}

/// Fails where memory was wanting for a box.
pub fn none_refused(runs: &[BoxRun]) -> Result<(), AllocError>
    ensures { IfOk result (λ done. NoneRefused runs.now) }
{
    for run in runs {
        refusal(&run.course.pace)?;
    }
    Ok(())
}

// Fails where memory was wanting.
fn refusal(pace: &Pace) -> Result<(), AllocError>
    ensures { IfOk result (λ done. is_refused pace.now ≡ false) }
{
    match pace {
        Pace::Refused(e) => Err(*e),
        _ => Ok(()),
    }
}
