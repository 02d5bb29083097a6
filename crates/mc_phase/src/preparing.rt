// All that takes part in a phase, before the boxes run.

ghost use Rattle.std.specs.Prelude.{◌≡◌, ◌<◌, ◌≤◌, ◌++◌, length, IfOk};
ghost use Rattle.std.specs.List.{AllByRecursion};
ghost use Rattle.mc_desk.specs.declared.limit.TheConstants.{OPERATOR_LIMIT};
ghost use Rattle.mc_desks.specs.Laid.{AreNewPasses};
ghost use Rattle.mc_desks.specs.Passes.{lists_of};
ghost use Rattle.mc_flight.specs.declared.limit.TheConstants.{SEAT_LIMIT};
ghost use Rattle.mc_phase.specs.Prepared.{AreAskersOf, CanBeFree, IsPrepared};

use crate::setting_free::set_free;
use mc_desk::{Desk, Operator};
use mc_desks::{Desks, lay_desks};
use mc_flight::{Flight, FlightSeat};
use mc_live::limit::ROOM;
use mc_live::{Asker, BoxRun};
use mc_team::Member;
use std::alloc::{AllocError, Global};

/// All that takes part in a phase.
#[derive(Drop)]
pub struct PhaseParts {
    /// The desk of each box.
    pub desks: Vec<Desk>,
    pub askers: Vec<Asker>,
    pub flight: Flight,
    /// The seats that no box has.
    pub spare: Vec<FlightSeat>,
    pub runs: Vec<BoxRun>,
}

/// Sets all boxes of a team free, each with a desk of its own at which so many operators, 1 to 8, ask, and with a seat
/// at a new counter. It fails only for want of memory.
pub fn prepare(
    alloc: Global,
    operators: u32,
    members: Vec<Member>,
) -> Result<PhaseParts, AllocError>
    requires operators { (0 < operators) × (operators ≤ OPERATOR_LIMIT) }
    requires few { length members.items ≤ SEAT_LIMIT }
    requires free { AllByRecursion CanBeFree members.items }
    ensures { IfOk result (IsPrepared operators members.items) }
{
    let count = members.len();
    let Desks {
        desks,
        takers,
        passes,
    } = lay_desks(alloc, operators, count, ROOM as usize)?;
    let askers = askers_of(alloc, &desks, passes)?;
    let (flight, mut spare) = Flight::new(alloc, seats_for(count))?;
    let runs = set_free(alloc, &flight, &desks, members, takers, &mut spare)?;
    Ok(PhaseParts {
        desks,
        askers,
        flight,
        spare,
        runs,
    })
}

// How many seats the counter of so many boxes has: one for each, and one where there is none.
fn seats_for(count: usize) -> u32
    requires few { count ≤ SEAT_LIMIT }
    ensures some { 0 < result }
    ensures few { result ≤ SEAT_LIMIT }
    ensures all { count ≤ result }
{
    if count == 0 { 1 } else { count as u32 }
}

// The operators with these passes, in the order of their numbers.
fn askers_of(
    alloc: Global,
    desks: &[Desk],
    passes: Vec<Vec<Operator>>,
) -> Result<Vec<Asker>, AllocError>
    requires few { length passes.items ≤ OPERATOR_LIMIT }
    requires new { AreNewPasses desks.now (lists_of passes.items) }
    ensures { IfOk result (λ askers. AreAskersOf desks.now (length passes.items) askers.items) }
{
    let mut askers = Vec::with_capacity(alloc, passes.len())?;
    for own in passes {
        let number = askers.len() as u32;
        askers.push(Asker {
            number,
            passes: own,
            asks: 0,
        })?;
    }
    Ok(askers)
}
