// What is left on desks once all operators have ended.

ghost use Rattle.std.specs.Prelude.{◌≡◌, ◌≤◌, ℕ, List, Some, length, slice_get, IfOk};
ghost use Rattle.std.specs.List.{AllByRecursion, AllZip};
ghost use Rattle.mc_desk.specs.Desks.{AreOperatorsOf, IsTakerOf, accepted_at, operator_count, room_of, taken_by};
ghost use Rattle.mc_desk.specs.Histories.{IsHistory};
ghost use Rattle.mc_desks.specs.Finished.{AreByDesk, AreHistories, AreRests, CanFinish};
ghost use Rattle.mc_desks.specs.Passes.{ArePassesOf, lists_of};
ghost use Rattle.mc_desk.specs.declared.desk.Operator.{Operator};

use crate::dealing::deal;
use crate::laying::empty_lists;
use mc_desk::{Desk, Operator, Request, Taker};
use mc_lane::Lane;
use std::alloc::{AllocError, Global};
use std::sync::Wait;

/// What is left on each desk, the oldest first. It wants the takers of all desks and all passes of each operator back,
/// in their order. Of each operator, the requests that were taken at a desk and then those that are left there are the
/// ones that were accepted, in their order and each once. It fails only for want of memory; it may wait, too.
pub fn finish_desks<R: Wait>(
    rt: &R,
    alloc: Global,
    room: usize,
    desks: Vec<Desk>,
    takers: Vec<Taker>,
    passes: Vec<Vec<Operator>>,
) -> Result<Vec<Lane<Request>>, AllocError>
    requires { CanFinish room desks.items takers.items (lists_of passes.items) }
    ensures { IfOk result (λ rests. AreRests takers.items (lists_of passes.items) rests.items) }
{
    let columns = by_desk(alloc, &desks, passes)?;
    finish_each(rt, alloc, room, desks, takers, columns)
}

// The passes of all operators, desk by desk.
fn by_desk(
    alloc: Global,
    desks: &[Desk],
    passes: Vec<Vec<Operator>>,
) -> Result<Vec<Vec<Operator>>, AllocError>
    requires operators { AllByRecursion (λ desk. length passes.items ≡ operator_count desk) desks.now }
    requires passes { (operator : ℕ) (list : List Operator)
        → slice_get (lists_of passes.items) operator ≡ Some list → ArePassesOf desks.now operator list }
    ensures { IfOk result (λ columns. AreByDesk desks.now (lists_of passes.items) (lists_of columns.items)) }
{
    let mut columns = empty_lists(alloc, desks.len())?;
    for row in passes {
        deal(row, &mut columns)?;
    }
    Ok(columns)
}

// What is left on each desk.
fn finish_each<R: Wait>(
    rt: &R,
    alloc: Global,
    room: usize,
    desks: Vec<Desk>,
    takers: Vec<Taker>,
    columns: Vec<Vec<Operator>>,
) -> Result<Vec<Lane<Request>>, AllocError>
    requires room { AllByRecursion (λ desk. room_of desk ≤ room) desks.items }
    requires takers { AllZip IsTakerOf desks.items takers.items }
    requires operators { AllZip AreOperatorsOf desks.items (lists_of columns.items) }
    ensures { IfOk result (λ rests. AreHistories takers.items (lists_of columns.items) rests.items) }
{
    let mut rests = Vec::with_capacity(alloc, desks.len())?;
    let mut takers = takers.into_iter();
    let mut columns = columns.into_iter();
    for desk in desks {
        let Some(taker) = takers.next() else {
            unreachable!()
        };
        let Some(operators) = columns.next() else {
            unreachable!()
        };
        rests.push(finish_one(rt, alloc, room, desk, taker, operators)?)?;
    }
    Ok(rests)
}

// What is left on one desk.
fn finish_one<R: Wait>(
    rt: &R,
    alloc: Global,
    room: usize,
    desk: Desk,
    taker: Taker,
    operators: Vec<Operator>,
) -> Result<Lane<Request>, AllocError>
    requires room { room_of desk ≤ room }
    requires taker { IsTakerOf desk taker }
    requires operators { AreOperatorsOf desk operators.items }
    ensures { IfOk result (λ rest. IsHistory (taken_by taker) rest.items (accepted_at operators.items)) }
{
    let mut rest = Lane::new(alloc);
    rest.reserve(room)?;
    Ok(desk.finish(rt, operators, taker, rest))
}
