// Things by part.

ghost use Rattle.std.specs.Prelude.{◌≡◌, ◌<◌, [], List, length, replicate, slice_index_or, All, IfOk, OnOk};
ghost use Rattle.mc_part.specs.DividedParts.{AreShared, HasShares, IsTaken, inner_lists, shares_of, with_given};

use std::alloc::{AllocError, Global};
use std::collections::VecDeque;

/// What each of so many parts has of these things, in their order, where `assigned` has the part of each. It fails only
/// for want of memory.
pub fn share<T: Drop>(
    alloc: Global,
    assigned: &[u32],
    count: usize,
    things: Vec<T>,
) -> Result<Vec<Vec<T>>, AllocError>
    requires each { length things.items ≡ length assigned.now }
    requires parts { All (λ part. part < count) assigned.now }
    ensures { IfOk result (λ shares. inner_lists shares.items ≡ shares_of things.items assigned.now count) }
{
    let mut shares = empty_lists(alloc, count)?;
    let mut who = 0;
    for thing in things {
        let part = assigned[who] as usize;
        give(&mut shares, part, thing)?;
        who += 1;
    }
    Ok(shares)
}

// So many empty lists.
fn empty_lists<T: Drop>(alloc: Global, count: usize) -> Result<Vec<Vec<T>>, AllocError>
    ensures { IfOk result (λ lists. inner_lists lists.items ≡ replicate count []) }
{
    let mut lists = Vec::with_capacity(alloc, count)?;
    for _done in 0..count {
        lists.push(Vec::new(alloc))?;
    }
    Ok(lists)
}

// A part gets one more.
fn give<T: Drop>(lists: &mut Vec<Vec<T>>, part: usize, thing: T) -> Result<(), AllocError>
    requires { part < length lists.old.items }
    ensures { OnOk result (inner_lists lists.new.items ≡ with_given (inner_lists lists.old.items) part thing) }
{
    lists[part].push(thing)?;
    Ok(())
}

/// Things that were shared out so, in their order. It fails only for want of memory.
pub fn gather<T: Drop>(
    alloc: Global,
    assigned: &[u32],
    shares: Vec<Vec<T>>,
) -> Result<Vec<T>, AllocError>
    requires parts { All (λ part. part < length shares.items) assigned.now }
    requires shared { HasShares assigned.now (inner_lists shares.items) }
    ensures { IfOk result (λ things. (all : List T) → AreShared all assigned.now (inner_lists shares.items)
        → things.items ≡ all) }
{
    let mut shares = shares;
    let mut things = VecDeque::with_capacity(alloc, assigned.len())?;
    for done in 0..assigned.len() {
        let who = assigned.len() - 1 - done;
        let thing = take_last(&mut shares, assigned[who] as usize);
        things.push_front(thing)?;
    }
    Ok(things.into_vec())
}

// The last thing of a part, which has one.
fn take_last<T: Drop>(lists: &mut Vec<Vec<T>>, part: usize) -> T
    requires part { part < length lists.old.items }
    requires some { 0 < length (slice_index_or (inner_lists lists.old.items) part []) }
    ensures { IsTaken (inner_lists lists.old.items) (inner_lists lists.new.items) part result }
{
    match lists[part].pop() {
        Some(thing) => thing,
        None => unreachable!(),
    }
}
