// That memory is found where there is some, and each call once.
ghost use Rattle.std.specs.Prelude.{◌≡◌, ◌≤◌, ◌<◌, ◌^◌, ℕ, length, slice_index_or, IfOk};

use crate::equal::is_equal;
use mc_sums::Sums;
use std::alloc::{AllocError, Global};
use std::process::Abort;
use std::test::Fail;

// Sums of so many counts, each of them 1.
fn ones(alloc: Global, places: usize) -> Result<Sums, AllocError>
    requires { places ≤ 2 ^ 32 }
    ensures long { IfOk result (λ sums. length sums ≡ places) }
    ensures low { IfOk result (λ sums. (place : ℕ) → slice_index_or sums place 0 ≤ 1) }
{
    let mut counts = Vec::new(alloc);
    while counts.len() < places {
        counts.push(1)?;
    }
    Sums::new(alloc, counts)
}

fn finds_the_last(rt: &impl Abort, sums: &Sums, others: &Sums, places: usize)
    requires { length sums.now ≡ length others.now }
{
    let last = places.saturating_sub(1);
    let total = sums.total();
    is_equal(rt, &total, &(places as u64));
    is_equal(rt, &sums.get(last), &1);
    if total > 0 && others.total() > 0 {
        is_equal(rt, &sums.find(total - 1), &(last, 0));
        let middle = (places / 2, (places % 2) as u64);
        is_equal(rt, &sums.find_in_both(others, total), &middle);
    }
}

#[test]
fn the_last_is_found(rt: HostRuntime) -> Result<(), Fail> {
    for places in [1usize, 16, 17, 300] {
        let sums = ones(rt.alloc(), places)?;
        let others = ones(rt.alloc(), places)?;
        finds_the_last(&rt, &sums, &others, places);
    }
    Ok(())
}

fn goes_up_and_down(rt: &impl Abort, sums: &mut Sums, place: usize, total: u64)
    requires place { place < length sums.old }
    requires low { slice_index_or sums.old place 0 ≤ 1 }
{
    sums.raise(place);
    is_equal(rt, &sums.get(place), &2);
    is_equal(rt, &sums.total(), &total.saturating_add(1));
    sums.lower(place);
    is_equal(rt, &sums.total(), &total);
}

#[test]
fn a_count_goes_up_and_down(rt: HostRuntime) -> Result<(), Fail> {
    for (places, place) in [(1usize, 0), (16, 15), (17, 16), (300, 150)] {
        let mut sums = ones(rt.alloc(), places)?;
        if place < places {
            goes_up_and_down(&rt, &mut sums, place, places as u64);
        }
    }
    Ok(())
}

#[test]
fn there_may_be_no_place(rt: HostRuntime) -> Result<(), Fail> {
    let sums = Sums::new(rt.alloc(), Vec::new(rt.alloc()))?;
    is_equal(&rt, &sums.total(), &0);
    is_equal(&rt, &sums.get(0), &0);
    Ok(())
}
