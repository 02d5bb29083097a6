// Where the k-th of all that is counted stands: from the top down, along one group of each level.
ghost use Rattle.std.specs.Prelude.{◌≡◌, ◌<◌, ◌+◌, ◌^◌, length, slice_index_or, sum, take, IfSome};
ghost use Rattle.mc_sums.specs.Sums.{AreKth, ArePair, AreSums, IsKth, LieBehind, LiesBehind};
ghost use Rattle.mc_sums.specs.Sums.{counts_of, level_of, levels_of};

use crate::levels::{FAN, number, total};

/// The place where the k-th stands, and how many of that place's come before it.
pub fn find(levels: &[Vec<u64>], k: u64) -> (usize, u64)
    requires sums { AreSums (levels_of levels.now) }
    requires inside { k < sum (counts_of levels.now) }
    ensures found { IsKth (counts_of levels.now) 0 k result.0 result.1 }
    ensures place { result.0 < length (counts_of levels.now) }
{
    let mut place = 0;
    let mut rest = k;
    let mut depth = levels.len() - 1;
    'down: while depth > 0 {
        depth -= 1;
        let (next, left) = find_at(levels, depth, place * FAN, rest);
        place = next;
        rest = left;
    }
    (place, rest)
}

// The same on one level, of what stands there from a place on.
#[inline]
fn find_at(levels: &[Vec<u64>], depth: usize, first: usize, k: u64) -> (usize, u64)
    requires depth { depth < length levels.now }
    requires inside { LiesBehind (level_of levels.now depth) first k }
    ensures { IsKth (level_of levels.now depth) first k result.0 result.1 }
{
    find_from(&levels[depth], first, k)
}

// The walk along the level.
#[inline]
fn find_from(level: &[u64], first: usize, k: u64) -> (usize, u64)
    requires { LiesBehind level.now first k }
    ensures { IsKth level.now first k result.0 result.1 }
{
    let mut rest = k;
    for place in first..level.len() {
        let number = level[place];
        if rest < number {
            return (place, rest);
        }
        rest -= number;
    }
    unreachable!()
}

/// The same where two places, the lower one first, have all that is counted. None comes where others have some.
#[inline]
pub fn find_among_two(levels: &[Vec<u64>], places: (usize, usize), k: u64) -> Option<(usize, u64)>
    requires sums { AreSums (levels_of levels.now) }
    requires fits { sum (counts_of levels.now) < 2 ^ 63 }
    requires inside { k < sum (counts_of levels.now) }
    ensures found { IfSome result (λ found. IsKth (counts_of levels.now) 0 k found.0 found.1) }
    ensures place { IfSome result (λ found. found.0 < length (counts_of levels.now)) }
{
    let (low, high) = places;
    if low >= high {
        return None;
    }
    let first = number(levels, 0, low);
    let second = number(levels, 0, high);
    if first + second != total(levels) {
        return None;
    }
    if k < first {
        Some((low, k))
    } else {
        Some((high, k - first))
    }
}

/// The same over the sums of two counts at each place, in two trees with as many places.
pub fn find_in_both(levels: &[Vec<u64>], others: &[Vec<u64>], k: u64) -> (usize, u64)
    requires pair { ArePair (levels_of levels.now) (levels_of others.now) }
    requires fits { sum (counts_of levels.now) + sum (counts_of others.now) < 2 ^ 64 }
    requires inside { k < sum (counts_of levels.now) + sum (counts_of others.now) }
    ensures found { AreKth (counts_of levels.now) (counts_of others.now) 0 k result.0 result.1 }
    ensures place { result.0 < length (counts_of levels.now) }
{
    let mut place = 0;
    let mut rest = k;
    let mut depth = levels.len() - 1;
    'down: while depth > 0 {
        depth -= 1;
        let (next, left) = find_in_both_at(levels, others, depth, place * FAN, rest);
        place = next;
        rest = left;
    }
    (place, rest)
}

// The same on one level of each, of what stands there from a place on.
#[inline]
fn find_in_both_at(
    levels: &[Vec<u64>],
    others: &[Vec<u64>],
    depth: usize,
    first: usize,
    k: u64,
) -> (usize, u64)
    requires depth { depth < length levels.now }
    requires other_depth { depth < length others.now }
    requires long { length (level_of levels.now depth) ≡ length (level_of others.now depth) }
    requires fits { sum (level_of levels.now depth) + sum (level_of others.now depth) < 2 ^ 64 }
    requires inside { LieBehind (level_of levels.now depth) (level_of others.now depth) first k }
    ensures { AreKth (level_of levels.now depth) (level_of others.now depth) first k result.0 result.1 }
{
    find_in_both_from(&levels[depth], &others[depth], first, k)
}

// The walk along both levels.
#[inline]
fn find_in_both_from(level: &[u64], other: &[u64], first: usize, k: u64) -> (usize, u64)
    requires long { length level.now ≡ length other.now }
    requires fits { sum level.now + sum other.now < 2 ^ 64 }
    requires inside { LieBehind level.now other.now first k }
    ensures { AreKth level.now other.now first k result.0 result.1 }
{
    let mut rest = k;
    for place in first..level.len() {
        let number = level[place] + other[place];
        if rest < number {
            return (place, rest);
        }
        rest -= number;
    }
    unreachable!()
}
