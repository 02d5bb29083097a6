// A wide tree of sums, level by level: how it is built of counts, and how a count changes.
ghost use Rattle.std.specs.Prelude.{◌≡◌, ◌<◌, ◌≤◌, ◌+◌, ◌*◌, ◌^◌, ℕ, length, slice_index_or, sum, IfOk};
ghost use Rattle.std.specs.Fork.{slice_chunk};
ghost use Rattle.mc_sums.specs.Sums.{AreGroupSums, AreSmallSums, AreSums};
ghost use Rattle.mc_sums.specs.Sums.{counts_of, level_after, level_of, levels_after, levels_of};
ghost use Rattle.mc_sums.specs.declared.limit.TheConstants.{COUNT_LIMIT};

use std::alloc::{AllocError, Global};

/// So many neighbours of a level make one number of the level above it.
pub const FAN: usize = 16;

/// The tree of the sums of these counts.
pub fn build(alloc: Global, counts: Vec<u64>) -> Result<Vec<Vec<u64>>, AllocError>
    requires few { length counts.items ≤ 2 ^ 32 }
    requires small { (place : ℕ) → slice_index_or counts.items place 0 ≤ COUNT_LIMIT }
    ensures sums { IfOk result (λ levels. AreSmallSums (levels_of levels.items)) }
    ensures counts { IfOk result (λ levels. counts_of levels.items ≡ counts.items) }
{
    let mut levels = Vec::new(alloc);
    let mut level = counts;
    'up: while level.len() > 1 {
        let above = group_sums(alloc, &level)?;
        levels.push(level)?;
        level = above;
    }
    levels.push(level)?;
    Ok(levels)
}

// The level above a level.
fn group_sums(alloc: Global, level: &[u64]) -> Result<Vec<u64>, AllocError>
    requires { sum level.now < 2 ^ 63 }
    ensures { IfOk result (λ above. AreGroupSums level.now above.items) }
{
    let mut above = Vec::new(alloc);
    for group in 0..level.len().div_ceil(FAN) {
        above.push(group_sum(level, group))?;
    }
    Ok(above)
}

// The sum of a group of neighbours.
fn group_sum(level: &[u64], group: usize) -> u64
    requires inside { group * FAN < length level.now }
    requires fits { sum level.now < 2 ^ 63 }
    ensures { result ≡ sum (slice_chunk level.now FAN group) }
{
    let first = group * FAN;
    let end = level.len().min(first + FAN);
    sum_of(&level[first..end])
}

// The sum of numbers.
fn sum_of(numbers: &[u64]) -> u64
    requires { sum numbers.now < 2 ^ 63 }
    ensures { result ≡ sum numbers.now }
{
    numbers.iter().sum()
}

/// The sum of all counts.
#[inline]
pub fn total(levels: &[Vec<u64>]) -> u64
    requires { AreSums (levels_of levels.now) }
    ensures { result ≡ sum (counts_of levels.now) }
{
    number(levels, levels.len() - 1, 0)
}

/// A number of a level; 0 past its end.
#[inline]
pub fn number(levels: &[Vec<u64>], depth: usize, place: usize) -> u64
    requires { depth < length levels.now }
    ensures { result ≡ slice_index_or (level_of levels.now depth) place 0 }
{
    number_of(&levels[depth], place)
}

// The same of one level.
#[inline]
fn number_of(level: &[u64], place: usize) -> u64
    ensures { result ≡ slice_index_or level.now place 0 }
{
    if place < level.len() { level[place] } else { 0 }
}

/// Takes so many from a count, gives it so many more, and does the same to the sums above it.
#[inline]
pub fn change(levels: &mut [Vec<u64>], place: usize, less: u64, more: u64)
    requires sums { AreSums (levels_of levels.old) }
    requires inside { place < length (counts_of levels.old) }
    requires less { less ≤ slice_index_or (counts_of levels.old) place 0 }
    requires fits { sum (counts_of levels.old) + more < 2 ^ 64 }
    ensures sums { AreSums (levels_of levels.new) }
    ensures counts { counts_of levels.new ≡ level_after (counts_of levels.old) place less more }
{
    let mut here = place;
    'up: for depth in 0..levels.len() {
        change_at(levels, depth, here, less, more);
        here /= FAN;
    }
}

// Does so to a number of one level.
#[inline]
fn change_at(levels: &mut [Vec<u64>], depth: usize, place: usize, less: u64, more: u64)
    requires depth { depth < length levels.old }
    requires inside { place < length (level_of levels.old depth) }
    requires less { less ≤ slice_index_or (level_of levels.old depth) place 0 }
    requires fits { slice_index_or (level_of levels.old depth) place 0 + more < 2 ^ 64 }
    ensures { levels_of levels.new ≡ levels_after (levels_of levels.old) depth place less more }
{
    change_number(&mut levels[depth], place, less, more);
}

// The same of one level.
#[inline]
fn change_number(level: &mut Vec<u64>, place: usize, less: u64, more: u64)
    requires inside { place < length level.old.items }
    requires less { less ≤ slice_index_or level.old.items place 0 }
    requires fits { slice_index_or level.old.items place 0 + more < 2 ^ 64 }
    ensures { level.new.items ≡ level_after level.old.items place less more }
{
    level[place] = level[place] - less + more;
}
