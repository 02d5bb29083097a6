// Counts, and a tree of their sums.
ghost use Rattle.std.specs.Prelude.{◌≡◌, ◌<◌, ◌≤◌, ◌+◌, ◌-◌, ◌^◌, ℕ, length, slice_index_or, slice_set, sum, take, IfOk};
ghost use Rattle.mc_sums.specs.Sums.{AreSums, levels_of};
ghost use Rattle.mc_sums.specs.declared.limit.TheConstants.{COUNT_LIMIT};

use crate::{finding, levels};
use std::alloc::{AllocError, Global};
use std::marker::Model;

/// Counts at places 0, 1, .., kept so that the k-th of all that is counted is found, and a count
/// changed, in a time that depends on the number of places by its logarithm alone. A count is at most
/// `COUNT_LIMIT`, and there are at most 2^32 places.
#[derive(Debug, Drop)]
pub struct Sums {
    // The counts, and above each level the sums of its groups.
    levels: Vec<Vec<u64>>,
    // The two places whose counts rose last, the lower one first. Where little is counted they have all of it as a
    // rule; whether they do is asked each time.
    recent: (usize, usize),
}

impl Model for Sums {
    ghost use Rattle.std.specs.Prelude.{List, ℕ};
    ghost use Rattle.mc_sums.specs.Sums.{AreSmallSums, counts_of, levels_of};

    ghost Value = { List ℕ };

    ghost view = { λ a. counts_of a.levels.items };

    ghost invariant = { λ a. AreSmallSums (levels_of a.levels.items) };
}

impl Sums {
    /// The sums of these counts.
    pub fn new(alloc: Global, counts: Vec<u64>) -> Result<Sums, AllocError>
        requires few { length counts.items ≤ 2 ^ 32 }
        requires small { (place : ℕ) → slice_index_or counts.items place 0 ≤ COUNT_LIMIT }
        ensures { IfOk result (λ sums. sums ≡ counts.items) }
    {
        let levels = levels::build(alloc, counts)?;
        Ok(Sums {
            levels,
            recent: (0, 1),
        })
    }

    /// What every Sums keeps.
    pub fn keeps(&self)
        ensures few { length self.now ≤ 2 ^ 32 }
        ensures small { (place : ℕ) → slice_index_or self.now place 0 ≤ COUNT_LIMIT }
        ensures fits { sum self.now < 2 ^ 63 }
    {
        let _ = &self.levels;
    }

    /// The sum of all counts.
    #[inline]
    pub fn total(&self) -> u64
        ensures { result ≡ sum self.now }
    {
        levels::total(&self.levels)
    }

    /// A count; 0 past the last.
    #[inline]
    pub fn get(&self, place: usize) -> u64
        ensures { result ≡ slice_index_or self.now place 0 }
    {
        levels::number(&self.levels, 0, place)
    }

    /// Where the k-th of all that is counted stands: at which place, and how many of that place's
    /// come before it.
    pub fn find(&self, k: u64) -> (usize, u64)
        requires { k < sum self.now }
        ensures before { sum (take result.0 self.now) + result.1 ≡ k }
        ensures within { result.1 < slice_index_or self.now result.0 0 }
        ensures place { result.0 < length self.now }
    {
        match finding::find_among_two(&self.levels, self.recent, k) {
            Some(found) => found,
            None => finding::find(&self.levels, k),
        }
    }

    /// The same over the sums of two counts at each place.
    pub fn find_in_both(&self, other: &Sums, k: u64) -> (usize, u64)
        requires long { length self.now ≡ length other.now }
        requires inside { k < sum self.now + sum other.now }
        ensures before { sum (take result.0 self.now) + sum (take result.0 other.now) + result.1 ≡ k }
        ensures within { result.1 < slice_index_or self.now result.0 0 + slice_index_or other.now result.0 0 }
        ensures place { result.0 < length self.now }
    {
        finding::find_in_both(&self.levels, &other.levels, k)
    }

    /// A count becomes one more.
    #[inline]
    pub fn raise(&mut self, place: usize)
        requires inside { place < length self.old }
        requires room { slice_index_or self.old place 0 < COUNT_LIMIT }
        ensures { self.new ≡ slice_set self.old place (slice_index_or self.old place 0 + 1) }
    {
        self.recent = with_place(&self.levels, self.recent, place);
        levels::change(&mut self.levels, place, 0, 1);
    }

    /// A count becomes one less.
    #[inline]
    pub fn lower(&mut self, place: usize)
        requires some { 0 < slice_index_or self.old place 0 }
        ensures { self.new ≡ slice_set self.old place (slice_index_or self.old place 0 - 1) }
    {
        levels::change(&mut self.levels, place, 1, 0);
    }
}

// The two places with this one among them, in place of one that has nothing, if there is such a one.
fn with_place(levels: &[Vec<u64>], places: (usize, usize), place: usize) -> (usize, usize)
    requires { AreSums (levels_of levels.now) }
{
    let (low, high) = places;
    let other = if low == place || levels::number(levels, 0, low) == 0 {
        high
    } else {
        low
    };
    (other.min(place), other.max(place))
}
