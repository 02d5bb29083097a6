// The clocks of parts: one for those that channels join, also over other parts.

ghost use Rattle.std.specs.Prelude.{◌≡◌, ◌<◌, ◌≤◌, ◌^◌, length, slice_index_or, All, IfOk, IsTrue};
ghost use Rattle.mc_divided.specs.Networks.{ShareClock};
ghost use Rattle.mc_part.specs.declared.limit.TheConstants.{STAMP_LIMIT};

use crate::network::Crossing;
use mc_part::limit::STAMP_LIMIT;
use std::alloc::{AllocError, Global};

/// No clock begins as late as this.
pub const CLOCK_END: u64 = 1 << 63;

// From one clock to the next: no stamp of a phase is as great.
const CLOCK_STEP: u64 = 2 * STAMP_LIMIT as u64;

/// The times at which the clocks of parts begin. Parts that are joined begin at one time, and others so far from each
/// other that the turns of a phase don't meet; that they do is no clause.
pub fn share_clocks(
    alloc: Global,
    parts: usize,
    crossings: &[Crossing],
) -> Result<Vec<u64>, AllocError>
    requires { parts ≤ STAMP_LIMIT }
    ensures count { IfOk result (λ clocks. length clocks.items ≡ parts) }
    ensures early { IfOk result (λ clocks. All (λ clock. clock < 2 ^ 63) clocks.items) }
    ensures share { IfOk result (λ clocks. All (ShareClock clocks.items) crossings.now) }
{
    let mut clocks = apart(alloc, parts)?;
    for _part in 0..parts {
        if !level(&mut clocks, crossings) {
            break;
        }
    }
    if are_shared(&clocks, crossings) {
        return Ok(clocks);
    }
    vec![in alloc; 0; parts]
}

// A clock for each part.
fn apart(alloc: Global, parts: usize) -> Result<Vec<u64>, AllocError>
    requires { parts ≤ STAMP_LIMIT }
    ensures count { IfOk result (λ clocks. length clocks.items ≡ parts) }
    ensures early { IfOk result (λ clocks. All (λ clock. clock < 2 ^ 63) clocks.items) }
{
    let mut clocks = Vec::with_capacity(alloc, parts)?;
    for part in 0..parts {
        clocks.push(part as u64 * CLOCK_STEP)?;
    }
    Ok(clocks)
}

// At each channel that crosses both parts begin at the earlier time. Whether that changed one.
fn level(clocks: &mut [u64], crossings: &[Crossing]) -> bool
    ensures count { length clocks.new ≡ length clocks.old }
    ensures early { All (λ clock. clock < 2 ^ 63) clocks.old → All (λ clock. clock < 2 ^ 63) clocks.new }
{
    let mut changed = false;
    for crossing in crossings {
        if level_two(clocks, crossing.from as usize, crossing.to as usize) {
            changed = true;
        }
    }
    changed
}

// The later of two clocks begins with the earlier.
fn level_two(clocks: &mut [u64], one: usize, two: usize) -> bool
    ensures count { length clocks.new ≡ length clocks.old }
    ensures early { All (λ clock. clock < 2 ^ 63) clocks.old → All (λ clock. clock < 2 ^ 63) clocks.new }
{
    if one >= clocks.len() || two >= clocks.len() || clocks[one] == clocks[two] {
        return false;
    }
    let early = clocks[one].min(clocks[two]);
    clocks[one] = early;
    clocks[two] = early;
    true
}

// Whether the parts at both ends of each channel that crosses have one clock.
fn are_shared(clocks: &[u64], crossings: &[Crossing]) -> bool
    ensures { IsTrue result → All (ShareClock clocks.now) crossings.now }
{
    crossings.iter().all(|crossing| clock_at(clocks, crossing.from)
        == clock_at(clocks, crossing.to))
}

// The clock of a part; 0 where there is none.
fn clock_at(clocks: &[u64], part: u32) -> u64
    ensures { result ≡ slice_index_or clocks.now part 0 }
{
    clocks.get(part as usize).copied().unwrap_or(0)
}
