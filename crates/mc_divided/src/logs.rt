// The logs of the parts, as they begin.

ghost use Rattle.std.specs.Prelude.{◌≡◌, ◌<◌, ◌≤◌, ◌^◌, ℕ, [], length, All, IfOk};
ghost use Rattle.mc_part.specs.Divisions.{part_numbers};
ghost use Rattle.mc_part.specs.DividedParts.{inner_lists};
ghost use Rattle.mc_divided.specs.Laying.{IsDivision};
ghost use Rattle.mc_divided.specs.Networks.{ShareClock};
ghost use Rattle.mc_divided.specs.declared.limit.TheConstants.{NETWORK_LIMIT};
ghost use Rattle.mc_merge.specs.Weaving.{clocks_of, log_at, logs_of, numbers_of};

use crate::clocks::share_clocks;
use crate::dividing::{Division, count_up};
use crate::network::Crossing;
use mc_lane::Lane;
use mc_part::{PartLog, share};
use std::alloc::{AllocError, Global};

/// An empty log for each part, with the numbers of its boxes and its clock. It fails only for want of memory.
pub(crate) fn lay_logs(
    alloc: Global,
    division: &Division,
    crossings: &[Crossing],
) -> Result<Vec<PartLog>, AllocError>
    requires division { IsDivision division.now }
    requires few { length division.now.assigned.items ≤ NETWORK_LIMIT }
    ensures numbers { IfOk result (λ logs.
        numbers_of logs.items ≡ part_numbers division.now.assigned.items division.now.count) }
    ensures none { IfOk result (λ logs. (part : ℕ) → log_at (logs_of logs.items) part ≡ []) }
    ensures clocks { IfOk result (λ logs. All (ShareClock (clocks_of logs.items)) crossings.now) }
{
    let clocks = share_clocks(alloc, division.count, crossings)?;
    let every = count_up(alloc, division.assigned.len())?;
    let shares = share(alloc, &division.assigned, division.count, every)?;
    empty_logs(alloc, shares, &clocks)
}

// An empty log of each of these lists of numbers.
fn empty_logs(
    alloc: Global,
    shares: Vec<Vec<u32>>,
    clocks: &[u64],
) -> Result<Vec<PartLog>, AllocError>
    requires each { length clocks.now ≡ length shares.items }
    requires early { All (λ clock. clock < 2 ^ 63) clocks.now }
    ensures numbers { IfOk result (λ logs. numbers_of logs.items ≡ inner_lists shares.items) }
    ensures none { IfOk result (λ logs. (part : ℕ) → log_at (logs_of logs.items) part ≡ []) }
    ensures clocks { IfOk result (λ logs. clocks_of logs.items ≡ clocks.now) }
{
    let mut logs = Vec::new(alloc);
    for numbers in shares {
        let clock = clocks[logs.len()];
        logs.push(PartLog {
            made: Lane::new(alloc),
            turns: Vec::new(alloc),
            numbers,
            clock,
        })?;
    }
    Ok(logs)
}
