// Counts of calls and of faults.
ghost use Rattle.std.specs.Prelude.{◌≡◌, ◌↔◌, IsTrue};
ghost use Rattle.mc_io.specs.Bytes.{Fails};
ghost use Rattle.mc_io.specs.Faults.{next_count};

// One more, but the last value stays.
pub(crate) fn next_count(count: u64) -> u64
    ensures { result ≡ next_count count }
{
    if count < u64::MAX { count + 1 } else { count }
}

// Counts a call, and says whether it is to fail: whether its number stands in the list. At the last value of the count
// none is.
pub(crate) fn is_failing_call(calls: &mut u64, failing: &[u64]) -> bool
    ensures fails { IsTrue result ↔ Fails failing.now calls.old }
    ensures calls { calls.new ≡ next_count calls.old }
{
    if *calls == u64::MAX {
        return false;
    }
    *calls += 1;
    failing.contains(calls)
}
