// A source over bytes in memory, some of whose calls fail.
ghost use Rattle.std.specs.Prelude.{◌≡◌, ◌<◌, ◌≤◌, ◌+◌, ◌-◌, ◌↔◌, IsErr, IfOk, Some, drop, is_err, length, min, take, vec_len};
ghost use Rattle.std.specs.Io.{ReadsAtMost};
ghost use Rattle.std.specs.Io.KnownBytes.{ReadConsumes};
ghost use Rattle.mc_io.specs.Faults.{faults_after, next_count};
ghost use Rattle.mc_io.specs.Bytes.{Fails};

use crate::count::{is_failing_call, next_count};
use crate::{Failed, Source};

/// Gives its bytes from `at` on, at most `per_call` in a call. The calls whose numbers, from 1, stand in
/// `failing` fail, and `failed` counts them. `calls` stops at its last value, and from then on no call fails.
#[derive(Drop)]
pub struct MemSource {
    pub bytes: Vec<u8>,
    pub at: usize,
    pub per_call: usize,
    pub failing: Vec<u64>,
    pub calls: u64,
    pub failed: u64,
    pub ghost gives: { 0 < per_call },
    pub ghost within: { at ≤ vec_len bytes },
}

impl MemSource {
    /// Stands before the first byte. A call has to give at least one byte.
    pub fn new(bytes: Vec<u8>, per_call: usize, failing: Vec<u64>) -> MemSource
        requires { 0 < per_call }
        ensures bytes { result.bytes ≡ bytes }
        ensures at { result.at ≡ 0 }
        ensures per_call { result.per_call ≡ per_call }
        ensures failing { result.failing ≡ failing }
        ensures calls { result.calls ≡ 0 }
        ensures failed { result.failed ≡ 0 }
    {
        MemSource {
            bytes,
            at: 0,
            per_call,
            failing,
            calls: 0,
            failed: 0,
        }
    }
}

impl Source for MemSource {
    ghost use Rattle.mc_io.specs.InMemory.{left_of, read_count};

    ghost left = { λ s. Some (left_of s) };

    ghost faults = { λ s. s.failed };

    fn read(&mut self, buf: &mut [u8]) -> Result<usize, Failed>
        // as in the trait
        ensures bound { ReadsAtMost result buf.new }
        ensures bytes { ReadConsumes (Some (left_of self.old)) (Some (left_of self.new)) result buf.new }
        ensures faults { self.new.failed ≡ faults_after self.old.failed (is_err result) }

        // A call fails exactly where its number is in the list. Else it gives what is left, as far as there is room
        // and a call gives.
        ensures fails { IsErr result ↔ Fails self.old.failing.items self.old.calls }
        ensures given { IfOk result (λ count. count ≡ read_count self.old (length buf.new)) }
        ensures calls { self.new.calls ≡ next_count self.old.calls }
        ensures kept { self.new.bytes.items ≡ self.old.bytes.items }
        ensures per_call { self.new.per_call ≡ self.old.per_call }
        ensures failing { self.new.failing ≡ self.old.failing }
    {
        if is_failing_call(&mut self.calls, &self.failing) {
            self.failed = next_count(self.failed);
            return Err(Failed);
        }
        let count = copy_front(&self.bytes[self.at..], buf, self.per_call);
        self.at += count;
        Ok(count)
    }
}

// Copies bytes from the front of `from` to the front of `to`, at most `most`, and says how many.
fn copy_front(from: &[u8], to: &mut [u8], most: usize) -> usize
    ensures count { result ≡ min (min (length from.now) (length to.old)) most }
    ensures copied { take result to.new ≡ take result from.now }
{
    let count = from.len().min(to.len()).min(most);
    to[..count].copy_from_slice(&from[..count]);
    count
}
