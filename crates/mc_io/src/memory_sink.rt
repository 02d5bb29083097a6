// A sink in memory, of a fixed size, some of whose calls fail.
ghost use Rattle.std.specs.Prelude.{◌-◌, ◌↔◌, ◌⊎◌, IsErr, min, length, ◌≡◌, ◌≤◌, ◌<◌, [], Some, IfOk, vec_len, vec_capacity};
ghost use Rattle.std.specs.Io.{WritesAtMost};
ghost use Rattle.std.specs.Io.KnownBytes.{WriteAppends};
ghost use Rattle.mc_io.specs.Faults.{faults_after, is_failed_write, next_count};
ghost use Rattle.mc_io.specs.Bytes.{Fails};

use crate::count::{is_failing_call, next_count};
use crate::{Failed, Sink};
use std::alloc::{AllocError, Global};

/// Keeps at most `room` bytes, and takes at most `per_call` in a call. The calls whose numbers, from 1, stand
/// in `failing` fail, and so does one that finds no room; `failed` counts them. `calls` stops at its last value,
/// and from then on no number fails.
#[derive(Drop)]
pub struct MemSink {
    pub bytes: Vec<u8>,
    pub room: usize,
    pub per_call: usize,
    pub failing: Vec<u64>,
    pub calls: u64,
    pub failed: u64,
    pub ghost takes: { 0 < per_call },
    pub ghost has_room: { vec_len bytes ≤ room },
    pub ghost has_memory: { room ≤ vec_capacity bytes },
}

impl MemSink {
    /// Takes the memory for `room` bytes, so that no write wants any. A call has to take at least one byte.
    pub fn new(
        alloc: Global,
        room: usize,
        per_call: usize,
        failing: Vec<u64>,
    ) -> Result<MemSink, AllocError>
        requires { 0 < per_call }
        ensures bytes { IfOk result (λ s. s.bytes.items ≡ []) }
        ensures room { IfOk result (λ s. s.room ≡ room) }
        ensures per_call { IfOk result (λ s. s.per_call ≡ per_call) }
        ensures failing { IfOk result (λ s. s.failing ≡ failing) }
        ensures calls { IfOk result (λ s. s.calls ≡ 0) }
        ensures failed { IfOk result (λ s. s.failed ≡ 0) }
    {
        Ok(MemSink {
            bytes: Vec::with_capacity(alloc, room)?,
            room,
            per_call,
            failing,
            calls: 0,
            failed: 0,
        })
    }
}

impl Sink for MemSink {
    ghost use Rattle.mc_io.specs.InMemory.{write_count};

    ghost written = { λ s. Some s.bytes.items };

    ghost faults = { λ s. s.failed };

    fn write(&mut self, piece: &[u8]) -> Result<usize, Failed>
        // as in the trait
        ensures bound { WritesAtMost result piece.now }
        ensures bytes { WriteAppends (Some self.old.bytes.items) (Some self.new.bytes.items) result piece.now }
        ensures faults { self.new.failed ≡ faults_after self.old.failed (is_failed_write result piece.now) }

        // A call fails exactly where its number is in the list, or where it finds no room.
        ensures fails { IsErr result ↔ (Fails self.old.failing.items self.old.calls
            ⊎ ((0 < length piece.now) × (vec_len self.old.bytes ≡ self.old.room))) }
        ensures taken { IfOk result (λ count. count ≡ write_count self.old (length piece.now)) }
        ensures calls { self.new.calls ≡ next_count self.old.calls }
        ensures room { self.new.room ≡ self.old.room }
        ensures per_call { self.new.per_call ≡ self.old.per_call }
        ensures failing { self.new.failing ≡ self.old.failing }
    {
        let free = self.room - self.bytes.len();
        if is_failing_call(&mut self.calls, &self.failing) || free == 0 && !piece.is_empty() {
            self.failed = next_count(self.failed);
            return Err(Failed);
        }
        let count = piece.len().min(free).min(self.per_call);
        self.bytes.extend_from_slice(&piece[..count]).unwrap();
        Ok(count)
    }
}
