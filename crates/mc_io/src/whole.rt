// A whole text read, a whole output written.
ghost use Rattle.std.specs.Prelude.{◌≡◌, ◌+◌, ◌^◌, ◌<◌, ◌≤◌, ℕ, List, is_err, take, length, vec_capacity, vec_len, IfOk, IfSome, OnOk, OnErr};
ghost use Rattle.std.specs.Io.KnownBytes.{Appends, Consumes, IsAtEnd};
ghost use Rattle.mc_io.specs.Faults.{faults_after, is_failed_read};
ghost use Rattle.mc_io.specs.Bytes.{AppendsPart, ConsumesAtMost};
ghost use Rattle.mc_io.specs.declared.whole.SourceFault.TheVariants.{Failed, NoMemory};

use crate::{Failed, Sink, Source};
use std::alloc::{AllocError, AllocFailed, Global};

/// Why a text isn't had.
#[derive(Debug, Drop)]
pub enum SourceFault {
    /// The source failed.
    Failed,
    NoMemory(AllocError),
}

impl From<AllocError> for SourceFault {
    ghost from_gives = { λ e f. f ≡ NoMemory e };

    fn from(e: AllocError) -> Self {
        SourceFault::NoMemory(e)
    }
}

impl From<Failed> for SourceFault {
    ghost from_gives = { λ _ f. f ≡ Failed };

    fn from(_: Failed) -> Self {
        SourceFault::Failed
    }
}

const CHUNK: usize = 4096;

/// All bytes that the source has left, or the first of them up to one more than the limit. A text longer than the
/// limit is one that was too long. Where it fails, what was read is lost.
pub fn read_up_to<S: Source>(
    alloc: Global,
    source: &mut S,
    limit: usize,
) -> Result<Vec<u8>, SourceFault>
    requires { limit < 2 ^ 32 }

    ensures text { IfOk result (λ text. IfSome (S.left source.old) (λ left. text.items ≡ take (limit + 1) left)) }
    ensures capped { IfOk result (λ text. vec_len text ≤ limit + 1) }
    ensures consumed { IfOk result (λ text. Consumes (S.left source.old) (S.left source.new) text.items) }
    ensures at_end { IfOk result (λ text. vec_len text ≤ limit → IsAtEnd (S.left source.new)) }

    // No more is taken from the source, also where it fails.
    ensures at_most { ConsumesAtMost (S.left source.old) (S.left source.new) (limit + 1) }

    // One call of the source failed where this answers so, and none where it answers anything else.
    ensures faults { S.faults source.new ≡ faults_after (S.faults source.old) (is_failed_read result) }
{
    let mut text = Vec::new(alloc);
    let mut chunk = [0; CHUNK];
    while text.len() <= limit {
        let room = CHUNK.min(limit + 1 - text.len());
        make_room(&mut text, room)?;
        let count = source.read(&mut chunk[..room])?;
        if count == 0 {
            break;
        }
        text.extend_from_slice(&chunk[..count]).unwrap();
    }
    Ok(text)
}

// Makes room for so many bytes more. A text that has outgrown its room grows by half of itself, not by all: so less is
// asked for, and it more often stays where it is.
fn make_room(text: &mut Vec<u8>, more: usize) -> Result<(), AllocError>
    ensures items { text.new.items ≡ text.old.items }
    ensures room { OnOk result (vec_len text.new + more ≤ vec_capacity text.new) }
{
    if more <= text.capacity() - text.len() {
        return Ok(());
    }
    text.reserve_exact(more.max(text.len() / 2))
}

/// Writes all these bytes, or fails once a part of them is written.
pub fn write_whole<K: Sink>(sink: &mut K, bytes: &[u8]) -> Result<(), Failed>
    ensures ok { OnOk result (Appends (K.written sink.old) (K.written sink.new) bytes.now) }
    ensures err { OnErr result (AppendsPart (K.written sink.old) (K.written sink.new) bytes.now) }
    // One call of the sink failed where this fails, and else none.
    ensures faults { K.faults sink.new ≡ faults_after (K.faults sink.old) (is_err result) }
{
    let mut at = 0;
    while at < bytes.len() {
        let count = sink.write(&bytes[at..])?;
        if count == 0 {
            return Err(Failed);
        }
        at += count;
    }
    Ok(())
}
