// A whole entry read from bytes.

ghost use Rattle.std.specs.Prelude.{◌≡◌, ◌≢◌, ◌<◌, ◌≤◌, ◌^◌, List, ℕ, drop, length, IfErr, IfOk, MatchOption};
ghost use Rattle.mc_entry.specs.Reading.{BeginWithNone, BeginsWith, Reads};
ghost use Rattle.mc_entry.specs.Wire.{FitsEntry, entry_wire};

use crate::bytes::Bytes;
use crate::reading::{read_asked, read_event, read_sent, read_taken};
use crate::writing::write_entry;
use mc_shard::Entry;
use std::alloc::{AllocError, Global};

/// Why no entry was read.
#[derive(Clone, Copy, PartialEq, Eq, Debug)]
pub enum EntryFault {
    /// The bytes begin with the form of no entry.
    NoEntry,
    /// Memory ran out.
    NoMemory,
}

// The fields of an entry, of which it isn't known whether these are its bytes.
fn read_fields(alloc: Global, bytes: &mut Bytes<'_>) -> Result<Entry, AllocError>
    ensures fits { IfOk result (λ entry. FitsEntry entry) }
    ensures reads { IfOk result (λ entry. Reads FitsEntry entry_wire bytes.old bytes.new entry) }
{
    let _version = bytes.byte();
    let who = bytes.word4();
    let stamp = bytes.word8();
    let event = read_event(bytes);
    let asked = read_asked(bytes);
    let taken = read_taken(bytes);
    let count = bytes.word2();
    let sent = read_sent(alloc, bytes, count)?;
    Ok(Entry {
        who,
        stamp,
        event,
        asked,
        taken,
        sent,
    })
}

// How many of the bytes are the entry's form, if they begin with it.
fn form_len(alloc: Global, entry: &Entry, bytes: &[u8]) -> Result<Option<usize>, AllocError>
    requires { length entry.now.sent < 2 ^ 16 }
    ensures { IfOk result (λ len. MatchOption len
        ((more : List ℕ) → bytes.now ≢ entry_wire entry.now more)
        (λ n. (n ≤ length bytes.now) × (bytes.now ≡ entry_wire entry.now (drop n bytes.now)))) }
{
    let mut form = Vec::new(alloc);
    write_entry(entry, &mut form)?;
    if bytes.starts_with(&form) {
        Ok(Some(form.len()))
    } else {
        Ok(None)
    }
}

/// The entry that bytes begin with, and how many of them are its form. What is read is written again and compared, so
/// bytes that are no entry's form are refused.
pub fn read_entry(alloc: Global, bytes: &[u8]) -> Result<(Entry, usize), EntryFault>
    ensures found { IfOk result (λ found. BeginsWith bytes.now found.0 found.1) }
    ensures none { IfErr result (λ why. why ≡ EntryFault.NoEntry → BeginWithNone bytes.now) }
{
    let Ok(entry) = read_fields(alloc, &mut Bytes::new(bytes)) else {
        return Err(EntryFault::NoMemory);
    };
    match form_len(alloc, &entry, bytes) {
        Ok(Some(len)) => Ok((entry, len)),
        Ok(None) => Err(EntryFault::NoEntry),
        Err(_) => Err(EntryFault::NoMemory),
    }
}
