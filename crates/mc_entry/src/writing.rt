//! An entry written as bytes.

ghost use Rattle.std.specs.Prelude.{◌≡◌, ◌++◌, ◌∷◌, ◌<◌, ◌^◌, List, ℕ, [], length, OnOk};
ghost use Rattle.mc_entry.specs.Wire.{Writes, all_wire, asked_wire, at_wire, codec_wire, codecs_wire, descriptor_wire, entry_wire, event_wire, selector_wire, signal_wire, taken_wire, word2, word4, word8, zeros};

use crate::codes::{FORM_VERSION, event_code};
use mc_box::Event;
use mc_lane::Lane;
use mc_shard::{Asked, AtEnd, Entry, medium_code};
use mc_signal::{CodecList, Descriptor, Selector, Signal};
use std::alloc::AllocError;

/// Appends bytes. It fails only for want of memory, as all that follows.
pub fn put(out: &mut Vec<u8>, bytes: &[u8]) -> Result<(), AllocError>
    ensures { OnOk result (Writes out.old.items out.new.items (λ more. bytes.now ++ more)) }
{
    out.extend_from_slice(bytes)
}

/// Appends a number of two bytes.
#[tactic(auto, unfolding(crate::specs::Wire::word2))]
pub fn put2(out: &mut Vec<u8>, n: u16) -> Result<(), AllocError>
    ensures { OnOk result (Writes out.old.items out.new.items (word2 n)) }
{
    put(out, &n.to_le_bytes())
}

/// Appends a number of four bytes.
#[tactic(auto, unfolding(crate::specs::Wire::word4))]
pub fn put4(out: &mut Vec<u8>, n: u32) -> Result<(), AllocError>
    ensures { OnOk result (Writes out.old.items out.new.items (word4 n)) }
{
    put(out, &n.to_le_bytes())
}

/// Appends a number of eight bytes.
#[tactic(auto, unfolding(crate::specs::Wire::word8))]
pub fn put8(out: &mut Vec<u8>, n: u64) -> Result<(), AllocError>
    ensures { OnOk result (Writes out.old.items out.new.items (word8 n)) }
{
    put(out, &n.to_le_bytes())
}

#[tactic(auto, unfolding(crate::specs::Wire::zeros))]
fn put_zeros7(out: &mut Vec<u8>) -> Result<(), AllocError>
    ensures { OnOk result (Writes out.old.items out.new.items (zeros 7)) }
{
    put(out, &[0; 7])
}

#[tactic(auto, unfolding(crate::specs::Wire::zeros))]
fn put_zeros23(out: &mut Vec<u8>) -> Result<(), AllocError>
    ensures { OnOk result (Writes out.old.items out.new.items (zeros 23)) }
{
    put(out, &[0; 23])
}

/// Appends a list of codecs.
pub fn put_codecs(out: &mut Vec<u8>, codecs: &CodecList) -> Result<(), AllocError>
    ensures { OnOk result (Writes out.old.items out.new.items (codecs_wire codecs.now)) }
{
    put(out, &[codecs.len])?;
    put(out, &codecs.at)
}

/// Appends a descriptor.
pub fn put_descriptor(out: &mut Vec<u8>, d: &Descriptor) -> Result<(), AllocError>
    ensures { OnOk result (Writes out.old.items out.new.items (descriptor_wire d.now)) }
{
    put4(out, d.origin)?;
    put4(out, d.version)?;
    put4(out, d.addr)?;
    put2(out, d.port)?;
    put_codecs(out, &d.codecs)
}

fn put_codec(out: &mut Vec<u8>, codec: Option<u8>) -> Result<(), AllocError>
    ensures { OnOk result (Writes out.old.items out.new.items (codec_wire codec)) }
{
    match codec {
        Some(codec) => put(out, &[1, codec]),
        None => put(out, &[0, 0]),
    }
}

/// Appends a selector.
pub fn put_selector(out: &mut Vec<u8>, s: &Selector) -> Result<(), AllocError>
    ensures { OnOk result (Writes out.old.items out.new.items (selector_wire s.now)) }
{
    put4(out, s.origin)?;
    put4(out, s.version)?;
    put4(out, s.addr)?;
    put2(out, s.port)?;
    put_codec(out, s.codec)?;
    put_zeros7(out)
}

fn put_signal(out: &mut Vec<u8>, signal: &Signal) -> Result<(), AllocError>
    ensures { OnOk result (Writes out.old.items out.new.items (signal_wire signal.now)) }
{
    match signal {
        Signal::Open(medium, d) => {
            put(out, &[0, medium_code(*medium)])?;
            put_descriptor(out, d)
        }
        Signal::Oack(d) => {
            put(out, &[1, 0])?;
            put_descriptor(out, d)
        }
        Signal::Close => {
            put(out, &[2, 0])?;
            put_zeros23(out)
        }
        Signal::Closeack => {
            put(out, &[3, 0])?;
            put_zeros23(out)
        }
        Signal::Describe(d) => {
            put(out, &[4, 0])?;
            put_descriptor(out, d)
        }
        Signal::Select(s) => {
            put(out, &[5, 0])?;
            put_selector(out, s)
        }
    }
}

fn put_at(out: &mut Vec<u8>, one: &AtEnd) -> Result<(), AllocError>
    ensures { OnOk result (Writes out.old.items out.new.items (at_wire one.now)) }
{
    put4(out, one.end)?;
    put8(out, one.item.number)?;
    put8(out, one.item.stamp)?;
    put8(out, one.item.digest)?;
    put(out, &[one.item.tunnel])?;
    put_signal(out, &one.item.signal)
}

fn put_taken(out: &mut Vec<u8>, taken: &Option<AtEnd>) -> Result<(), AllocError>
    ensures { OnOk result (Writes out.old.items out.new.items (taken_wire taken.now)) }
{
    match taken {
        Some(one) => {
            put(out, &[1])?;
            put_at(out, one)
        }
        None => put(out, &[0]),
    }
}

fn put_event(out: &mut Vec<u8>, event: Event) -> Result<(), AllocError>
    ensures { OnOk result (Writes out.old.items out.new.items (event_wire event)) }
{
    let code = event_code(event);
    put(out, &[code.0, code.1, code.2])
}

fn put_asked(out: &mut Vec<u8>, asked: Option<Asked>) -> Result<(), AllocError>
    ensures { OnOk result (Writes out.old.items out.new.items (asked_wire asked)) }
{
    match asked {
        Some(asked) => {
            put(out, &[1])?;
            put4(out, asked.asker)?;
            put8(out, asked.number)
        }
        None => put(out, &[0]),
    }
}

fn put_all(out: &mut Vec<u8>, sent: &Lane<AtEnd>) -> Result<(), AllocError>
    ensures { OnOk result (Writes out.old.items out.new.items (all_wire sent.now.items)) }
{
    let len = sent.len();
    for i in 0..len {
        put_at(out, &sent.get(i))?;
    }
    Ok(())
}

// The most bytes of an entry that took and sent nothing, and those of a signal.
const BARE_SIZE: usize = 32;

const SIGNAL_SIZE: usize = 54;

/// Appends an entry's bytes: 20, 12 for a request, 54 for what was taken, and 54 for each signal that was sent. After an
/// error the buffer has a part of them.
pub fn write_entry(entry: &Entry, out: &mut Vec<u8>) -> Result<(), AllocError>
    requires { length entry.now.sent < 2 ^ 16 }
    ensures { OnOk result (Writes out.old.items out.new.items (entry_wire entry.now)) }
{
    out.reserve(BARE_SIZE + SIGNAL_SIZE * (entry.sent.len() + 1))?;
    put(out, &[FORM_VERSION])?;
    put4(out, entry.who)?;
    put8(out, entry.stamp)?;
    put_event(out, entry.event)?;
    put_asked(out, entry.asked)?;
    put_taken(out, &entry.taken)?;
    put2(out, entry.sent.len() as u16)?;
    put_all(out, &entry.sent)
}
