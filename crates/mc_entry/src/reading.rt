//! The parts of an entry read from bytes. Where the bytes have another form, what is read has no meaning.

ghost use Rattle.std.specs.Prelude.{◌≡◌, ◌<◌, ◌≤◌, ◌∷◌, ◌++◌, [], List, ℕ, length, false, IfOk};
ghost use Rattle.std.specs.List.{AllByRecursion};
ghost use Rattle.mc_signal.specs.Choice.{codecs_of, has_codec};
ghost use Rattle.mc_signal.specs.declared.codec_list.CodecList.{CodecList as Codecs};
ghost use Rattle.mc_entry.specs.Reading.{Reads, ReadsAll, ReadsAny};
ghost use Rattle.mc_entry.specs.Wire.{FitsAt, FitsDescriptor, FitsRequest, FitsSelector, FitsSignal, FitsTaken, asked_wire, at_wire, codec_wire, codecs_wire, descriptor_wire, event_wire, selector_wire, signal_wire, taken_wire};

use crate::bytes::Bytes;
use crate::codes::{event_of, medium_of};
use mc_box::Event;
use mc_lane::Lane;
use mc_shard::{Asked, AtEnd, Numbered};
use mc_signal::{CodecList, Descriptor, Medium, Selector, Signal};
use std::alloc::{AllocError, Global};

// Adds a codec where it can be added.
fn add_codec(list: &mut CodecList, codec: u8)
    ensures { codec < 64 → has_codec (codecs_of list.old) codec ≡ false → length (codecs_of list.old) < 8
        → codecs_of list.new ≡ codecs_of list.old ++ codec ∷ [] }
{
    if codec >= 64 {
        return;
    }
    if list.has(codec) {
        return;
    }
    let _ = list.add(codec);
}

// The list of so many codecs in eight places.
fn codec_list(len: u8, at: [u8; 8]) -> CodecList
    ensures { (list : Codecs) → list.len ≡ len → list.at ≡ at → result ≡ list }
{
    let mut found = CodecList::none();
    let count = (len as usize).min(8);
    for i in 0..count {
        add_codec(&mut found, at[i]);
    }
    found
}

/// A list of codecs, in nine bytes.
pub fn read_codecs(bytes: &mut Bytes<'_>) -> CodecList
    ensures { ReadsAny codecs_wire bytes.old bytes.new result }
{
    let len = bytes.byte();
    let at = bytes.eight();
    codec_list(len, at)
}

/// A descriptor, in 23 bytes.
pub fn read_descriptor(bytes: &mut Bytes<'_>) -> Descriptor
    ensures fits { FitsDescriptor result }
    ensures reads { Reads FitsDescriptor descriptor_wire bytes.old bytes.new result }
{
    let origin = bytes.word4();
    let version = bytes.word4();
    let addr = bytes.word4();
    let port = bytes.word2();
    let codecs = read_codecs(bytes);
    Descriptor {
        origin,
        version,
        addr,
        port,
        codecs,
    }
}

fn read_codec(bytes: &mut Bytes<'_>) -> Option<u8>
    ensures { ReadsAny codec_wire bytes.old bytes.new result }
{
    let is_some = bytes.byte();
    let codec = bytes.byte();
    if is_some == 1 { Some(codec) } else { None }
}

/// A selector, in as many.
pub fn read_selector(bytes: &mut Bytes<'_>) -> Selector
    ensures fits { FitsSelector result }
    ensures reads { Reads FitsSelector selector_wire bytes.old bytes.new result }
{
    let origin = bytes.word4();
    let version = bytes.word4();
    let addr = bytes.word4();
    let port = bytes.word2();
    let codec = read_codec(bytes);
    bytes.skip(7);
    Selector {
        origin,
        version,
        addr,
        port,
        codec,
    }
}

fn read_signal(bytes: &mut Bytes<'_>) -> Signal
    ensures fits { FitsSignal result }
    ensures reads { Reads FitsSignal signal_wire bytes.old bytes.new result }
{
    let kind = bytes.byte();
    let medium = medium_of(bytes.byte());
    match kind {
        0 => Signal::Open(medium, read_descriptor(bytes)),
        1 => Signal::Oack(read_descriptor(bytes)),
        2 => {
            bytes.skip(23);
            Signal::Close
        }
        3 => {
            bytes.skip(23);
            Signal::Closeack
        }
        4 => Signal::Describe(read_descriptor(bytes)),
        _ => Signal::Select(read_selector(bytes)),
    }
}

fn read_at(bytes: &mut Bytes<'_>) -> AtEnd
    ensures fits { FitsAt result }
    ensures reads { Reads FitsAt at_wire bytes.old bytes.new result }
{
    let end = bytes.word4();
    let number = bytes.word8();
    let stamp = bytes.word8();
    let digest = bytes.word8();
    let tunnel = bytes.byte();
    let signal = read_signal(bytes);
    let item = Numbered {
        number,
        stamp,
        digest,
        tunnel,
        signal,
    };
    AtEnd { end, item }
}

/// What an entry took.
pub fn read_taken(bytes: &mut Bytes<'_>) -> Option<AtEnd>
    ensures fits { FitsTaken result }
    ensures reads { Reads FitsTaken taken_wire bytes.old bytes.new result }
{
    if bytes.byte() == 1 {
        Some(read_at(bytes))
    } else {
        None
    }
}

/// Which request asked for an entry.
pub fn read_asked(bytes: &mut Bytes<'_>) -> Option<Asked>
    ensures fits { FitsRequest result }
    ensures reads { Reads FitsRequest asked_wire bytes.old bytes.new result }
{
    if bytes.byte() == 1 {
        let asker = bytes.word4();
        let number = bytes.word8();
        Some(Asked { asker, number })
    } else {
        None
    }
}

/// Which event it is.
pub fn read_event(bytes: &mut Bytes<'_>) -> Event
    ensures { ReadsAny event_wire bytes.old bytes.new result }
{
    let kind = bytes.byte();
    let first = bytes.byte();
    let second = bytes.byte();
    event_of(kind, first, second)
}

/// So many signals that were sent.
pub fn read_sent(
    alloc: Global,
    bytes: &mut Bytes<'_>,
    count: u16,
) -> Result<Lane<AtEnd>, AllocError>
    ensures few { IfOk result (λ sent. length sent.items ≡ count) }
    ensures fits { IfOk result (λ sent. AllByRecursion FitsAt sent.items) }
    ensures reads { IfOk result (λ sent. ReadsAll count bytes.old bytes.new sent.items) }
{
    let mut sent = Lane::new(alloc);
    for _ in 0..count {
        sent.reserve(1)?;
        sent.push(read_at(bytes));
    }
    Ok(sent)
}
