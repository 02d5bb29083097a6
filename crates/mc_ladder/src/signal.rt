// The words of a signal.

ghost use Rattle.std.specs.Prelude.{◌≡◌, ◌++◌, OnOk};
ghost use Rattle.mc_ladder.specs.Signals.{carried_text, codecs_text, described_text, dropped_text, names_descriptor, selected_text, signal_text, signal_word};
ghost use Rattle.mc_ladder.specs.Words.{spaced};
ghost use Rattle.mc_signal.specs.Choice.{codecs_of};

use crate::place::{codec_word, place_word};
use mc_signal::{CodecList, Descriptor, Selector, Signal};
use mc_text::Names;
use mc_world::World;
use std::alloc::{AllocError, Global};

/// The word of a signal alone.
pub fn signal_word(signal: &Signal) -> &'static [u8]
    ensures { result.now ≡ signal_word signal.now }
{
    match signal {
        Signal::Open(_, _) => b"open",
        Signal::Oack(_) => b"oack",
        Signal::Close => b"close",
        Signal::Closeack => b"closeack",
        Signal::Describe(_) => b"describe",
        Signal::Select(_) => b"select",
    }
}

/// Appends a word after a space.
pub fn put_word(word: &[u8], out: &mut Vec<u8>) -> Result<(), AllocError>
    ensures { OnOk result (out.new.items ≡ out.old.items ++ spaced word.now) }
{
    out.push(b' ')?;
    out.extend_from_slice(word)
}

/// Appends the codecs of a descriptor, or that it has none.
pub fn put_codecs(names: &Names, codecs: &CodecList, out: &mut Vec<u8>) -> Result<(), AllocError>
    ensures { OnOk result (out.new.items ≡ out.old.items ++ codecs_text names.now (codecs_of codecs.now)) }
{
    let listed = codecs.as_slice();
    if listed.is_empty() {
        return put_word(b"none", out);
    }
    for codec in listed {
        put_word(codec_word(names, Some(*codec)), out)?;
    }
    Ok(())
}

// Appends the name of a descriptor, by its slot and its version, after a word.
fn put_name(
    alloc: Global,
    names: &Names,
    world: &World,
    word: &[u8],
    origin: u32,
    version: u32,
    out: &mut Vec<u8>,
) -> Result<(), AllocError>
    ensures { OnOk result (out.new.items
        ≡ out.old.items ++ names_descriptor names.now world.now word.now origin version) }
{
    let place = place_word(alloc, names, world, origin)?;
    let number = format!(in alloc; "{version}")?;
    put_word(word, out)?;
    put_word(&place, out)?;
    put_word(number.as_bytes(), out)
}

// Appends a descriptor: its codecs, and whose it is.
fn put_described(
    alloc: Global,
    names: &Names,
    world: &World,
    d: &Descriptor,
    out: &mut Vec<u8>,
) -> Result<(), AllocError>
    ensures { OnOk result (out.new.items ≡ out.old.items ++ described_text names.now world.now d.now) }
{
    put_codecs(names, &d.codecs, out)?;
    put_name(alloc, names, world, b"of", d.origin, d.version, out)
}

// Appends a selector: its codec, and the descriptor that it answers.
fn put_selected(
    alloc: Global,
    names: &Names,
    world: &World,
    s: &Selector,
    out: &mut Vec<u8>,
) -> Result<(), AllocError>
    ensures { OnOk result (out.new.items ≡ out.old.items ++ selected_text names.now world.now s.now) }
{
    put_word(codec_word(names, s.codec), out)?;
    put_name(alloc, names, world, b"for", s.origin, s.version, out)
}

// Appends what a signal carries.
fn put_carried(
    alloc: Global,
    names: &Names,
    world: &World,
    signal: &Signal,
    out: &mut Vec<u8>,
) -> Result<(), AllocError>
    ensures { OnOk result (out.new.items ≡ out.old.items ++ carried_text names.now world.now signal.now) }
{
    match signal {
        Signal::Open(_, d) => put_described(alloc, names, world, d, out),
        Signal::Oack(d) => put_described(alloc, names, world, d, out),
        Signal::Describe(d) => put_described(alloc, names, world, d, out),
        Signal::Select(s) => put_selected(alloc, names, world, s, out),
        Signal::Close => Ok(()),
        Signal::Closeack => Ok(()),
    }
}

// Appends that a signal is dropped, where it is.
fn put_dropped(dropped: bool, out: &mut Vec<u8>) -> Result<(), AllocError>
    ensures { OnOk result (out.new.items ≡ out.old.items ++ dropped_text dropped) }
{
    if dropped {
        put_word(b"dropped", out)
    } else {
        Ok(())
    }
}

/// Appends the words of a signal, each after a space.
pub fn put_signal(
    alloc: Global,
    names: &Names,
    world: &World,
    signal: &Signal,
    dropped: bool,
    out: &mut Vec<u8>,
) -> Result<(), AllocError>
    ensures { OnOk result (out.new.items ≡ out.old.items ++ signal_text names.now world.now signal.now dropped) }
{
    put_word(signal_word(signal), out)?;
    put_carried(alloc, names, world, signal, out)?;
    put_dropped(dropped, out)
}
