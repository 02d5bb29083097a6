// How a signal looks: its colour, and the words over its arrow.

ghost use Rattle.std.specs.Prelude.{◌≡◌, ◌++◌, IfOk, OnOk};
ghost use Rattle.mc_ladder_svg.specs.Signals.{fitted, shown_codecs, shown_words, signal_class};

use mc_ladder::{codec_word, put_codecs, put_word, signal_word};
use mc_signal::Signal;
use mc_text::Names;
use std::alloc::{AllocError, Global};

// The most bytes of the words over an arrow.
pub const MOST: usize = 18;

// The class of a signal's colour.
pub fn signal_class(signal: &Signal) -> &'static str
    ensures { result.now ≡ signal_class signal.now }
{
    match signal {
        Signal::Open(_, _) => "op",
        Signal::Oack(_) => "op",
        Signal::Close => "cl",
        Signal::Closeack => "cl",
        Signal::Describe(_) => "me",
        Signal::Select(_) => "me",
    }
}

// Appends the codecs that a signal carries.
fn put_shown_codecs(names: &Names, signal: &Signal, out: &mut Vec<u8>) -> Result<(), AllocError>
    ensures { OnOk result (out.new.items ≡ out.old.items ++ shown_codecs names.now signal.now) }
{
    match signal {
        Signal::Open(_, d) => put_codecs(names, &d.codecs, out),
        Signal::Oack(d) => put_codecs(names, &d.codecs, out),
        Signal::Describe(d) => put_codecs(names, &d.codecs, out),
        Signal::Select(s) => put_word(codec_word(names, s.codec), out),
        Signal::Close => Ok(()),
        Signal::Closeack => Ok(()),
    }
}

// Words that fit over an arrow: where there are too many bytes, all that find room before a mark that tells so.
fn fitted(mut words: Vec<u8>) -> Result<Vec<u8>, AllocError>
    ensures { IfOk result (λ cut. cut.items ≡ fitted words.items) }
{
    if words.len() > MOST {
        words.truncate(MOST - 1);
        words.extend_from_slice(b"\xe2\x80\xa6")?;
    }
    Ok(words)
}

// The words over the arrow of a signal.
pub fn shown_words(alloc: Global, names: &Names, signal: &Signal) -> Result<Vec<u8>, AllocError>
    ensures { IfOk result (λ words. words.items ≡ shown_words names.now signal.now) }
{
    let mut words = Vec::from_slice(alloc, signal_word(signal))?;
    put_shown_codecs(names, signal, &mut words)?;
    fitted(words)
}
