// The digest of a signal in its lane.

ghost use Rattle.std.specs.Prelude.{◌≡◌};
ghost use Rattle.std.specs.List.{fold};
ghost use Rattle.mc_shard.specs.Digests.{codec_words, descriptor_words, digest_after, medium_code, mixed, selector_words, signal_words};

use crate::limit::DIGEST_FACTOR;
use mc_signal::{Descriptor, Medium, Selector, Signal};

/// The number of a medium.
pub fn medium_code(medium: Medium) -> u8
    ensures { result ≡ medium_code medium }
{
    match medium {
        Medium::Audio => 0,
        Medium::Video => 1,
    }
}

// A round for each word.
#[tactic(auto, unfolding(crate::specs::Digests::mixed))]
fn mixed_all(digest: u64, words: &[u64]) -> u64
    ensures { result ≡ fold mixed digest words.now }
{
    let mut mixed = digest;
    for word in words {
        mixed = (mixed ^ *word).wrapping_mul(DIGEST_FACTOR);
    }
    mixed
}

fn with_descriptor(digest: u64, d: &Descriptor) -> u64
    ensures { result ≡ fold mixed digest (descriptor_words d.now) }
{
    let words = [
        d.origin as u64,
        d.version as u64,
        d.addr as u64,
        d.port as u64,
        d.codecs.len as u64,
        u64::from_le_bytes(d.codecs.at),
    ];
    mixed_all(digest, &words)
}

fn with_codec(digest: u64, codec: Option<u8>) -> u64
    ensures { result ≡ fold mixed digest (codec_words codec) }
{
    match codec {
        Some(codec) => mixed_all(digest, &[1, codec as u64]),
        None => mixed_all(digest, &[0, 0]),
    }
}

fn with_selector(digest: u64, s: &Selector) -> u64
    ensures { result ≡ fold mixed digest (selector_words s.now) }
{
    let words = [
        s.origin as u64,
        s.version as u64,
        s.addr as u64,
        s.port as u64,
    ];
    with_codec(mixed_all(digest, &words), s.codec)
}

fn with_signal(digest: u64, signal: &Signal) -> u64
    ensures { result ≡ fold mixed digest (signal_words signal.now) }
{
    match signal {
        Signal::Open(medium, d) => {
            let opened = mixed_all(digest, &[0, medium_code(*medium) as u64]);
            with_descriptor(opened, d)
        }
        Signal::Oack(d) => with_descriptor(mixed_all(digest, &[1]), d),
        Signal::Close => mixed_all(digest, &[2]),
        Signal::Closeack => mixed_all(digest, &[3]),
        Signal::Describe(d) => with_descriptor(mixed_all(digest, &[4]), d),
        Signal::Select(s) => with_selector(mixed_all(digest, &[5]), s),
    }
}

/// The digest of a signal after that of the signal before it, which is 0 for the first of a lane.
#[tactic(auto, unfolding(crate::specs::Digests::digest_after))]
pub(crate) fn digest_after(last: u64, number: u64, stamp: u64, tunnel: u8, signal: &Signal) -> u64
    ensures { result ≡ digest_after last number stamp tunnel signal.now }
{
    let placed = mixed_all(last, &[number, stamp, tunnel as u64]);
    with_signal(placed, signal)
}
