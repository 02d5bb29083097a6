//! What the boxes of a call say to each other: descriptors, selectors and the six signals.
#![tactic(auto)]

ghost use Rattle.std.specs.Prelude.{◌≡◌};
ghost use Rattle.mc_signal.specs.Choice.{answers, codecs_of, choose, shared_codec};

mod codec_list;
pub mod laws;

pub use codec_list::{CodecList, ListFull};

/// What a tunnel carries, from its beginning to its end.
#[derive(Clone, Copy, PartialEq, Eq, Debug)]
pub enum Medium {
    Audio,
    Video,
}

/// Where an end wants its media, and in which codecs, the best first. No codecs means no media.
///
/// `origin` is the number of the slot whose descriptor it is, and `version` tells its newer from its older ones.
#[derive(Clone, Copy, PartialEq, Eq, Debug)]
pub struct Descriptor {
    pub origin: u32,
    pub version: u32,
    pub addr: u32,
    pub port: u16,
    pub codecs: CodecList,
}

/// The answer to a descriptor: from where media come, and in which codec, if in any.
///
/// It names the descriptor that it answers by origin and version.
#[derive(Clone, Copy, PartialEq, Eq, Debug)]
pub struct Selector {
    pub origin: u32,
    pub version: u32,
    pub addr: u32,
    pub port: u16,
    pub codec: Option<u8>,
}

/// What an end can send, and from where. No codecs means that it sends nothing.
#[derive(Clone, Copy, PartialEq, Eq, Debug)]
pub struct Sender {
    pub addr: u32,
    pub port: u16,
    pub codecs: CodecList,
}

/// One of the six signals of a tunnel.
#[derive(Clone, Copy, PartialEq, Eq, Debug)]
pub enum Signal {
    /// Asks for media, and says where the asking end wants them.
    Open(Medium, Descriptor),
    /// Accepts an open, and says where the accepting end wants its media.
    Oack(Descriptor),
    /// Ends the media, or refuses an open.
    Close,
    /// Answers a close.
    Closeack,
    /// Says anew where an end wants its media.
    Describe(Descriptor),
    /// Answers a descriptor.
    Select(Selector),
}

/// A signal in the lane of a channel, with the tunnel of the channel that it belongs to, counted from 0.
#[derive(Clone, Copy, PartialEq, Eq, Debug)]
pub struct Tagged {
    pub tunnel: u8,
    pub signal: Signal,
}

// The first of the offered codecs that is among those that can be sent.
fn shared_codec(offered: &CodecList, able: &CodecList) -> Option<u8>
    ensures { result ≡ shared_codec (codecs_of offered.now) (codecs_of able.now) }
{
    offered
        .as_slice()
        .iter()
        .copied()
        .find(|codec| able.has(*codec))
}

/// The selector with which a sender answers a descriptor: its codec is the first of the descriptor's
/// that the sender can send, and none where it can send none of them.
pub fn choose(d: Descriptor, me: &Sender) -> Selector
    ensures { result ≡ choose d me.now }
{
    Selector {
        origin: d.origin,
        version: d.version,
        addr: me.addr,
        port: me.port,
        codec: shared_codec(&d.codecs, &me.codecs),
    }
}

/// Whether a selector answers a descriptor: their origins and versions are equal.
pub fn answers(s: &Selector, d: &Descriptor) -> bool
    ensures { result ≡ answers s.now d.now }
{
    s.origin == d.origin && s.version == d.version
}
