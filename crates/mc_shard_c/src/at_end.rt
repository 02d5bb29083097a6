//! Requests, and signals at channel ends, as structs of numbers.

ghost use Rattle.std.specs.Prelude.{◌≡◌, IfSome, is_some};
ghost use Rattle.mc_plain.specs.Numbers.{is_signal, Says};
ghost use Rattle.mc_shard_c.specs.Asking.{asked_of, is_asked, no_plain_at, plain_asked, plain_at, SaysAt};

use mc_plain::signals::{PlainList, PlainSignal};
use mc_shard::{Asked, AtEnd, Numbered};
use mc_signal::Signal;

/// Who asks, and which of its requests it is. `has_asker` is 1 where somebody does, and 0 where it is no asker's.
#[repr(C)]
#[derive(Clone, Copy)]
pub struct PlainAsked {
    pub has_asker: u8,
    pub asker: u32,
    pub number: u64,
}

/// A signal at a channel end.
#[repr(C)]
#[derive(Clone, Copy)]
pub struct PlainAtEnd {
    pub number: u64,
    pub stamp: u64,
    pub digest: u64,
    pub end: u32,
    pub tunnel: u8,
    pub signal: PlainSignal,
}

impl PlainAsked {
    /// Whether these numbers say who asks.
    pub fn is_asked(&self) -> bool
        ensures { result ≡ is_asked self.now }
    {
        self.has_asker < 2
    }

    /// The request that they say, if it is an asker's.
    pub fn asked(&self) -> Option<Asked>
        ensures { result ≡ asked_of self.now }
    {
        if self.has_asker == 1 {
            Some(Asked {
                asker: self.asker,
                number: self.number,
            })
        } else {
            None
        }
    }

    /// The numbers of a request.
    pub fn of(asked: Option<Asked>) -> PlainAsked
        ensures { result ≡ plain_asked asked }
    {
        match asked {
            Some(asked) => PlainAsked {
                has_asker: 1,
                asker: asked.asker,
                number: asked.number,
            },
            None => PlainAsked {
                has_asker: 0,
                asker: 0,
                number: 0,
            },
        }
    }
}

impl PlainAtEnd {
    // The signal with this one in it.
    fn with(&self, signal: Signal) -> AtEnd
        requires { Says self.now.signal signal }
        ensures { SaysAt self.now result }
    {
        let item = Numbered {
            number: self.number,
            stamp: self.stamp,
            digest: self.digest,
            tunnel: self.tunnel,
            signal,
        };
        AtEnd {
            end: self.end,
            item,
        }
    }

    /// The signal that these numbers say, where they say one.
    pub fn at(&self) -> Option<AtEnd>
        ensures says { IfSome result (SaysAt self.now) }
        ensures reads { is_some result ≡ is_signal self.now.signal }
    {
        let mut signal = Signal::Close;
        if self.signal.read(&mut signal) {
            Some(self.with(signal))
        } else {
            None
        }
    }

    /// Takes the numbers of a signal.
    pub fn set(&mut self, at: &AtEnd)
        ensures { self.new ≡ plain_at at.now }
    {
        self.number = at.item.number;
        self.stamp = at.item.stamp;
        self.digest = at.item.digest;
        self.end = at.end;
        self.tunnel = at.item.tunnel;
        self.signal.set(&at.item.signal);
    }

    /// All zeros.
    pub fn none() -> PlainAtEnd
        ensures { result ≡ no_plain_at }
    {
        PlainAtEnd {
            number: 0,
            stamp: 0,
            digest: 0,
            end: 0,
            tunnel: 0,
            signal: PlainSignal {
                kind: 0,
                medium: 0,
                codecs: PlainList {
                    count: 0,
                    at: [0; 8],
                },
                port: 0,
                origin: 0,
                version: 0,
                addr: 0,
            },
        }
    }
}
