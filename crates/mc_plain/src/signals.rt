//! What crosses between C and a box: structs of numbers, each of which may say anything.

ghost use Rattle.std.specs.Prelude.{◌≡◌, ◌∷◌, [], ◌++◌, ◌≤◌, true, IfSome, IsTrue, is_some, length};
ghost use Rattle.mc_signal.specs.Choice.{codecs_of};
ghost use Rattle.mc_signal.specs.Codecs.{AreCodecs, IsBlankFrom};
ghost use Rattle.mc_plain.specs.Numbers.{can_add, can_list, is_list, is_signal, medium_number, medium_of, named, no_list, one_codec, plain_bare, plain_descriptor, plain_selector, plain_of, sent_of, IsDescribed, IsStored, Says, SaysDescriptor, SaysSelector, Tells};

use mc_signal::{CodecList, Descriptor, Medium, Selector, Signal};

/// At most eight codecs, in order of preference: the first `count` entries of `at`.
#[repr(C)]
#[derive(Clone, Copy)]
pub struct PlainList {
    pub count: u8,
    pub at: [u8; 8],
}

/// A signal. `kind` is 0 for an open, 1 for an oack, 2 for a close, 3 for a closeack, 4 for a describe and 5 for a
/// select. `medium` is of an open: 0 for audio and 1 for video. A select has at most one codec. A close and a closeack
/// have nothing more.
#[repr(C)]
#[derive(Clone, Copy)]
pub struct PlainSignal {
    pub kind: u8,
    pub medium: u8,
    pub codecs: PlainList,
    pub port: u16,
    pub origin: u32,
    pub version: u32,
    pub addr: u32,
}

/// A signal that a box sends, with the local number of its slot.
#[repr(C)]
#[derive(Clone, Copy)]
pub struct PlainSent {
    pub slot: u8,
    pub signal: PlainSignal,
}

// The bits of eight bytes that are 0 where so many of them are codecs, below 64, and those after them are 0.
static OUTSIDE: [u64; 9] = [
    0xffffffffffffffff,
    0xffffffffffffffc0,
    0xffffffffffffc0c0,
    0xffffffffffc0c0c0,
    0xffffffffc0c0c0c0,
    0xffffffc0c0c0c0c0,
    0xffffc0c0c0c0c0c0,
    0xffc0c0c0c0c0c0c0,
    0xc0c0c0c0c0c0c0c0,
];

impl PlainList {
    /// The list that these numbers say, where there is one.
    pub fn list(&self) -> Option<CodecList>
        ensures lists { IfSome result (λ list. codecs_of list ≡ named self.now) }
        ensures reads { is_some result ≡ is_list self.now }
    {
        if 8 < self.count {
            return None;
        }
        listed(&self.at[..self.count as usize])
    }

    // Whether these are the numbers of a list as it is stored.
    #[inline(always)]
    fn is_stored(&self) -> bool
        requires { self.now.count ≤ 8 }
        ensures { result ≡ true → IsStored self.now.count self.now.at }
    {
        if self.marks().count_ones() != self.count as u32 {
            return false;
        }
        let at = self.at;
        are_codecs(self.count, at)
    }

    // The codecs as bits.
    #[inline(always)]
    fn marks(&self) -> u64
        requires { self.now.count ≤ 8 }
        ensures { Tells (named self.now) result }
    {
        if self.count == 8 {
            marks_of_eight(&self.at[..8])
        } else {
            marks(&self.at[..self.count as usize])
        }
    }

    // Takes no codecs.
    fn set_none(&mut self)
        ensures { self.new ≡ no_list }
    {
        self.count = 0;
        self.at = [0; 8];
    }

    // Takes a codec alone.
    fn set_one(&mut self, codec: u8)
        ensures { self.new ≡ one_codec codec }
    {
        self.count = 1;
        self.at = [codec, 0, 0, 0, 0, 0, 0, 0];
    }
}

// Codecs as bits, by their lowest six bits.
#[inline(always)]
fn marks(codecs: &[u8]) -> u64
    ensures { Tells codecs.now result }
{
    let mut marks = 0u64;
    for i in 0..codecs.len() {
        marks |= 1u64 << (codecs[i] & 63);
    }
    marks
}

// The same of eight codecs, with no test for the end of them. Different bits come together by either operator, and the
// compiler leaves a mixture as it is, where it would take vectors and more steps for one of them.
#[inline(always)]
fn marks_of_eight(codecs: &[u8]) -> u64
    requires { length codecs.now ≡ 8 }
    ensures { Tells codecs.now result }
{
    let mut marks = 0u64;
    for i in 0..4 {
        marks |= 1u64 << (codecs[2 * i] & 63);
        marks ^= 1u64 << (codecs[2 * i + 1] & 63);
    }
    marks
}

// Whether so many are codecs, below 64, and 0 after them.
#[inline(always)]
fn are_codecs(count: u8, at: [u8; 8]) -> bool
    requires { count ≤ 8 }
    ensures { result ≡ true → AreCodecs count at × IsBlankFrom count at }
{
    u64::from_le_bytes(at) & OUTSIDE[count as usize] == 0
}

// The list of these codecs, where they are one.
fn listed(codecs: &[u8]) -> Option<CodecList>
    ensures lists { IfSome result (λ list. codecs_of list ≡ codecs.now) }
    ensures reads { is_some result ≡ can_list [] codecs.now }
{
    let mut list = CodecList::none();
    let mut rest = codecs;
    while let Some((codec, others)) = rest.split_first() {
        if !add(&mut list, *codec) {
            return None;
        }
        rest = others;
    }
    Some(list)
}

// Adds a codec that can be added.
#[tactic(auto, using(crate::proofs::Lists::has_codec_contains))]
fn add(list: &mut CodecList, codec: u8) -> bool
    ensures could { result ≡ can_add (codecs_of list.old) codec }
    ensures added { IsTrue result → codecs_of list.new ≡ codecs_of list.old ++ codec ∷ [] }
{
    codec < 64 && !list.has(codec) && list.len < 8 && list.add(codec).is_ok()
}

/// The medium of a number below 2.
pub fn medium_of(number: u8) -> Medium
    ensures { result ≡ medium_of number }
{
    if number == 0 {
        Medium::Audio
    } else {
        Medium::Video
    }
}

/// The number of a medium.
pub fn medium_number(medium: Medium) -> u8
    ensures { result ≡ medium_number medium }
{
    match medium {
        Medium::Audio => 0,
        Medium::Video => 1,
    }
}

impl PlainSignal {
    /// Whether these numbers say a signal.
    #[inline(never)]
    pub fn is_signal(&self) -> bool
        ensures { result ≡ is_signal self.now }
    {
        let mut signal = Signal::Close;
        self.read(&mut signal)
    }

    /// Reads the signal that these numbers say into `signal`. Answers whether they say one.
    #[inline(always)]
    pub fn read(&self, signal: &mut Signal) -> bool
        ensures says { result ≡ true → Says self.now signal.new }
        ensures reads { result ≡ is_signal self.now }
    {
        match self.kind {
            0 if 1 < self.medium => return false,
            0 | 1 | 4 => return self.read_described(signal),
            2 => *signal = Signal::Close,
            3 => *signal = Signal::Closeack,
            5 if self.codecs.count <= 1 => *signal = Signal::Select(self.selector()),
            _ => return false,
        }
        true
    }

    // The same, of a signal with a descriptor.
    #[inline(always)]
    fn read_described(&self, signal: &mut Signal) -> bool
        requires { IsDescribed self.now }
        ensures says { result ≡ true → Says self.now signal.new }
        ensures reads { result ≡ is_signal self.now }
    {
        if 8 < self.codecs.count {
            return false;
        }
        if !self.codecs.is_stored() {
            return self.read_listed(signal);
        }
        match self.kind {
            0 => *signal = Signal::Open(medium_of(self.medium), self.stored_descriptor()),
            1 => *signal = Signal::Oack(self.stored_descriptor()),
            _ => *signal = Signal::Describe(self.stored_descriptor()),
        }
        true
    }

    // The same, where the codecs aren't as a list stores them, but may be one.
    #[inline(never)]
    fn read_listed(&self, signal: &mut Signal) -> bool
        requires { IsDescribed self.now }
        ensures says { result ≡ true → Says self.now signal.new }
        ensures reads { result ≡ is_signal self.now }
    {
        match self.descriptor() {
            Some(d) => {
                *signal = self.describing(d);
                true
            }
            None => false,
        }
    }

    // The signal of this kind with a descriptor.
    fn describing(&self, d: Descriptor) -> Signal
        requires kind { IsDescribed self.now }
        requires says { SaysDescriptor self.now d }
        ensures { Says self.now result }
    {
        match self.kind {
            0 => Signal::Open(medium_of(self.medium), d),
            1 => Signal::Oack(d),
            _ => Signal::Describe(d),
        }
    }

    // The descriptor that these numbers say, where their codecs are those of a list as it is stored.
    fn stored_descriptor(&self) -> Descriptor
        requires few { self.now.codecs.count ≤ 8 }
        requires stored { IsStored self.now.codecs.count self.now.codecs.at }
        ensures { SaysDescriptor self.now result }
    {
        Descriptor {
            origin: self.origin,
            version: self.version,
            addr: self.addr,
            port: self.port,
            codecs: CodecList {
                len: self.codecs.count,
                at: self.codecs.at,
            },
        }
    }

    // The selector that these numbers say, with the codec that is named.
    fn selector(&self) -> Selector
        requires { self.now.codecs.count ≤ 1 }
        ensures { SaysSelector self.now result }
    {
        Selector {
            origin: self.origin,
            version: self.version,
            addr: self.addr,
            port: self.port,
            codec: if self.codecs.count == 0 {
                None
            } else {
                Some(self.codecs.at[0])
            },
        }
    }

    // The descriptor that these numbers say, where their codecs are a list.
    fn descriptor(&self) -> Option<Descriptor>
        ensures says { IfSome result (SaysDescriptor self.now) }
        ensures reads { is_some result ≡ is_list self.now.codecs }
    {
        match self.codecs.list() {
            Some(codecs) => Some(Descriptor {
                origin: self.origin,
                version: self.version,
                addr: self.addr,
                port: self.port,
                codecs,
            }),
            None => None,
        }
    }

    /// Takes the numbers of a signal.
    #[inline(always)]
    pub fn set(&mut self, signal: &Signal)
        ensures { self.new ≡ plain_of signal.now }
    {
        match signal {
            Signal::Open(medium, d) => self.set_described(0, medium_number(*medium), d),
            Signal::Oack(d) => self.set_described(1, 0, d),
            Signal::Close => self.set_bare(2),
            Signal::Closeack => self.set_bare(3),
            Signal::Describe(d) => self.set_described(4, 0, d),
            Signal::Select(s) => self.set_selector(s),
        }
    }

    fn set_described(&mut self, kind: u8, medium: u8, d: &Descriptor)
        ensures { self.new ≡ plain_descriptor kind medium d.now }
    {
        let (count, at) = (d.codecs.len, d.codecs.at);
        let (port, origin, version, addr) = (d.port, d.origin, d.version, d.addr);
        self.kind = kind;
        self.medium = medium;
        self.codecs.count = count;
        self.codecs.at = at;
        self.port = port;
        self.origin = origin;
        self.version = version;
        self.addr = addr;
    }

    fn set_selector(&mut self, s: &Selector)
        ensures { self.new ≡ plain_selector s.now }
    {
        let s = *s;
        self.kind = 5;
        self.medium = 0;
        match s.codec {
            Some(codec) => self.codecs.set_one(codec),
            None => self.codecs.set_none(),
        }
        self.port = s.port;
        self.origin = s.origin;
        self.version = s.version;
        self.addr = s.addr;
    }

    fn set_bare(&mut self, kind: u8)
        ensures { self.new ≡ plain_bare kind }
    {
        self.kind = kind;
        self.medium = 0;
        self.codecs.set_none();
        self.port = 0;
        self.origin = 0;
        self.version = 0;
        self.addr = 0;
    }
}

impl PlainSent {
    /// Takes the numbers of a signal that a slot sends.
    #[inline(always)]
    pub fn set(&mut self, sent: &(u8, Signal))
        ensures { self.new ≡ sent_of sent.now }
    {
        self.slot = sent.0;
        self.signal.set(&sent.1);
    }
}
