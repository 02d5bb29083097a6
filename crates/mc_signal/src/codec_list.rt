// A short list of codecs without repeats.

ghost use Rattle.std.specs.Prelude.{◌≡◌, ◌+◌, ◌<◌, ◌≤◌, ℕ, length};
ghost use Rattle.mc_signal.specs.Codecs.{AreCodecs, AreDistinct, HasPlaces, IsBlankFrom};

/// The list has eight codecs already, and stays as it was.
#[derive(Clone, Copy, PartialEq, Eq, Debug)]
pub struct ListFull;

/// At most eight different codecs, in order of preference. A codec is a number below 64.
///
/// The first `len` entries of `at` are the codecs, and the others are 0. So two lists with the same codecs are one and the same.
#[derive(Clone, Copy, PartialEq, Eq, Debug)]
pub struct CodecList {
    pub len: u8,
    pub at: [u8; 8],
    pub ghost places: { HasPlaces at },
    pub ghost short: { len ≤ 8 },
    pub ghost known: { AreCodecs len at },
    pub ghost distinct: { AreDistinct len at },
    pub ghost blank: { IsBlankFrom len at },
}

impl CodecList {
    ghost use Rattle.std.specs.Prelude.{◌++◌, [], ◌∷◌, ◌↔◌, IsTrue, IsErr, OnOk, OnErr, Contains};
    ghost use Rattle.mc_signal.specs.Choice.{codecs_of, has_codec};
    ghost use Rattle.mc_signal.specs.Empty.{no_codecs};

    /// The list without codecs.
    pub fn none() -> CodecList
        ensures empty { codecs_of result ≡ [] }
        ensures value { result ≡ no_codecs }
    {
        CodecList { len: 0, at: [0; 8] }
    }

    /// The codecs in order.
    pub fn as_slice(&self) -> &[u8]
        ensures { result.now ≡ codecs_of self.now }
    {
        &self.at[..self.len as usize]
    }

    /// Adds a codec last. A list of eight is full, and stays as it was.
    pub fn add(&mut self, codec: u8) -> Result<(), ListFull>
        requires below_64 { codec < 64 }
        requires new { ¬ Contains (codecs_of self.old) codec }
        ensures added { OnOk result (codecs_of self.new ≡ codecs_of self.old ++ codec ∷ []) }
        ensures full { IsErr result ↔ (self.old.len ≡ 8) }
        ensures unchanged { OnErr result (self.new ≡ self.old) }
    {
        if self.len == 8 {
            return Err(ListFull);
        }
        self.at[self.len as usize] = codec;
        self.len += 1;
        Ok(())
    }

    /// Whether a codec is in the list.
    pub fn has(&self, codec: u8) -> bool
        ensures { result ≡ has_codec (codecs_of self.now) codec }
    {
        self.as_slice().iter().any(|c| *c == codec)
    }
}
