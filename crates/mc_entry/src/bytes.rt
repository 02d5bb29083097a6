//! Bytes read one after another.

ghost use Rattle.std.specs.Prelude.{◌≡◌, ◌∷◌, ◌++◌, ◌<◌, ◌^◌, List, ℕ, length};
ghost use Rattle.mc_entry.specs.Reading.{Reads, ReadsAny};
ghost use Rattle.mc_entry.specs.Wire.{word2, word4, word8, zeros};

use std::marker::Model;

/// The bytes that are still to be read. Past their end each byte is 0.
#[derive(Drop)]
pub struct Bytes<'a> {
    rest: &'a [u8],
}

impl<'a> Model for Bytes<'a> {
    ghost use Rattle.std.specs.Prelude.{List, ℕ};

    ghost Value = { List ℕ };

    ghost view = { λ bytes. bytes.rest.now };
}

impl<'a> Bytes<'a> {
    /// All of these.
    pub fn new(rest: &'a [u8]) -> Bytes<'a>
        ensures { result ≡ rest.now }
    {
        Bytes { rest }
    }

    /// How many are left.
    pub fn left(&self) -> usize
        ensures { result ≡ length self.now }
    {
        self.rest.len()
    }

    /// One byte.
    pub fn byte(&mut self) -> u8
        ensures { ReadsAny (λ n more. n ∷ more) self.old self.new result }
    {
        let Some(first) = self.rest.first() else {
            return 0;
        };
        let found = *first;
        self.rest = &self.rest[1..];
        found
    }

    /// A number of two bytes.
    pub fn word2(&mut self) -> u16
        ensures { Reads (λ n. n < 2 ^ 16) word2 self.old self.new result }
    {
        let first = self.byte();
        let second = self.byte();
        u16::from_le_bytes([first, second])
    }

    /// A number of four bytes.
    pub fn word4(&mut self) -> u32
        ensures { Reads (λ n. n < 2 ^ 32) word4 self.old self.new result }
    {
        let first = self.byte();
        let second = self.byte();
        let third = self.byte();
        let fourth = self.byte();
        u32::from_le_bytes([first, second, third, fourth])
    }

    /// Eight bytes.
    pub fn eight(&mut self) -> [u8; 8]
        ensures { (bytes : List ℕ) (more : List ℕ) → length bytes ≡ 8 → self.old ≡ bytes ++ more
            → (result ≡ bytes) × (self.new ≡ more) }
    {
        let first = self.byte();
        let second = self.byte();
        let third = self.byte();
        let fourth = self.byte();
        let fifth = self.byte();
        let sixth = self.byte();
        let seventh = self.byte();
        let eighth = self.byte();
        [first, second, third, fourth, fifth, sixth, seventh, eighth]
    }

    /// A number of eight bytes.
    pub fn word8(&mut self) -> u64
        ensures { Reads (λ n. n < 2 ^ 64) word8 self.old self.new result }
    {
        u64::from_le_bytes(self.eight())
    }

    /// Leaves out so many bytes that say nothing.
    pub fn skip(&mut self, count: usize)
        ensures { (more : List ℕ) → self.old ≡ zeros count more → self.new ≡ more }
    {
        let skipped = count.min(self.rest.len());
        self.rest = &self.rest[skipped..];
    }
}
