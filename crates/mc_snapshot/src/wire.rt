// Values that are written as bytes and read again.

ghost use Rattle.std.specs.Prelude.{◌≡◌, ◌∷◌, ◌<◌, ◌^◌, List, ℕ, length, IfOk, OnOk};
ghost use Rattle.mc_entry.specs.Reading.{Reads};
ghost use Rattle.mc_entry.specs.Wire.{Writes, word2, word4, word8};
ghost use Rattle.mc_snapshot.specs.Lengths.{byte_long, option_long, pair_long, word2_long, word4_long, word8_long};
ghost use Rattle.mc_snapshot.specs.Forms.{FitsOption, FitsPair, option_wire, pair_wire};

use mc_entry::bytes::Bytes;
use mc_entry::writing::{put, put2, put4, put8};
use std::alloc::{AllocError, Global};

/// A value that is written as bytes.
pub trait Put {
    /// Its form: its bytes, and then more.
    ghost wire: { Self → List ℕ → List ℕ };

    /// It has a form: each number fits its field.
    ghost Fits: { Self → Type 0 };

    /// Appends its form. It fails only for want of memory.
    fn put(&self, out: &mut Vec<u8>) -> Result<(), AllocError>
        ensures fits { OnOk result (Fits self.now) }
        ensures writes { OnOk result (Writes out.old.items out.new.items (wire self.now)) };
}

/// A value that is read again from its form.
pub trait Get: Sized {
    /// Its form: its bytes, and then more.
    ghost wire: { Self → List ℕ → List ℕ };

    /// It has a form: each number fits its field.
    ghost Fits: { Self → Type 0 };

    /// The value with whose form the bytes begin. Where they begin with none, what is read has no meaning.
    fn get(alloc: Global, bytes: &mut Bytes<'_>) -> Result<Self, AllocError>
        ensures fits { IfOk result (λ found. Fits found) }
        ensures reads { IfOk result (λ found. Reads Fits wire bytes.old bytes.new found) };

    /// Its form isn't empty.
    ghost long: { (one : Self) (more : List ℕ) → length more < length (wire one more) };
}

impl Put for u8 {
    ghost wire = { λ n more. n ∷ more };

    ghost Fits = { λ n. n < 2 ^ 8 };

    fn put(&self, out: &mut Vec<u8>) -> Result<(), AllocError> {
        put(out, &[*self])
    }
}

impl Get for u8 {
    ghost wire = { λ n more. n ∷ more };

    ghost Fits = { λ n. n < 2 ^ 8 };

    ghost long = { λ n more. byte_long n more };

    fn get(_alloc: Global, bytes: &mut Bytes<'_>) -> Result<u8, AllocError> {
        Ok(bytes.byte())
    }
}

impl Put for u32 {
    ghost wire = { word4 };

    ghost Fits = { λ n. n < 2 ^ 32 };

    fn put(&self, out: &mut Vec<u8>) -> Result<(), AllocError> {
        put4(out, *self)
    }
}

impl Get for u32 {
    ghost wire = { word4 };

    ghost Fits = { λ n. n < 2 ^ 32 };

    ghost long = { λ n more. word4_long n more };

    fn get(_alloc: Global, bytes: &mut Bytes<'_>) -> Result<u32, AllocError> {
        Ok(bytes.word4())
    }
}

impl<T: Put> Put for Option<T> {
    ghost wire = { option_wire T.wire };

    ghost Fits = { FitsOption T.Fits };

    fn put(&self, out: &mut Vec<u8>) -> Result<(), AllocError> {
        match self {
            Some(one) => {
                put(out, &[1])?;
                one.put(out)
            }
            None => put(out, &[0]),
        }
    }
}

impl<T: Get> Get for Option<T> {
    ghost wire = { option_wire T.wire };

    ghost Fits = { FitsOption T.Fits };

    ghost long = { λ one more. option_long T.wire T.long one more };

    fn get(alloc: Global, bytes: &mut Bytes<'_>) -> Result<Option<T>, AllocError> {
        if bytes.byte() == 1 {
            Ok(Some(T::get(alloc, bytes)?))
        } else {
            Ok(None)
        }
    }
}

impl<A: Put, B: Put> Put for (A, B) {
    ghost wire = { pair_wire A.wire B.wire };

    ghost Fits = { FitsPair A.Fits B.Fits };

    fn put(&self, out: &mut Vec<u8>) -> Result<(), AllocError> {
        self.0.put(out)?;
        self.1.put(out)
    }
}

impl<A: Get + Drop, B: Get> Get for (A, B) {
    ghost wire = { pair_wire A.wire B.wire };

    ghost Fits = { FitsPair A.Fits B.Fits };

    ghost long = { λ pair more. pair_long A.wire B.wire A.long B.long pair more };

    fn get(alloc: Global, bytes: &mut Bytes<'_>) -> Result<(A, B), AllocError> {
        let first = A::get(alloc, bytes)?;
        let second = B::get(alloc, bytes)?;
        Ok((first, second))
    }
}

impl Put for u16 {
    ghost wire = { word2 };

    ghost Fits = { λ n. n < 2 ^ 16 };

    fn put(&self, out: &mut Vec<u8>) -> Result<(), AllocError> {
        put2(out, *self)
    }
}

impl Get for u16 {
    ghost wire = { word2 };

    ghost Fits = { λ n. n < 2 ^ 16 };

    ghost long = { λ n more. word2_long n more };

    fn get(_alloc: Global, bytes: &mut Bytes<'_>) -> Result<u16, AllocError> {
        Ok(bytes.word2())
    }
}

impl Put for u64 {
    ghost wire = { word8 };

    ghost Fits = { λ n. n < 2 ^ 64 };

    fn put(&self, out: &mut Vec<u8>) -> Result<(), AllocError> {
        put8(out, *self)
    }
}

impl Get for u64 {
    ghost wire = { word8 };

    ghost Fits = { λ n. n < 2 ^ 64 };

    ghost long = { λ n more. word8_long n more };

    fn get(_alloc: Global, bytes: &mut Bytes<'_>) -> Result<u64, AllocError> {
        Ok(bytes.word8())
    }
}
