// Sets of channel ends.

ghost use Rattle.std.specs.Prelude.{◌≡◌, ◌==◌, ◌||◌, ◌&&◌, ◌<◌, ◌↔◌, ℕ, not, true, false, count_ones, if◌then◌else◌, IfNone, IfSome, IsTrue};
ghost use Rattle.mc_worker.specs.EndSets.{contains_end, has_bit};
ghost use Rattle.mc_worker.specs.declared.limit.TheConstants.{END_LIMIT};

/// A set of channel ends: a bit for each, so that the first is found at once.
#[derive(Clone, Copy, PartialEq, Eq, Debug)]
pub struct EndSet {
    bits: u64,
}

impl EndSet {
    /// No ends.
    pub fn none() -> EndSet
        ensures { (end : ℕ) → contains_end result end ≡ false }
    {
        EndSet { bits: 0 }
    }

    /// Adds an end, if it isn't there.
    pub fn insert(&mut self, end: u8)
        requires { end < END_LIMIT }
        ensures { (e : ℕ) → contains_end self.new e ≡ (e == end || contains_end self.old e) }
    {
        self.bits = with_bit(self.bits, end);
    }

    /// Takes an end away, if it is there.
    pub fn remove(&mut self, end: u8)
        requires { end < END_LIMIT }
        ensures { (e : ℕ) → contains_end self.new e ≡ (not (e == end) && contains_end self.old e) }
    {
        self.bits = without_bit(self.bits, end);
    }

    /// Adds an end or takes it away, so that it is there or not.
    pub fn set(&mut self, end: u8, is_in: bool)
        requires { end < END_LIMIT }
        ensures { (e : ℕ) → contains_end self.new e ≡ (if e == end then is_in else contains_end self.old e) }
    {
        self.bits = with_bit_as(self.bits, end, is_in);
    }

    /// Whether there are none.
    pub fn is_empty(&self) -> bool
        ensures { IsTrue result ↔ ((end : ℕ) → contains_end self.now end ≡ false) }
    {
        has_no_bit(self.bits)
    }

    /// How many there are.
    pub fn count(&self) -> u32
        ensures { result ≡ count_ones self.now.bits }
    {
        self.bits.count_ones()
    }

    /// The first end, where there is one.
    pub fn first(&self) -> Option<u8>
        ensures some { IfSome result (λ end. (end < END_LIMIT) × (contains_end self.now end ≡ true)) }
        ensures none { IfNone result ((end : ℕ) → contains_end self.now end ≡ false) }
    {
        first_bit(self.bits)
    }
}

fn with_bit(bits: u64, place: u8) -> u64
    requires { place < END_LIMIT }
    ensures { (k : ℕ) → has_bit result k ≡ (k == place || has_bit bits k) }
{
    bits | 1u64 << place
}

fn without_bit(bits: u64, place: u8) -> u64
    requires { place < END_LIMIT }
    ensures { (k : ℕ) → has_bit result k ≡ (not (k == place) && has_bit bits k) }
{
    bits & !(1u64 << place)
}

fn with_bit_as(bits: u64, place: u8, is_in: bool) -> u64
    requires { place < END_LIMIT }
    ensures { (k : ℕ) → has_bit result k ≡ (if k == place then is_in else has_bit bits k) }
{
    if is_in {
        with_bit(bits, place)
    } else {
        without_bit(bits, place)
    }
}

fn first_bit(bits: u64) -> Option<u8>
    ensures some { IfSome result (λ place. (place < END_LIMIT) × (has_bit bits place ≡ true)) }
    ensures none { IfNone result ((k : ℕ) → has_bit bits k ≡ false) }
{
    if bits == 0 {
        None
    } else {
        Some(bits.trailing_zeros() as u8)
    }
}

fn has_no_bit(bits: u64) -> bool
    ensures { IsTrue result ↔ ((k : ℕ) → has_bit bits k ≡ false) }
{
    bits == 0
}
