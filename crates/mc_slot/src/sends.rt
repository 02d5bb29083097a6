// What one turn sends.

ghost use Rattle.std.specs.Prelude.{◌≡◌, ◌+◌, ◌-◌, ◌<◌, ◌≤◌};
ghost use Rattle.mc_slot.specs.Blank.{AreUnused};
ghost use Rattle.mc_slot.specs.declared.sends.TheConstants.{SENDS_LIMIT};

use mc_signal::Signal;

/// The most signals that one turn sends.
pub const SENDS_LIMIT: usize = 4;

/// At most four signals, each with the local number of the slot that sends it, in the order of sending.
///
/// The first `len` entries of `at` are these, and the others are `(0, Signal::Close)`.
#[derive(Clone, Copy, PartialEq, Eq, Debug)]
pub struct Sends {
    pub len: u8,
    pub at: [(u8, Signal); SENDS_LIMIT],
    pub ghost short: { len ≤ SENDS_LIMIT },
    pub ghost blank: { AreUnused len at },
}

impl Sends {
    ghost use Rattle.std.specs.Prelude.{◌++◌, [], ◌∷◌, length};
    ghost use Rattle.mc_slot.specs.Moves.{answer_signals};
    ghost use Rattle.mc_slot.specs.Sending.{Adds, HasPlaces, pair_of, sends_of};

    /// Nothing is sent.
    pub fn none() -> Sends
        ensures { sends_of result ≡ [] }
    {
        Sends {
            len: 0,
            at: [(0, Signal::Close); SENDS_LIMIT],
        }
    }

    /// What is sent, in order.
    pub fn as_slice(&self) -> &[(u8, Signal)]
        ensures sends { result.now ≡ sends_of self.now }
        ensures len { length result.now ≡ self.now.len }
    {
        &self.at[..self.len as usize]
    }

    /// Adds one signal more, sent by the slot with this local number.
    pub fn push(&mut self, no: u8, s: Signal)
        requires { self.old.len < SENDS_LIMIT }
        ensures sent { sends_of self.new ≡ sends_of self.old ++ pair_of no s ∷ [] }
        ensures len { self.new.len ≡ self.old.len + 1 }
    {
        self.at[self.len as usize] = (no, s);
        self.len += 1;
    }

    /// Adds what a slot answers, where it answers.
    pub fn push_answer(&mut self, no: u8, answer: Option<Signal>)
        requires { HasPlaces self.old (length (answer_signals answer)) }
        ensures sent { Adds self.old self.new no (answer_signals answer) }
        ensures len { self.new.len ≡ self.old.len + length (answer_signals answer) }
    {
        if let Some(answer) = answer {
            self.push(no, answer);
        }
    }
}
