//! The slot: one end of a tunnel, its five states, what it keeps, and the goals that it may have.
#![tactic(auto)]

ghost use Rattle.std.specs.Prelude.{◌≡◌, Some, IsSome, is_some};
ghost use Rattle.mc_slot.specs.EndTurn.{cause_of};

use mc_signal::{Descriptor, Medium, Selector, Signal};

pub mod laws;
mod sends;

pub use sends::{SENDS_LIMIT, Sends};

/// What an end of a path is to reach: media, no media, or what the other end asks for.
#[derive(Clone, Copy, PartialEq, Eq, Debug)]
pub enum Goal {
    Open,
    Close,
    Hold,
}

/// What a slot is to reach: as an end of a path, or linked with the slot of its box that has this local number.
#[derive(Clone, Copy, PartialEq, Eq, Debug)]
pub enum SlotGoal {
    End(Goal),
    Link(u8),
}

/// Where a slot stands.
#[derive(Clone, Copy, PartialEq, Eq, Debug)]
pub enum State {
    /// There are no media.
    Closed,
    /// It has sent an open, and waits for the answer.
    Opening,
    /// It has got an open, and owes the answer.
    Opened,
    /// Media may flow.
    Flowing,
    /// It has sent a close, and waits for the closeack.
    Closing,
}

/// What a goal turn follows, where that makes a difference to the turn.
#[derive(Clone, Copy, PartialEq, Eq, Debug)]
pub enum Cause {
    /// Anything that makes no difference.
    Other,
    /// The slot took a close that made it closed: a link passes the close on.
    Close,
    /// An end may open now: its goal is new, a retry came, or the slot took a closeack that made it closed.
    Push,
}

/// One end of a tunnel: its state, its medium, whether it is on the side of the channel's initiator, and
/// the last descriptor and the last selector that it sent and got.
#[derive(Clone, Copy, PartialEq, Eq, Debug)]
pub struct Slot {
    pub state: State,
    pub medium: Medium,
    pub initiator: bool,
    pub sent: Option<Descriptor>,
    pub got: Option<Descriptor>,
    pub sel_out: Option<Selector>,
    pub sel_in: Option<Selector>,
}

impl Slot {
    ghost use Rattle.mc_slot.specs.Moves.{clear, closed_slot, enter_opened, is_live, slot_send, slot_take, is_open_for};

    /// A closed slot that keeps nothing.
    pub fn new(medium: Medium, initiator: bool) -> Slot
        ensures { result ≡ closed_slot medium initiator }
    {
        Slot {
            state: State::Closed,
            medium,
            initiator,
            sent: None,
            got: None,
            sel_out: None,
            sel_in: None,
        }
    }

    /// Whether the slot may take the signal now. An open of another medium is never lawful.
    pub fn lawful(&self, s: &Signal) -> bool
        ensures { result ≡ is_some (slot_take self.now s.now) }
    {
        match self.state {
            State::Closed => self.is_open_for(s),
            State::Opening => match s {
                Signal::Oack(_) | Signal::Close => true,
                _ => self.is_open_for(s),
            },
            State::Opened => matches!(s, Signal::Close),
            State::Flowing => matches!(s, Signal::Describe(_) | Signal::Select(_) | Signal::Close),
            State::Closing => match s {
                Signal::Open(medium, _) => *medium == self.medium,
                _ => true,
            },
        }
    }

    // Whether the signal is an open of the slot's medium.
    fn is_open_for(&self, s: &Signal) -> bool
        ensures { result ≡ is_open_for self.now s.now }
    {
        match s {
            Signal::Open(medium, _) => *medium == self.medium,
            _ => false,
        }
    }

    /// Whether the slot may send the signal now. A closeack is only ever the answer of a taking.
    pub fn may_send(&self, s: &Signal) -> bool
        ensures { result ≡ is_some (slot_send self.now s.now) }
    {
        match (self.state, s) {
            (State::Closed, Signal::Open(medium, _)) => *medium == self.medium,
            (State::Opening, Signal::Close) => true,
            (State::Opened, Signal::Oack(_) | Signal::Close) => true,
            (State::Flowing, Signal::Describe(_) | Signal::Select(_) | Signal::Close) => true,
            _ => false,
        }
    }

    /// Whether the slot is opened or flowing: then it has got a descriptor.
    pub fn live(&self) -> bool
        ensures { result ≡ is_live self.now.state }
    {
        matches!(self.state, State::Opened | State::Flowing)
    }

    // Enters a state and keeps nothing.
    fn clear(&mut self, state: State)
        ensures { self.new ≡ clear self.old state }
    {
        self.state = state;
        self.sent = None;
        self.got = None;
        self.sel_out = None;
        self.sel_in = None;
    }

    /// Takes a lawful signal, and answers the closeack, where one is due.
    pub fn take(&mut self, s: Signal) -> Option<Signal>
        requires { IsSome (slot_take self.old s) }
        ensures { slot_take self.old s ≡ Some record { answer = result; after = self.new } }
    {
        match (self.state, s) {
            (State::Closed, Signal::Open(_, d)) => self.enter_opened(d),
            (State::Opening, Signal::Open(_, d)) => {
                if !self.initiator {
                    self.enter_opened(d);
                }
            }
            (State::Opening, Signal::Oack(d)) => {
                self.state = State::Flowing;
                self.got = Some(d);
            }
            (State::Flowing, Signal::Describe(d)) => self.got = Some(d),
            (State::Flowing, Signal::Select(s)) => self.sel_in = Some(s),
            (State::Opening | State::Opened | State::Flowing, Signal::Close) => {
                self.clear(State::Closed);
                return Some(Signal::Closeack);
            }
            (State::Closing, Signal::Close) => return Some(Signal::Closeack),
            (State::Closing, Signal::Closeack) => self.clear(State::Closed),
            (State::Closing, _) => {}
            _ => unreachable!(),
        }
        None
    }

    // Becomes opened by the other side.
    fn enter_opened(&mut self, d: Descriptor)
        ensures { self.new ≡ enter_opened self.old d }
    {
        self.clear(State::Opened);
        self.got = Some(d);
    }

    /// Sends a signal that may be sent.
    pub fn send(&mut self, s: Signal)
        requires { IsSome (slot_send self.old s) }
        ensures { slot_send self.old s ≡ Some self.new }
    {
        match s {
            Signal::Open(_, d) => {
                self.clear(State::Opening);
                self.sent = Some(d);
            }
            Signal::Oack(d) => {
                self.state = State::Flowing;
                self.sent = Some(d);
            }
            Signal::Describe(d) => {
                self.sent = Some(d);
            }
            Signal::Select(s) => {
                self.sel_out = Some(s);
            }
            Signal::Close | Signal::Closeack => {
                self.state = State::Closing;
            }
        }
    }
}

/// What the goal turn follows after a slot has taken a signal, by the slot's state then.
pub fn cause_of(s: &Signal, after: State) -> Cause
    ensures { result ≡ cause_of s.now after }
{
    match (s, after) {
        (Signal::Close, State::Closed) => Cause::Close,
        (Signal::Closeack, State::Closed) => Cause::Push,
        _ => Cause::Other,
    }
}
