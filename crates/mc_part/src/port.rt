// The port of a channel that crosses.

ghost use Rattle.std.specs.Prelude.{◌≡◌, ◌<◌, ◌^◌, ◌∷◌, ◌++◌, [], slice_get, IsFalse, IsTrue, Some};
ghost use Rattle.mc_part.specs.Ports.{IsSeen, entry_slot, into_lane, out_lane};
ghost use Rattle.mc_port.specs.Ends.{given, in_ring, known, out_ring, received};

use mc_port::{InPort, OutPort, Stamped};

/// What a channel that crosses has in a part: the number that stands for the far box, whether it leads from here, the
/// number of the slot at which its first tunnel comes in, and the ends of its two rings. The channel has the port's
/// number.
#[derive(Drop)]
pub struct Port {
    pub holder: u32,
    pub starts_here: bool,
    pub first: u32,
    pub from: InPort,
    pub to: OutPort,
}

impl Port {
    /// The oldest item that wasn't taken.
    pub fn look(&mut self) -> Option<Stamped>
        ensures seen { IsSeen self.old self.new }
        ensures kept { self.new ≡ record self.old { from = self.new.from } }
        ensures front { result ≡ slice_get (known self.new.from) 0 }
    {
        self.from.peek()
    }

    /// Takes it.
    pub fn take(&mut self, item: Stamped)
        requires first { slice_get (known self.old.from) 0 ≡ Some item }
        ensures received { received self.new.from ≡ received self.old.from ++ item ∷ [] }
        ensures ring { in_ring self.new.from ≡ in_ring self.old.from }
        ensures to { self.new.to ≡ self.old.to }
        ensures starts { self.new.starts_here ≡ self.old.starts_here }
        ensures kept { self.new ≡ record self.old { from = self.new.from } }
    {
        match self.from.take() {
            Some(_item) => {}
            None => unreachable!(),
        }
    }

    /// Puts an item into the ring that goes out. Whether there was a place.
    pub fn give(&mut self, item: Stamped) -> bool
        ensures given { IsTrue result → given self.new.to ≡ given self.old.to ++ item ∷ [] }
        ensures full { IsFalse result → given self.new.to ≡ given self.old.to }
        ensures ring { out_ring self.new.to ≡ out_ring self.old.to }
        ensures from { self.new.from ≡ self.old.from }
        ensures starts { self.new.starts_here ≡ self.old.starts_here }
        ensures kept { self.new ≡ record self.old { to = self.new.to } }
    {
        self.to.give(item).is_ok()
    }

    /// The slot at which a tunnel comes in.
    pub fn slot(&self, tunnel: u8) -> u32
        ensures { result ≡ entry_slot self.now tunnel }
    {
        self.first.saturating_add(2 * tunnel as u32)
    }
}

/// The lane that comes in by the channel with this number.
pub fn into_lane(channel: usize, starts_here: bool) -> usize
    requires { channel < 2 ^ 32 }
    ensures { result ≡ into_lane channel starts_here }
{
    2 * channel + usize::from(!starts_here)
}

/// And the one that goes out.
pub fn out_lane(channel: usize, starts_here: bool) -> usize
    requires { channel < 2 ^ 32 }
    ensures { result ≡ out_lane channel starts_here }
{
    2 * channel + usize::from(starts_here)
}
