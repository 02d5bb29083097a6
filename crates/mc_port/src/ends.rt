// The two ends of a ring.

ghost use Rattle.std.specs.Prelude.{◌≡◌, ◌+◌, ◌<◌, ◌≤◌, [], ◌∷◌, ◌++◌, length, map, nat_lt, slice_get, IfErr, IfNone, IfOk, IsFalse, MatchOption, OnErr, OnOk};
ghost use mathlib.Core.List.{IsPrefix};
ghost use Rattle.mc_port.specs.Ends.{back_count, free_places, given, in_ring, known, left_in, look_count, looks_after, out_ring, received, without_stamp};
ghost use Rattle.mc_port.specs.Ends.{CountsNoLook, GivesNothing, IsGiven, IsHandedBack, IsInOrder, IsPair, KnowsNothing};
ghost use Rattle.mc_port.specs.declared.limit.TheConstants.{RING_LIMIT};

use crate::limit::RING_LIMIT;
use crate::stamped::Stamped;
use mc_lane::Lane;
use mc_signal::Tagged;
use rtrb::{Consumer, Producer, RingBuffer};
use std::alloc::{AllocError, Global};

/// The end of a ring that gives: it belongs to the box that sends. It counts how often the ring handed an item back.
#[derive(Drop)]
pub struct OutPort {
    end: Producer<Stamped>,
    handed_back: u64,
}

/// The end of a ring that takes: it belongs to the box that the items are for. It counts how often it looked at the
/// ring for what the other end gave.
#[derive(Drop)]
pub struct InPort {
    end: Consumer<Stamped>,
    looks: u64,
}

/// The two ends of a new ring, which is empty. It fails only for want of memory.
pub fn pair(alloc: Global) -> Result<(OutPort, InPort), AllocError>
    ensures ring { IfOk result (λ ends. IsPair ends.0 ends.1) }
    ensures given { IfOk result (λ ends. given ends.0 ≡ []) }
    ensures received { IfOk result (λ ends. received ends.1 ≡ []) }
    ensures known { IfOk result (λ ends. known ends.1 ≡ []) }
    ensures free { IfOk result (λ ends. free_places ends.0 ≡ RING_LIMIT) }
    ensures handed_back { IfOk result (λ ends. back_count ends.0 ≡ 0) }
    ensures looks { IfOk result (λ ends. look_count ends.1 ≡ 0) }
{
    let (giving, taking) = RingBuffer::new(alloc, RING_LIMIT)?;
    Ok((
        OutPort {
            end: giving,
            handed_back: 0,
        },
        InPort {
            end: taking,
            looks: 0,
        },
    ))
}

impl OutPort {
    /// Puts an item into the ring. It is handed back only where this end knew of no free place when the call began,
    /// and saw none when it looked again; and that is counted.
    pub fn give(&mut self, item: Stamped) -> Result<(), Stamped>
        ensures ring { out_ring self.new ≡ out_ring self.old }
        ensures given { OnOk result (IsGiven self.old self.new item) }
        ensures back { IfErr result (λ back. IsHandedBack self.old self.new item back) }
    {
        match self.end.push(item) {
            Ok(()) => Ok(()),
            Err(_) => {
                self.handed_back = self.handed_back.saturating_add(1);
                Err(item)
            }
        }
    }
}

impl InPort {
    /// The oldest item that wasn't taken, left in its place. None comes only where this end knew of no item, looked at
    /// the ring and saw none.
    pub fn peek(&mut self) -> Option<Stamped>
        ensures ring { in_ring self.new ≡ in_ring self.old }
        ensures front { result ≡ slice_get (known self.new) 0 }
        ensures received { received self.new ≡ received self.old }
        ensures known { IsPrefix (known self.old) (known self.new) }
        ensures looks { look_count self.new ≡ looks_after self.old }
        ensures none { IfNone result (KnowsNothing self.old self.new) }
        ensures more_looks { look_count self.old ≤ look_count self.new }
    {
        if self.look() {
            Some(*self.end.peek_known())
        } else {
            None
        }
    }

    /// Takes the oldest item. None comes as from `peek`.
    pub fn take(&mut self) -> Option<Stamped>
        ensures ring { in_ring self.new ≡ in_ring self.old }
        ensures received { MatchOption result (received self.new ≡ received self.old)
            (λ item. received self.new ≡ received self.old ++ item ∷ []) }
        ensures known { MatchOption result (known self.new ≡ [])
            (λ item. IsPrefix (known self.old) (item ∷ known self.new)) }
        ensures looks { look_count self.new ≡ looks_after self.old }
        ensures none { IfNone result (KnowsNothing self.old self.new) }
        ensures more_looks { look_count self.old ≤ look_count self.new }
    {
        if self.look() {
            Some(self.end.pop_known())
        } else {
            None
        }
    }

    // Looks at the ring where this end knows of no item. Whether it knows of one now.
    fn look(&mut self) -> bool
        ensures ring { in_ring self.new ≡ in_ring self.old }
        ensures received { received self.new ≡ received self.old }
        ensures known { IsPrefix (known self.old) (known self.new) }
        ensures looks { look_count self.new ≡ looks_after self.old }
        ensures some { result ≡ nat_lt 0 (length (known self.new)) }
        ensures none { IsFalse result → KnowsNothing self.old self.new }
        ensures more_looks { look_count self.old ≤ look_count self.new }
    {
        if self.end.cached_slots() > 0 {
            return true;
        }
        self.looks = self.looks.saturating_add(1);
        self.end.slots() > 0
    }
}

/// How many items are left in a ring, where both ends are at hand. The taking end knows of them all then.
pub fn look_beside(from: &mut OutPort, to: &mut InPort) -> usize
    requires { IsPair from.old to.old }
    ensures from { GivesNothing from.old from.new }
    ensures to { CountsNoLook to.old to.new }
    ensures order { IsInOrder from.old to.old }
    ensures received { received to.new ≡ received to.old }
    ensures known { known to.new ≡ left_in from.old to.old }
    ensures count { result ≡ length (left_in from.old to.old) }
{
    to.end.slots_beside(&mut from.end)
}

/// Moves what is left in a ring into a lane, without its stamps, where both ends are at hand. It fails only for want of
/// memory, and moves nothing then; the taking end may know of more of what was given.
pub fn drain_beside(
    from: &mut OutPort,
    to: &mut InPort,
    into: &mut Lane<Tagged>,
) -> Result<(), AllocError>
    requires { IsPair from.old to.old }
    ensures from { GivesNothing from.old from.new }
    ensures to { CountsNoLook to.old to.new }
    ensures order { OnOk result (IsInOrder from.old to.old) }
    ensures received { OnOk result (received to.new ≡ given from.old) }
    ensures empty { OnOk result (known to.new ≡ []) }
    ensures moved { OnOk result (into.new.items ≡ into.old.items ++ map without_stamp (left_in from.old to.old)) }
    ensures kept { OnErr result ((received to.new ≡ received to.old) × (into.new.items ≡ into.old.items)) }
{
    let count = to.end.slots_beside(&mut from.end);
    into.reserve(count)?;
    move_known(count, to, into);
    Ok(())
}

// Moves all items that the end knows of, so many.
fn move_known(count: usize, to: &mut InPort, into: &mut Lane<Tagged>)
    requires count { count ≡ length (known to.old) }
    requires room { count ≤ into.old.spare }
    ensures to { CountsNoLook to.old to.new }
    ensures received { received to.new ≡ received to.old ++ known to.old }
    ensures empty { known to.new ≡ [] }
    ensures moved { into.new.items ≡ into.old.items ++ map without_stamp (known to.old) }
{
    for _ in 0..count {
        let item = to.end.pop_known();
        into.push(Tagged {
            tunnel: item.tunnel,
            signal: item.signal,
        });
    }
}
