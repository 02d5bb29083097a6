// Which slots can take a signal, kept beside the lanes.

ghost use Rattle.std.specs.Prelude.{◌≡◌, ◌^◌, ◌<◌, ◌≤◌, true, false, IfOk, length, replicate, slice_index_or, slice_set};
ghost use Rattle.std.specs.List.{slice_get};
ghost use Rattle.mc_world.specs.Lanes.{HasNumbers, IsLaid, numbers_of, signals_of};
ghost use Rattle.mc_world.specs.Waiting.{flag_count, flag_of, waits_by, AreFlagsCounted, IsWaiting};

use crate::topology::{Topology, front_for};
use mc_lane::Lane;
use mc_signal::Tagged;
use mc_sums::Sums;
use std::alloc::{AllocError, Global};

/// For each slot whether the front of its lane is for it, and for each box how many of its slots have such a front.
/// So nobody has to look at lanes to tell what a box can take, nor at boxes to tell which of them can take something.
#[derive(Debug, Drop)]
pub struct Waiting {
    pub flags: Vec<bool>,
    pub takes: Sums,
}

impl Waiting {
    /// With no flag set.
    pub fn new(alloc: Global, topology: &Topology) -> Result<Waiting, AllocError>
        requires few { length topology.now.numbers.items ≤ 2 ^ 32 }
        ensures counted { IfOk result (λ waiting. AreFlagsCounted topology.now waiting) }
        ensures none { IfOk result (λ waiting.
            waiting.flags.items ≡ replicate (length topology.now.places.items) false) }
    {
        let flags = vec![in alloc; false; topology.places.len()]?;
        let counts = vec![in alloc; 0; topology.numbers.len()]?;
        let takes = Sums::new(alloc, counts)?;
        Ok(Waiting { flags, takes })
    }

    /// The flags and counts of these lanes.
    pub fn of(
        alloc: Global,
        topology: &Topology,
        lanes: &[Lane<Tagged>],
    ) -> Result<Waiting, AllocError>
        requires laid { IsLaid topology.now (length lanes.now) }
        requires few { length topology.now.numbers.items ≤ 2 ^ 32 }
        ensures { IfOk result (λ waiting. IsWaiting topology.now (signals_of lanes.now) waiting) }
    {
        let mut waiting = Waiting::new(alloc, topology)?;
        for slot in 0..topology.places.len() {
            if waits(topology, lanes, slot as u32) {
                waiting.set(topology, slot as u32);
            }
        }
        Ok(waiting)
    }

    /// The flag of a slot that has none is set.
    pub fn set(&mut self, topology: &Topology, slot: u32)
        requires numbers { HasNumbers topology.now }
        requires counted { AreFlagsCounted topology.now self.old }
        requires here { slot < length topology.now.places.items }
        requires unset { slice_index_or self.old.flags.items slot false ≡ false }
        ensures flags { self.new.flags.items ≡ slice_set self.old.flags.items slot true }
        ensures counted { AreFlagsCounted topology.now self.new }
    {
        let (who, _) = topology.places[slot as usize];
        self.flags[slot as usize] = true;
        self.takes.raise(who as usize);
    }

    /// The flag of a slot that has one is cleared.
    pub fn clear(&mut self, topology: &Topology, slot: u32)
        requires numbers { HasNumbers topology.now }
        requires counted { AreFlagsCounted topology.now self.old }
        requires here { slot < length topology.now.places.items }
        requires set { slice_index_or self.old.flags.items slot false ≡ true }
        ensures flags { self.new.flags.items ≡ slice_set self.old.flags.items slot false }
        ensures counted { AreFlagsCounted topology.now self.new }
    {
        let (who, _) = topology.places[slot as usize];
        self.flags[slot as usize] = false;
        self.takes.lower(who as usize);
    }

    /// The flag of a slot that has one goes over to a slot of the same box that has none then, so no count changes.
    pub fn pass(&mut self, from: u32, next: u32)
        requires here { from < length self.old.flags.items }
        requires there { next < length self.old.flags.items }
        ensures flags { self.new.flags.items ≡ slice_set (slice_set self.old.flags.items from false) next true }
        ensures takes { self.new.takes ≡ self.old.takes }
    {
        self.flags[from as usize] = false;
        self.flags[next as usize] = true;
    }

    /// The local number of the k-th of a box's slots that have a flag.
    pub fn kth(&self, topology: &Topology, who: u32, k: u64) -> u8
        requires numbers { HasNumbers topology.now }
        requires counted { AreFlagsCounted topology.now self.now }
        requires inside { k < flag_count topology.now self.now.flags.items who (length (numbers_of topology.now who)) }
        ensures has { flag_of self.now.flags.items (slice_get (numbers_of topology.now who) result) ≡ true }
        ensures before { flag_count topology.now self.now.flags.items who result ≡ k }
        ensures there { result < length (numbers_of topology.now who) }
    {
        let numbers = topology.numbers(who);
        let mut rest = k;
        for local in 0..numbers.len() {
            if self.flags[numbers[local] as usize] {
                if rest == 0 {
                    return local as u8;
                }
                rest -= 1;
            }
        }
        unreachable!()
    }
}

// Whether the front of the lane that leads to a slot is for the slot.
fn waits(topology: &Topology, lanes: &[Lane<Tagged>], slot: u32) -> bool
    requires laid { IsLaid topology.now (length lanes.now) }
    requires here { slot < length topology.now.places.items }
    ensures { result ≡ waits_by topology.now (signals_of lanes.now) slot }
{
    let (lane, tunnel) = topology.toward(slot);
    front_for(&lanes[lane], tunnel).is_some()
}
