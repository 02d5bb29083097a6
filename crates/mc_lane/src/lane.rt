// A queue with reserved room.
ghost use Rattle.std.specs.Prelude.{◌≡◌, ◌==◌, ◌+◌, ◌<◌, ◌≤◌, [], ◌∷◌, ◌++◌, length, slice_get, IfNone, IsOk, OnErr, OnOk};
ghost use Rattle.mc_lane.specs.Queue.{TakesFirst};

use std::alloc::{AllocError, Global};
use std::collections::VecDeque;
use std::marker::Model;

/// A queue of items, and room for more of them that was asked for beforehand. Memory is taken where room is asked
/// for, and nowhere else: so what has room for all that it is about to push can't fail half way.
#[derive(Debug, Drop)]
pub struct Lane<T: Copy> {
    // A ring, so that a pop moves a number and no item, and what it frees is room again.
    queue: VecDeque<T>,
}

impl<T: Copy> Model for Lane<T> {
    ghost use Rattle.std.specs.Prelude.{◌-◌};
    ghost use Rattle.std.specs.VecDeque.{deque_capacity, deque_len};
    ghost use Rattle.mc_lane.specs.Queue.{Queue};

    ghost Value = { Queue T };

    ghost view = { λ a. record { items = a.queue.items; spare = deque_capacity a.queue - deque_len a.queue } };
}

impl<T: Copy> Lane<T> {
    /// Without items and without room. It takes no memory.
    pub fn new(alloc: Global) -> Lane<T>
        ensures { result ≡ record { items = []; spare = 0 } }
    {
        Lane {
            queue: VecDeque::from_vec(Vec::new(alloc)),
        }
    }

    /// Sees to it that so many more items can be pushed. It never gives room back, and fails only for want of
    /// memory, never where the room is there.
    // Inlined, since nearly every call finds the room there.
    #[inline(always)]
    pub fn reserve(&mut self, more: usize) -> Result<(), AllocError>
        ensures items { self.new.items ≡ self.old.items }
        ensures kept { self.old.spare ≤ self.new.spare }
        ensures room { OnOk result (more ≤ self.new.spare) }
        ensures has_room { more ≤ self.old.spare → IsOk result }
        ensures err { OnErr result (self.new ≡ self.old) }
    {
        let capacity = self.queue.capacity();
        let len = self.queue.len();
        if more <= capacity - len {
            return Ok(());
        }
        // Room that at least doubles keeps many small requests from moving the items each time. std's own doubling
        // doesn't say that a refusal leaves the room as it was.
        let doubled = capacity.saturating_mul(2) - len;
        self.queue.reserve_exact(more.max(doubled))
    }

    /// Puts an item last, into room that was asked for.
    pub fn push(&mut self, item: T)
        requires { 0 < self.old.spare }
        ensures items { self.new.items ≡ self.old.items ++ item ∷ [] }
        ensures room { self.new.spare + 1 ≡ self.old.spare }
    {
        self.queue.push_back_reserved(item);
    }

    /// Puts items last, in their order, into room that was asked for.
    pub fn push_all(&mut self, items: &[T])
        requires { length items.now ≤ self.old.spare }
        ensures items { self.new.items ≡ self.old.items ++ items.now }
        ensures room { self.new.spare + length items.now ≡ self.old.spare }
    {
        for item in items {
            self.push(*item);
        }
    }

    /// Takes the first item, where there is one.
    pub fn pop(&mut self) -> Option<T>
        ensures item { TakesFirst result self.old.items self.new.items }
        ensures room { self.old.spare ≤ self.new.spare }
        // The room that it took is room again.
        ensures size { length self.new.items + self.new.spare ≡ length self.old.items + self.old.spare }
    {
        self.queue.pop_front()
    }

    /// The first item, where there is one.
    pub fn front(&self) -> Option<T>
        ensures item { result ≡ slice_get self.now.items 0 }
        ensures none { IfNone result (self.now.items ≡ []) }
    {
        self.queue.front().copied()
    }

    /// How many items there are.
    pub fn len(&self) -> usize
        ensures { result ≡ length self.now.items }
    {
        self.queue.len()
    }

    /// The item that stands after `i` others.
    pub fn get(&self, i: usize) -> T
        requires { i < length self.now.items }
        ensures { Some result ≡ slice_get self.now.items i }
    {
        self.queue[i]
    }

    /// Whether there are none.
    pub fn is_empty(&self) -> bool
        ensures { result ≡ (length self.now.items == 0) }
    {
        self.queue.is_empty()
    }
}
