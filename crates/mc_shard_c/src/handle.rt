//! What C holds of a shard.

ghost use Rattle.std.specs.Prelude.{◌≡◌, is_some, Some, None};

use crate::held::HeldShard;
use crate::kept::Kept;
use std::alloc::Global;
use std::marker::Send;
use std::mem;

/// What C holds of a shard: all zeros where it has none.
#[repr(C)]
#[derive(Drop)]
pub struct Handle {
    made: bool,
    pub kept: Kept,
    pub ghost same: { made ≡ is_some kept.held },
}

impl Handle {
    ghost use Rattle.mc_shard_c.specs.Handles.{boxed_writer, held_writer};

    fn none(alloc: Global) -> Handle
        ensures { result.kept.held ≡ None }
    {
        Handle {
            made: false,
            kept: Kept::none(alloc),
        }
    }

    /// Whether it has a shard.
    pub fn has_shard(&mut self) -> bool
        ensures says { result ≡ is_some self.old.kept.held }
        ensures same { self.new ≡ self.old }
    {
        self.made
    }

    /// Gives the shard out, where it has one, and has none then.
    pub fn open(&mut self, alloc: Global) -> Option<Box<HeldShard>>
        ensures out { boxed_writer result ≡ held_writer self.old.kept.held }
        ensures none { self.new.kept.held ≡ None }
    {
        let Handle { made, kept } = mem::replace(self, Handle::none(alloc));
        if made { Some(kept.into_box()) } else { None }
    }

    /// Takes a shard, where it has none.
    pub fn close(&mut self, held: Box<HeldShard>)
        requires none { self.old.kept.held ≡ None }
        ensures { self.new.kept.held ≡ Some held.value }
    {
        *self = Handle {
            made: true,
            kept: Kept::of(held),
        };
    }
}

// What may go to another thread.
fn crosses<T: Send>(_value: &T) {}

/// A handle may go to another thread, as long as one call at a time uses it: the body's call owes a proof of that.
pub fn may_cross(handle: &Handle) {
    crosses(handle);
}
