//! What C holds of a box.

ghost use Rattle.std.specs.Prelude.{◌≡◌, is_some, Some, None};

use crate::held::HeldBox;
use crate::kept::Kept;
use mc_plain::answer;
use mc_plain::signals::{PlainSent, PlainSignal};
use std::alloc::Global;
use std::marker::Send;
use std::mem;

/// What C holds of a box: all zeros where it has none.
#[repr(C)]
#[derive(Drop)]
pub struct Handle {
    made: bool,
    pub kept: Kept,
    pub ghost same: { made ≡ is_some kept.held },
}

impl Handle {
    ghost use Rattle.std.specs.Prelude.{◌≢◌, length};
    ghost use Rattle.mc_box_c.specs.Answers.{HasTaken, WhyNotTaken};
    ghost use Rattle.mc_box_c.specs.Handles.{box_of, boxed_part, Between, OfBox};
    ghost use Rattle.mc_plain.specs.declared.answer.TheConstants.{OK, NO_BOX};

    fn none(alloc: Global) -> Handle
        ensures { result.kept.held ≡ None }
    {
        Handle {
            made: false,
            kept: Kept::none(alloc),
        }
    }

    /// Whether it has a box.
    pub fn has_box(&mut self) -> bool
        ensures says { result ≡ is_some self.old.kept.held }
        ensures same { self.new ≡ self.old }
    {
        self.made
    }

    /// Gives the box out, where it has one, and has none then.
    pub fn open(&mut self, alloc: Global) -> Option<Box<HeldBox>>
        ensures out { boxed_part result ≡ box_of self.old.kept.held }
        ensures none { self.new.kept.held ≡ None }
    {
        let Handle { made, kept } = mem::replace(self, Handle::none(alloc));
        if made { Some(kept.into_box()) } else { None }
    }

    /// A slot of its box takes a signal.
    pub fn take(
        &mut self,
        alloc: Global,
        slot: u8,
        signal: &PlainSignal,
        out: &mut [PlainSent],
        count: &mut usize,
    ) -> u32
        ensures ok { result ≡ OK → Between (box_of self.old.kept.held) (box_of self.new.kept.held)
            (λ old new. HasTaken old slot signal.now new out.old out.new count.new) }
        ensures unchanged { result ≢ OK → (box_of self.new.kept.held ≡ box_of self.old.kept.held) × (out.new ≡ out.old) × (count.new ≡ 0) }
        ensures no_box { result ≡ NO_BOX → box_of self.old.kept.held ≡ None }
        ensures why_not { result ≢ OK → result ≢ NO_BOX → OfBox (box_of self.old.kept.held)
            (λ old. WhyNotTaken old slot signal.now (length out.old) result) }
    {
        if !self.made {
            *count = 0;
            return answer::NO_BOX;
        }
        // The box is out only during the call, so what says that there is one stays.
        let mut held = mem::replace(&mut self.kept, Kept::none(alloc)).into_box();
        let code = held.take(slot, signal, out, count);
        self.kept = Kept::of(held);
        code
    }

    /// Takes a box, where it has none.
    pub fn close(&mut self, held: Box<HeldBox>)
        requires none { self.old.kept.held ≡ None }
        ensures { self.new.kept.held ≡ Some held.value }
    {
        *self = Handle {
            made: true,
            kept: Kept::of(held),
        };
    }
}

// What may go to another thread.
fn crosses<T: Send>(_value: &T) {}

/// A handle may go to another thread, as long as one call at a time uses it: the body's call owes a proof of that.
pub fn may_cross(handle: &Handle) {
    crosses(handle);
}
