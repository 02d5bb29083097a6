// A held box on the heap, as the pointer that C keeps.

ghost use Rattle.std.specs.Prelude.{◌≡◌, Option, Some, None, IsSome};
ghost use Rattle.mc_box_c.specs.declared.held.HeldBox.{HeldBox};

use crate::held::HeldBox;
use mc_plain::loose::Loose;
use std::alloc::Global;
use std::marker::{Model, Send};

/// A held box on the heap, or none.
#[repr(C)]
#[derive(Drop)]
pub struct Kept {
    at: *mut u8,
    alloc: Global,
    pub ghost held: { Option HeldBox },
}

impl Model for Kept {
    ghost use Rattle.mc_box_c.specs.Kept.{kept_owns};

    ghost also_owns = { λ k. kept_owns k.alloc k.at k.held };
}

impl Kept {
    /// None.
    pub fn none(alloc: Global) -> Kept
        ensures { result.held ≡ None }
    {
        Kept {
            at: std::ptr::null_mut(),
            alloc,
        }
    }

    /// A held box.
    pub fn of(held: Box<HeldBox>) -> Kept
        ensures { result.held ≡ Some held.value }
    {
        Kept::of_loose(Loose::of(held))
    }

    /// The held that is kept.
    pub fn into_box(self) -> Box<HeldBox>
        requires { IsSome self.held }
        ensures { self.held ≡ Some result.value }
    {
        self.into_loose().into_box()
    }

    fn of_loose(loose: Loose<HeldBox, Global>) -> Kept
        ensures { result.held ≡ Some loose.value }
    {
        let Loose { at, alloc } = loose;
        Kept {
            at: at as *mut u8,
            alloc,
        }
    }

    fn into_loose(self) -> Loose<HeldBox, Global>
        requires { IsSome self.held }
        ensures { self.held ≡ Some result.value }
    {
        let Kept { at, alloc } = self;
        Loose {
            at: at as *mut HeldBox,
            alloc,
        }
    }
}

// Its block may go to another thread, and its box and its queue may.
unsafe impl Send for Kept {}
