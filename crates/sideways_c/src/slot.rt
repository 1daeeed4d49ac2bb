//! A box as its pointer, or nothing: what a caller that is not Rattle keeps for us.

ghost use Rattle.std.specs.Prelude.{◌≡◌, IsSome, Option, Some};
ghost use Rattle.sideways_c.specs.declared.inner.Inner.{Inner};

use crate::inner::Inner;
use std::alloc::{Allocator, Global};
use std::marker::Model;

/// A box as its pointer, or nothing. Where it is let go, its box stays where it is.
#[repr(C)]
#[derive(Drop)]
pub struct Slot {
    pub(crate) at: *mut (),
    pub(crate) alloc: Global,
    pub ghost value: { Option Inner },
}

impl Model for Slot {
    ghost use Rattle.std.specs.Prelude.{Option};
    ghost use Rattle.sideways_c.specs.Slots.{slot_owns};
    ghost use Rattle.sideways_c.specs.contracts.inner.Inner as inner;

    ghost also_owns = { λ l. slot_owns (⟦<Global as Allocator>⟧.dealloc_token l.alloc) inner.the_row l.at l.value };
}

impl Slot {
    /// The box is kept.
    pub fn of(value: Box<Inner>) -> Slot
        ensures { result.value ≡ Some value.value }
    {
        let (at, alloc) = Box::into_raw_with_allocator(value);
        Slot {
            at: at as *mut (),
            alloc,
        }
    }

    /// The box that is kept.
    pub fn into_box(self) -> Box<Inner>
        requires { IsSome self.value }
        ensures { self.value ≡ Some result.value }
    {
        let Slot { at, alloc } = self;
        unsafe { Box::from_raw(alloc, at as *mut Inner) }
    }
}
