//! The pointer that C keeps.
ghost use Rattle.std.specs.Prelude.{◌≡◌, Option, None, Some, IsSome};
ghost use Rattle.session_slots.specs.declared.slot.Slot.{Slot};

use crate::loose::Loose;
use crate::slot::Slot;
use std::alloc::Global;
use std::marker::Model;
use std::ptr;

/// A box whose pointer C keeps, or none. It must be ended: by `into_box`, or by `close` if there is no box.
#[repr(C)]
pub struct Kept {
    at: *mut u8,
    pub ghost value: { Option Slot },
}

impl Model for Kept {
    ghost use Rattle.session_slots.specs.Owned.{kept_owns};

    ghost also_owns = { λ h. kept_owns h.at h.value };
}

impl Kept {
    /// No box.
    pub(crate) fn none() -> Kept
        ensures { result.value ≡ None }
    {
        let at = ptr::null_mut();
        Kept { at }
    }

    /// Ends a `Kept` that has no box.
    pub(crate) fn close(self)
        requires { self.value ≡ None }
    {
        let Kept { at: _ } = self;
    }

    fn lay_down(loose: Loose<Slot, Global>) -> Kept
        ensures { result.value ≡ Some loose.value }
    {
        let Loose { at, alloc: _ } = loose;
        Kept { at: at as *mut u8 }
    }

    fn take_up(self, alloc: Global) -> Loose<Slot, Global>
        requires { IsSome self.value }
        ensures { Some result.value ≡ self.value }
    {
        let Kept { at } = self;
        Loose {
            at: at as *mut Slot,
            alloc,
        }
    }

    /// Puts a box down.
    pub(crate) fn of(boxed: Box<Slot, Global>) -> Kept
        ensures { result.value ≡ Some boxed.value }
    {
        Kept::lay_down(Loose::of(boxed))
    }

    /// Takes the box up again.
    pub(crate) fn into_box(self, alloc: Global) -> Box<Slot, Global>
        requires { IsSome self.value }
        ensures { Some result.value ≡ self.value }
    {
        self.take_up(alloc).into_box()
    }
}
