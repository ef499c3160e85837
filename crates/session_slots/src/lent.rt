//! The copy of a handle that a reader of C takes. What it leads to is lent: only readers are called meanwhile.
ghost use Rattle.std.specs.Prelude.{◌≡◌, ◌↔◌, ℕ, true, IsTrue, IsSome, IfSome, Option, None, Some, MatchOption};
ghost use base.Fml.{Share};
ghost use Rattle.std.specs.Coded.{coded_option};
ghost use Rattle.session_slots.specs.Common.{Slot, loan_coded, slot_in, is_staged, is_whole};

use crate::slot::Slot;
use std::marker::Model;
use std::{mem, ptr};

/// A pointer to a slot that is lent, with a share of the lifetime for which it is lent; or a pointer to nothing.
#[repr(C)]
pub struct Lent {
    at: *const u8,
    pub ghost loan: { Option (Slot × (ℕ × Share)) } by { coded_option loan_coded },
}

impl Model for Lent {
    ghost use Rattle.session_slots.specs.Owned.{lent_owns};

    ghost also_owns = { λ h. lent_owns h.at h.loan };
}

/// A pointer to a slot that is lent, through which the slot can be looked at.
pub struct Shown {
    at: *const u8,
    pub ghost loan: { Slot × (ℕ × Share) } by { loan_coded },
}

impl Model for Shown {
    ghost use Rattle.session_slots.specs.Owned.{loan_owns, loan_lends};

    ghost also_owns = { λ h. loan_owns h.at h.loan };

    ghost also_shares = { λ h _ κ. loan_lends h.at h.loan κ };
}

impl Lent {
    /// Nothing.
    fn none() -> Lent
        ensures { result.loan ≡ None }
    {
        let at = ptr::null();
        Lent { at }
    }

    fn show(self) -> Shown
        requires { IsSome self.loan }
        ensures { Some result.loan ≡ self.loan }
    {
        let Lent { at } = self;
        Shown { at }
    }

    /// Ends a pointer to nothing.
    fn close(self)
        requires { self.loan ≡ None }
    {
        let Lent { at: _ } = self;
    }
}

impl Shown {
    fn hide(self) -> Lent
        ensures { result.loan ≡ Some self.loan }
    {
        let Shown { at } = self;
        Lent { at }
    }

    /// What is lent.
    pub fn slot(&self) -> &Slot
        ensures { result.now ≡ self.now.loan.0 }
    {
        unsafe { &*(self.at as *const Slot) }
    }
}

/// A copy of a handle. It has the layout of `Gwb`.
#[repr(C)]
pub struct GwbLent {
    is_open: bool,
    pub lent: Lent,
    ghost agrees: { IsTrue is_open ↔ IsSome lent.loan },
    ghost whole: { is_whole (slot_in lent.loan) ≡ true },
}

/// A copy of a closed handle.
fn closed() -> GwbLent
    ensures { result.lent.loan ≡ None }
{
    GwbLent {
        is_open: false,
        lent: Lent::none(),
    }
}

/// What is lent, if the handle is open. The copy is one of a closed handle until what is lent is given back.
pub fn show(gwb: &mut GwbLent) -> Option<Shown>
    ensures left { gwb.new.lent.loan ≡ None }
    ensures staged { IfSome result (λ s. is_staged s.loan.0.console.stage ≡ true) }
    ensures shown { MatchOption result (gwb.old.lent.loan ≡ None) (λ s. gwb.old.lent.loan ≡ Some s.loan) }
{
    let GwbLent { is_open, lent } = mem::replace(gwb, closed());
    if is_open {
        Some(lent.show())
    } else {
        lent.close();
        None
    }
}

/// Ends a copy of a closed handle.
fn end(gwb: GwbLent)
    requires { gwb.lent.loan ≡ None }
{
    let GwbLent { is_open: _, lent } = gwb;
    lent.close();
}

/// Gives back what is lent.
pub fn hide(gwb: &mut GwbLent, shown: Shown)
    requires closed { gwb.old.lent.loan ≡ None }
    requires staged { is_staged shown.loan.0.console.stage ≡ true }
    ensures { gwb.new.lent.loan ≡ Some shown.loan }
{
    let open = GwbLent {
        is_open: true,
        lent: shown.hide(),
    };
    end(mem::replace(gwb, open));
}
