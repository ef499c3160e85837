//! The handle: a pointer that C keeps, to a slot or to none.
ghost use Rattle.std.specs.Prelude.{◌≡◌, ◌↔◌, true, IsTrue, IsSome, IfSome, Some, None, MatchOption};
ghost use Rattle.session_slots.specs.Opening.{Opened, is_staged, is_whole};

use crate::held::Held;
use crate::kept::Kept;
use crate::slot::made;
use std::alloc::Global;
use std::mem;

/// A session; or none, before `gwb_open` and after `gwb_close`.
#[repr(C)]
pub struct Gwb {
    is_open: bool,
    pub kept: Kept,
    ghost agrees: { IsTrue is_open ↔ IsSome kept.value },
    ghost whole: { is_whole kept.value ≡ true },
}

/// A closed handle.
fn closed() -> Gwb
    ensures { result.kept.value ≡ None }
{
    Gwb {
        is_open: false,
        kept: Kept::none(),
    }
}

/// Ends a closed handle.
fn end(gwb: Gwb)
    requires { gwb.kept.value ≡ None }
{
    let Gwb { is_open: _, kept } = gwb;
    kept.close();
}

/// Hands a session over to C, by a handle that was closed.
pub fn put(gwb: &mut Gwb, slot: Held)
    requires closed { gwb.old.kept.value ≡ None }
    requires staged { is_staged slot.console.stage ≡ true }
    ensures { gwb.new.kept.value ≡ Some slot }
{
    let open = Gwb {
        is_open: true,
        kept: Kept::of(slot.into_box()),
    };
    end(mem::replace(gwb, open));
}

/// The session, if there is one. The handle is closed until the session is handed over again.
pub fn take(alloc: Global, gwb: &mut Gwb) -> Option<Held>
    ensures left { gwb.new.kept.value ≡ None }
    ensures staged { IfSome result (λ h. is_staged h.console.stage ≡ true) }
    ensures slot { MatchOption result (gwb.old.kept.value ≡ None) (λ h. gwb.old.kept.value ≡ Some h) }
{
    let Gwb { is_open, kept } = mem::replace(gwb, closed());
    if is_open {
        Some(Held::of(kept.into_box(alloc)))
    } else {
        kept.close();
        None
    }
}

/// Begins a session that holds the empty model. False if memory is refused, or if there is a session; then nothing has changed.
pub fn begin(alloc: Global, gwb: &mut Gwb) -> bool
    ensures { Opened gwb.old.kept.value gwb.new.kept.value result }
{
    if let Some(slot) = take(alloc, gwb) {
        put(gwb, slot);
        return false;
    }
    match made(alloc) {
        None => false,
        Some(slot) => {
            put(gwb, Held::of(slot));
            true
        }
    }
}
