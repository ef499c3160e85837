//! Calls given to the session or draft behind a handle.
ghost use Rattle.std.specs.Prelude.{◌≡◌};
ghost use Rattle.handles.specs.Uses.{HandleGoes, skips};
ghost use Rattle.gwb_c.specs.Calls.{Does};

use crate::told::{CLOSED, NO_CALL};
use script_running::make;
use session_slots::{Call, Gwb, counted_in, note, put, take};
use std::alloc::Global;

/// Makes a call, and keeps its answer and the greatest numbers in use before it. A call that the session or draft doesn't have changes nothing.
#[inline(always)]
pub(crate) fn call(alloc: Global, gwb: &mut Gwb, wanted: Call<'_>) -> u32
    ensures { Does gwb.old.kept.value wanted.entry gwb.new.kept.value result }
{
    let Some(slot) = take(alloc, gwb) else {
        return CLOSED;
    };
    let mut slot = slot;
    let open = slot.slot_mut();
    let before = counted_in(open);
    let kind = make(alloc, &mut open.console, wanted);
    note(open, before, kind);
    put(gwb, slot);
    kind
}

/// Makes no call, since the arguments spell none.
pub(crate) fn no_call(alloc: Global, gwb: &mut Gwb) -> u32
    ensures { HandleGoes gwb.old.kept.value skips gwb.new.kept.value result }
{
    let Some(slot) = take(alloc, gwb) else {
        return CLOSED;
    };
    put(gwb, slot);
    NO_CALL
}
