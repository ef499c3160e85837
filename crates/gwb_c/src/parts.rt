//! Calls of C: faces of a solid that become a solid of their own.
ghost use Rattle.std.specs.Prelude.{◌≡◌, ◌<◌, [], length};
ghost use Rattle.handles.specs.Uses.{HandleGoes, skips};
ghost use Rattle.gwb_c.specs.Calls.{Parts};

use crate::calling::no_call;
use crate::told::CLOSED;
use session_slots::{Gwb, put, take};
use std::alloc::Global;

/// Makes a new solid of some faces of a solid, at least one.
fn part(alloc: Global, gwb: &mut Gwb, faces: &[u32], solid: u32) -> u32
    requires { 0 < length faces.now }
    ensures { Parts gwb.old.kept.value faces.now solid gwb.new.kept.value result }
{
    let Some(slot) = take(alloc, gwb) else {
        return CLOSED;
    };
    let mut slot = slot;
    let kind = session_slots::part(alloc, slot.slot_mut(), faces, solid);
    put(gwb, slot);
    kind
}

/// Makes a new solid of some faces of a solid. If no face is given, no call is made.
#[unsafe(no_mangle)]
pub extern "C" fn gwb_part(alloc: Global, gwb: &mut Gwb, faces: &[u32], solid: u32) -> u32
    ensures made { 0 < length faces.now → Parts gwb.old.kept.value faces.now solid gwb.new.kept.value result }
    ensures none { faces.now ≡ [] → HandleGoes gwb.old.kept.value skips gwb.new.kept.value result }
{
    if faces.is_empty() {
        return no_call(alloc, gwb);
    }
    part(alloc, gwb, faces, solid)
}
