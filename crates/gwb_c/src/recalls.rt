//! Calls of C: the last answer, as values. Each says 1 if the value is there, and writes it; 0 if the last answer is of another kind, and 9 if there
//! is no session. In both cases nothing is written.
ghost use Rattle.std.specs.Prelude.{◌≡◌};
ghost use Rattle.session_slots.specs.Common.{fault_in, slot_in};
ghost use Rattle.gwb_c.specs.Handle.{Recalls, Gives, gives_refusal, gives_counts, gives_volume, gives_plane};

use crate::told::{CLOSED, give, told_of};
use crate::values::Value;
use session_slots::{Counts, GwbLent, PlaneRow, Refused, Wide, fault_of};

fn recall<T: Value>(gwb: &mut GwbLent, out: &mut T) -> u32
    ensures state { gwb.new.lent.loan ≡ gwb.old.lent.loan }
    ensures value { Recalls T.gives (slot_in gwb.old.lent.loan) out.old out.new result }
{
    told_of!(gwb, CLOSED, slot => T::give(&slot.console.answer, out))
}

/// What the last answer refused.
#[unsafe(no_mangle)]
pub extern "C" fn gwb_lent_last_refusal(gwb: &mut GwbLent, refusal: &mut Refused) -> u32
    ensures state { gwb.new.lent.loan ≡ gwb.old.lent.loan }
    ensures value { Recalls gives_refusal (slot_in gwb.old.lent.loan) refusal.old refusal.new result }
{
    recall(gwb, refusal)
}

/// The number of the last answer's fault.
#[unsafe(no_mangle)]
pub extern "C" fn gwb_lent_last_fault(gwb: &mut GwbLent, number: &mut u32) -> u32
    ensures state { gwb.new.lent.loan ≡ gwb.old.lent.loan }
    ensures value { Recalls (λ a. Gives (fault_in a)) (slot_in gwb.old.lent.loan) number.old number.new result }
{
    told_of!(gwb, CLOSED, slot => give(fault_of(&slot.console.answer), number))
}

/// What the last answer counted.
#[unsafe(no_mangle)]
pub extern "C" fn gwb_lent_last_counts(gwb: &mut GwbLent, counts: &mut Counts) -> u32
    ensures state { gwb.new.lent.loan ≡ gwb.old.lent.loan }
    ensures value { Recalls gives_counts (slot_in gwb.old.lent.loan) counts.old counts.new result }
{
    recall(gwb, counts)
}

/// Six times the volume that the last answer told.
#[unsafe(no_mangle)]
pub extern "C" fn gwb_lent_last_volume(gwb: &mut GwbLent, volume: &mut Wide) -> u32
    ensures state { gwb.new.lent.loan ≡ gwb.old.lent.loan }
    ensures value { Recalls gives_volume (slot_in gwb.old.lent.loan) volume.old volume.new result }
{
    recall(gwb, volume)
}

/// The plane that the last answer told, and whether its face is flat.
#[unsafe(no_mangle)]
pub extern "C" fn gwb_lent_last_plane(gwb: &mut GwbLent, plane: &mut PlaneRow) -> u32
    ensures state { gwb.new.lent.loan ≡ gwb.old.lent.loan }
    ensures value { Recalls gives_plane (slot_in gwb.old.lent.loan) plane.old plane.new result }
{
    recall(gwb, plane)
}
