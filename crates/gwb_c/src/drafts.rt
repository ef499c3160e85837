//! Calls of C: drafts. What is done in a draft becomes one command, or is taken back: all of it, or as far as a mark.
ghost use Rattle.std.specs.Prelude.{◌≡◌};
ghost use Rattle.session_slots.specs.Common.{steps_in, slot_in};
ghost use Rattle.gwb_c.specs.Calls.{Does};
ghost use Rattle.gwb_c.specs.Handle.{Numbers};

use crate::calling::call;
use crate::told::told_of;
use session_slots::{Call, Gwb, GwbLent, staged};
use std::alloc::Global;

/// Opens a draft of the next command: from then on operators and larger commands are its steps.
#[unsafe(no_mangle)]
pub extern "C" fn gwb_draft(alloc: Global, gwb: &mut Gwb) -> u32
    ensures { Does gwb.old.kept.value Call.Open gwb.new.kept.value result }
{
    call(alloc, gwb, Call::Open)
}

/// Makes the steps of the draft one command, even if there is no step. It takes no memory.
#[unsafe(no_mangle)]
pub extern "C" fn gwb_commit(alloc: Global, gwb: &mut Gwb) -> u32
    ensures { Does gwb.old.kept.value Call.Commit gwb.new.kept.value result }
{
    call(alloc, gwb, Call::Commit)
}

/// Takes the steps of the draft back, and leaves no trace of it. It takes no memory.
#[unsafe(no_mangle)]
pub extern "C" fn gwb_abandon(alloc: Global, gwb: &mut Gwb) -> u32
    ensures { Does gwb.old.kept.value Call.Abandon gwb.new.kept.value result }
{
    call(alloc, gwb, Call::Abandon)
}

/// Takes back the steps of the draft since a mark. If there are no steps after it, nothing changes. It takes no memory.
#[unsafe(no_mangle)]
pub extern "C" fn gwb_back(alloc: Global, gwb: &mut Gwb, mark: usize) -> u32
    ensures { Does gwb.old.kept.value (Call.Back mark) gwb.new.kept.value result }
{
    call(alloc, gwb, Call::Back(mark))
}

/// How many steps the draft has, as a mark for `gwb_back`: 0 if there is no draft, `SIZE_MAX` if there is no session.
#[unsafe(no_mangle)]
pub extern "C" fn gwb_lent_mark(gwb: &mut GwbLent) -> usize
    ensures state { gwb.new.lent.loan ≡ gwb.old.lent.loan }
    ensures value { Numbers steps_in (slot_in gwb.old.lent.loan) result }
{
    told_of!(gwb, usize::MAX, slot => staged(slot).steps())
}
