//! Calls of C: sessions, and lines as text.
ghost use Rattle.std.specs.Prelude.{◌≡◌, true, Some, cond};
ghost use Rattle.session_slots.specs.Common.{undos, redos, is_staged, Opened, slot_in};
ghost use Rattle.handles.specs.Listed.{HandleJudgesText};
ghost use Rattle.handles.specs.Uses.{HandleGoes, closes, opens};
ghost use Rattle.gwb_c.specs.Calls.{Hears, Lacks};
ghost use Rattle.gwb_c.specs.Handle.{Numbers, Says, Replies, Lists_model};

use crate::told::{ABSENT, CLOSED, FOUND, LACKS_MEMORY, told_of};
use session_slots::{
    Gwb, GwbLent, Slot, begin, copy_front, hear, lack, put, staged, take, text_of,
};
use solid_listing::Told;
use std::alloc::Global;

/// Opens a session that holds the empty model. False if memory is refused, or if there is a session; then nothing has changed.
#[unsafe(no_mangle)]
pub extern "C" fn gwb_open(alloc: Global, gwb: &mut Gwb) -> bool
    ensures goes { HandleGoes gwb.old.kept.value opens gwb.new.kept.value (cond result 1 0) }
    ensures opened { Opened gwb.old.kept.value gwb.new.kept.value result }
{
    begin(alloc, gwb)
}

/// Frees the session, if there is one.
#[unsafe(no_mangle)]
pub extern "C" fn gwb_close(alloc: Global, gwb: &mut Gwb)
    ensures { HandleGoes gwb.old.kept.value closes gwb.new.kept.value 0 }
{
    if let Some(slot) = take(alloc, gwb) {
        slot.free();
    }
}

/// Answers a line, without its newline, and keeps the answer. Says what kind of answer it is: 0 silent, 1 `ok`, 2 `refused`, 3 `fault`, 4 `memory`, 5
/// `plane`, 6 `volume`, 7 `count`, 8 a listing; 9 if there is no session, 11 for undo and redo in a draft.
#[unsafe(no_mangle)]
pub extern "C" fn gwb_line(alloc: Global, gwb: &mut Gwb, line: &[u8]) -> u32
    ensures { Hears gwb.old.kept.value line.now gwb.new.kept.value result }
{
    let Some(slot) = take(alloc, gwb) else {
        return CLOSED;
    };
    let mut slot = slot;
    let kind = hear(alloc, slot.slot_mut(), line);
    put(gwb, slot);
    kind
}

/// Makes no call, and keeps as the last answer that memory was refused for what is kept beside the session or draft, which stays as it is. It takes no
/// memory. `calls.c` alone gives it: `gwb.h` doesn't show it.
#[unsafe(no_mangle)]
pub extern "C" fn gwb_lack(alloc: Global, gwb: &mut Gwb) -> u32
    ensures { Lacks gwb.old.kept.value gwb.new.kept.value result }
{
    let Some(slot) = take(alloc, gwb) else {
        return CLOSED;
    };
    let mut slot = slot;
    let kind = lack(slot.slot_mut());
    put(gwb, slot);
    kind
}

fn write_text(alloc: Global, slot: &Slot, answer: &Told, buf: &mut [u8]) -> usize
    requires { is_staged slot.now.console.stage ≡ true }
    ensures { Says (λ _. answer.now) (Some slot.now) buf.old buf.new result }
{
    match text_of(alloc, staged(slot).arena(), answer) {
        Some(text) => copy_front(&text, buf),
        None => usize::MAX,
    }
}

/// Writes the text of the last answer, as far as there is room, and says how long it is: `SIZE_MAX` if memory is refused, or if there is no session.
/// It can be asked again with more room.
#[unsafe(no_mangle)]
pub extern "C" fn gwb_lent_reply(alloc: Global, gwb: &mut GwbLent, buf: &mut [u8]) -> usize
    ensures state { gwb.new.lent.loan ≡ gwb.old.lent.loan }
    ensures text { Replies (slot_in gwb.old.lent.loan) buf.old buf.new result }
{
    told_of!(gwb, usize::MAX, slot => write_text(alloc, slot, &slot.console.answer, buf))
}

/// Writes the listing of the model shown, as far as there is room, and says how long it is: `SIZE_MAX` if memory is refused, or if there is no
/// session.
#[unsafe(no_mangle)]
pub extern "C" fn gwb_lent_listing(alloc: Global, gwb: &mut GwbLent, buf: &mut [u8]) -> usize
    ensures state { gwb.new.lent.loan ≡ gwb.old.lent.loan }
    ensures text { Lists_model (slot_in gwb.old.lent.loan) buf.old buf.new result }
{
    told_of!(gwb, usize::MAX, slot => write_text(alloc, slot, &Told::Listing, buf))
}

fn judge_text(alloc: Global, slot: &Slot, text: &[u8]) -> u32
    requires { is_staged slot.now.console.stage ≡ true }
    ensures { HandleJudgesText (Some slot.now) text.now result }
{
    match text_of(alloc, staged(slot).arena(), &Told::Listing) {
        Some(listing) if listing.as_slice() == text => FOUND,
        Some(_) => ABSENT,
        None => LACKS_MEMORY,
    }
}

/// Whether a text is the listing of the model shown: 1 if it is, 0 if it isn't, 4 if memory is refused, 9 if there is no session. `gwb_load` alone
/// asks it of what it has made: `gwb.h` doesn't show it.
#[unsafe(no_mangle)]
pub extern "C" fn gwb_lent_is_listing(alloc: Global, gwb: &mut GwbLent, text: &[u8]) -> u32
    ensures state { gwb.new.lent.loan ≡ gwb.old.lent.loan }
    ensures judged { HandleJudgesText (slot_in gwb.old.lent.loan) text.now result }
{
    told_of!(gwb, CLOSED, slot => judge_text(alloc, slot, text))
}

/// How many commands can be undone; 0 in a draft, `SIZE_MAX` if there is no session.
#[unsafe(no_mangle)]
pub extern "C" fn gwb_lent_depth(gwb: &mut GwbLent) -> usize
    ensures state { gwb.new.lent.loan ≡ gwb.old.lent.loan }
    ensures value { Numbers undos (slot_in gwb.old.lent.loan) result }
{
    told_of!(gwb, usize::MAX, slot => staged(slot).depth())
}

/// How many commands can be redone; 0 in a draft, `SIZE_MAX` if there is no session.
#[unsafe(no_mangle)]
pub extern "C" fn gwb_lent_ahead(gwb: &mut GwbLent) -> usize
    ensures state { gwb.new.lent.loan ≡ gwb.old.lent.loan }
    ensures value { Numbers redos (slot_in gwb.old.lent.loan) result }
{
    told_of!(gwb, usize::MAX, slot => staged(slot).ahead())
}
