//! A session or a draft in a slot with its last answer.
ghost use Rattle.std.specs.Prelude.{◌≡◌, IfSome, Some, length, true};
ghost use Rattle.euler_conditions.specs.Ready.{IsReady};
ghost use Rattle.session_slots.specs.Common.{IsNew, is_staged, told_text, Counts_in, laid_over};

use commands::Stage;
use euler_conditions::Arena;
use script_running::Console;
use solid_listing::{Told, write_told};
use solid_walks::{Counters, counters_of};
use std::alloc::Global;

/// A session or a draft, with the answer to the last command and the greatest numbers in use before it.
#[derive(Drop)]
pub struct Slot {
    pub console: Console,
    /// The greatest numbers in use before the last command.
    pub before: Counters,
}

/// A new session in its box.
pub(crate) fn made(alloc: Global) -> Option<Box<Slot, Global>>
    ensures { IfSome result (λ b. IsNew b.value.console × (b.value.console.answer ≡ Told.Silent)) }
{
    let Ok(console) = Console::new(alloc) else {
        return None;
    };
    Box::new(
        alloc,
        Slot {
            console,
            before: Counters {
                faces: 0,
                loops: 0,
                edges: 0,
                vertices: 0,
            },
        },
    )
    .ok()
}

/// The session or the draft of a slot that has one.
#[inline(always)]
pub fn staged(slot: &Slot) -> &Stage
    requires { is_staged slot.now.console.stage ≡ true }
    ensures { slot.now.console.stage ≡ Some result.now }
{
    match &slot.console.stage {
        Some(stage) => stage,
        None => unreachable!(),
    }
}

/// The greatest numbers in use.
#[inline(always)]
pub fn counted_in(slot: &Slot) -> Counters
    ensures { Counts_in slot.now result }
{
    match &slot.console.stage {
        Some(stage) => counters_of(stage.arena()),
        None => slot.before,
    }
}

/// The text of an answer; a listing is that of the arena's model. None if memory is refused.
pub fn text_of(alloc: Global, arena: &Arena, answer: &Told) -> Option<Vec<u8>>
    requires { IsReady arena.now }
    ensures { IfSome result (λ v. v.items ≡ told_text arena.now.model answer.now) }
{
    let mut text = Vec::new(alloc);
    match write_told(arena, answer, &mut text) {
        Ok(()) => Some(text),
        Err(_) => None,
    }
}

/// Copies as much of a text as there is room for, and says how long it is.
pub fn copy_front(text: &[u8], buf: &mut [u8]) -> usize
    ensures value { result ≡ length text.now }
    ensures front { buf.new ≡ laid_over text.now buf.old }
{
    let n = text.len().min(buf.len());
    buf[..n].copy_from_slice(&text[..n]);
    text.len()
}
