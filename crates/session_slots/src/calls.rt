//! What an operator, a question and a line do to a slot, and which numbers in use a call keeps. Each says what C is told of it.
ghost use Rattle.std.specs.Prelude.{◌≡◌, ◌<◌, ◌≤◌};
ghost use Rattle.session_slots.specs.Common.{ConsoleHeeds, Counts_in, Notes, act_of, calls, gives, keeps, spoken};
ghost use Rattle.script_running.specs.script_judging.Consoles.{Measures};

use crate::slot::{Slot, counted_in};
use commands::{Command, Question};
use euler_operators::Op;
use solid_listing::Told;
use solid_walks::Counters;
use std::alloc::Global;

/// C is told less than this of each call that the session or draft has.
const LACKING: u32 = 11;

/// Keeps the greatest numbers in use before a call of which C is told this, if the session or draft has it.
#[inline(always)]
pub fn note(slot: &mut Slot, before: Counters, kind: u32)
    ensures console { slot.new.console ≡ slot.old.console }
    ensures had { kind < 11 → slot.new.before ≡ before }
    ensures lacking { 11 ≤ kind → slot.new.before ≡ slot.old.before }
{
    if kind < LACKING {
        slot.before = before;
    }
}

/// One operator: in a session a command, in a draft a step.
#[inline(always)]
pub fn act(slot: &mut Slot, op: Op) -> u32
    ensures heeds { ConsoleHeeds slot.old.console (calls (act_of op)) slot.new.console result }
    ensures noted { Notes slot.old slot.new result }
{
    slot.before = counted_in(slot);
    script_running::act(&mut slot.console, op)
}

/// Answers a question about the model shown, and keeps the answer. A question is no command: the numbers from before the last command stay.
#[inline(always)]
pub fn ask(slot: &mut Slot, question: Question) -> u32
    ensures heeds { ConsoleHeeds slot.old.console (gives (Command.Ask question)) slot.new.console result }
    ensures stay { slot.new.before ≡ slot.old.before }
{
    script_running::ask(&mut slot.console, question)
}

/// Answers a question about the model shown, and keeps nothing.
#[inline(always)]
pub fn measure(slot: &Slot, question: Question) -> Told
    ensures { Measures slot.now.console question result }
{
    script_running::measure(&slot.console, question)
}

/// Answers a line, and keeps the answer and the greatest numbers in use before it. A line that spells undo or redo in a draft, which doesn't have these
/// calls, changes nothing.
pub fn hear(alloc: Global, slot: &mut Slot, line: &[u8]) -> u32
    ensures heeds { ConsoleHeeds slot.old.console (spoken line.now) slot.new.console result }
    ensures noted { Notes slot.old slot.new result }
{
    let before = counted_in(slot);
    let kind = script_running::hear(alloc, &mut slot.console, line);
    note(slot, before, kind);
    kind
}

/// Answers that memory was refused for what is kept beside the session or draft, which stays as it is. The numbers in use are kept as those from
/// before this answer.
pub fn lack(slot: &mut Slot) -> u32
    ensures heeds { ConsoleHeeds slot.old.console (keeps Told.Memory) slot.new.console result }
    ensures noted { Counts_in slot.old slot.new.before }
{
    slot.before = counted_in(slot);
    script_running::say(&mut slot.console, Told::Memory)
}
