//! Lines: each spells a call, or has an answer of its own.
ghost use Rattle.std.specs.Prelude.{◌≡◌, Ok, true};
ghost use Rattle.script_reader.specs.Grammar.{is_operator, arguments};
ghost use Rattle.script_reader.specs.Polygon.{over};
ghost use Rattle.script_running.specs.script_judging.Judging.{faulty};
ghost use Rattle.script_running.specs.script_judging.Consoles.{ConsoleHeeds, keeps};
ghost use Rattle.script_running.specs.script_judging.Hearing.{changes, said_of, spoken, unless_not_ascii};

use crate::script_judging::calls::{Console, act, change, make, redo, say, undo};
use commands::Call;
use script_reader::{
    Fault, Name, Opening, Outline, Polygon, Request, Words, arguments, is_ascii, is_long,
    is_operator, opening_of, operator,
};
use solid_listing::Told;
use std::alloc::Global;

/// Answers a line with this fault. The stack space for answers is in this and the next functions, so that no other line pays for it.
#[inline(never)]
fn tell_fault(console: &mut Console, fault: Fault) -> u32
    ensures { ConsoleHeeds console.old (keeps (faulty fault)) console.new result }
{
    say(console, Told::Fault(fault.code()))
}

/// Answers a line within the limit whose words have this first fault: with this fault, or with the one that the line isn't ASCII.
#[inline(never)]
fn tell_first_fault(console: &mut Console, line: &[u8], fault: Fault) -> u32
    ensures { ConsoleHeeds console.old (keeps (unless_not_ascii line.now (faulty fault))) console.new result }
{
    if is_ascii(line) {
        tell_fault(console, fault)
    } else {
        tell_fault(console, Fault::NotAscii)
    }
}

/// Answers a line within the limit whose words ask for nothing: it has no reply, or the fault that it isn't ASCII.
#[inline(never)]
fn tell_nothing(console: &mut Console, line: &[u8]) -> u32
    ensures { ConsoleHeeds console.old (keeps (unless_not_ascii line.now Told.Silent)) console.new result }
{
    if is_ascii(line) {
        say(console, Told::Silent)
    } else {
        tell_fault(console, Fault::NotAscii)
    }
}

/// Makes a change over the points that its line has.
#[inline(never)]
fn change_over(alloc: Global, console: &mut Console, outline: Outline, polygon: &Polygon<'_>) -> u32
    ensures { ConsoleHeeds console.old (changes (over outline polygon.now)) console.new result }
{
    let corners = polygon.corners();
    change(alloc, console, outline.over(&corners))
}

/// Does what the words of a line within the limit ask for.
fn obey(alloc: Global, console: &mut Console, line: &[u8], request: Request<'_>) -> u32
    ensures { ConsoleHeeds console.old (said_of line.now (Ok request.entry)) console.new result }
{
    match request {
        Request::Nothing => tell_nothing(console, line),
        Request::List => say(console, Told::Listing),
        Request::Over(outline, polygon) => change_over(alloc, console, outline, &polygon),
        Request::Give(command) => make(alloc, console, Call::Give(command)),
    }
}

/// Answers a line within the limit that is the name of an operator followed by these words.
#[inline(always)]
fn hear_operator(console: &mut Console, line: &[u8], name: Name, words: &mut Words<'_>) -> u32
    requires { is_operator name ≡ true }
    ensures { ConsoleHeeds console.old (said_of line.now (arguments name words.old)) console.new result }
{
    match operator(name, words) {
        Ok(op) => act(console, op),
        Err(fault) => tell_first_fault(console, line, fault),
    }
}

/// Answers a line within the limit that is this name followed by these words.
#[inline(never)]
fn hear_other(
    alloc: Global,
    console: &mut Console,
    line: &[u8],
    name: Name,
    words: &mut Words<'_>,
) -> u32
    ensures { ConsoleHeeds console.old (said_of line.now (arguments name words.old)) console.new result }
{
    match arguments(name, words) {
        Ok(request) => obey(alloc, console, line, request),
        Err(fault) => tell_first_fault(console, line, fault),
    }
}

/// Answers any line. A line is read once. Only if it asks for nothing, or its words are wrong, is it searched again for a byte that isn't ASCII.
#[inline(never)]
#[tactic(auto, using(crate::proofs::Hearing::words_heard))]
fn hear_line(alloc: Global, console: &mut Console, line: &[u8]) -> u32
    ensures { ConsoleHeeds console.old (spoken line.now) console.new result }
{
    if is_long(line) {
        return tell_fault(console, Fault::LongLine);
    }
    match opening_of(line) {
        Opening::Nothing => tell_nothing(console, line),
        Opening::BadWord => tell_first_fault(console, line, Fault::BadWord),
        Opening::Command(name, mut words) => {
            if is_operator(name) {
                return hear_operator(console, line, name, &mut words);
            }
            return hear_other(alloc, console, line, name, &mut words);
        }
    }
}

/// Answers a line, keeps the answer, and says what C is told of it. A line that spells undo or redo in a draft, which doesn't have these calls, changes
/// nothing. If the answer isn't `ok`, the session or draft is as it was, with its records. The lines that are given most often, `undo` and `redo`
/// alone, are known by their letters.
#[inline(always)]
pub fn hear(alloc: Global, console: &mut Console, line: &[u8]) -> u32
    ensures { ConsoleHeeds console.old (spoken line.now) console.new result }
{
    match line {
        [b'u', b'n', b'd', b'o'] => undo(console),
        [b'r', b'e', b'd', b'o'] => redo(console),
        _ => hear_line(alloc, console, line),
    }
}
