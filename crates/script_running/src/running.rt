//! A whole run.
ghost use Rattle.std.specs.Prelude.{◌≡◌, [], false, Err, IfOk, IfErr, OnOk, Some};
ghost use Rattle.std.specs.Io.KnownBytes.{Keeps};
ghost use Rattle.commands.specs.declared.stage.Stage.TheVariants as stage;
ghost use Rattle.undo_journal.specs.Journal.{Journal};
ghost use Rattle.script_running.specs.Common.{IsFresh, Puts, Tells, has_newline, outgoing, reader_of, unread_of};
ghost use Rattle.script_running.specs.script_judging.Consoles.{IsNew};
ghost use Rattle.script_running.specs.script_judging.Judging.{answer_text};
ghost use Rattle.script_running.specs.Outs.{stops};
ghost use Rattle.script_running.specs.Leaving.{RunsTo};
ghost use Rattle.script_running.specs.Runs.{Runs};
ghost use Rattle.script_running.specs.Reaching.{AsksAnswers, HandsOn};
ghost use Rattle.script_reader.specs.Reaching.{Reaches};

use crate::script_judging::{Console, Summary, complains, hear};
use script_reader::{Fault, Found, Inlet, Lines, Outlet};
use solid_listing::{Text, Told, release, tell};
use std::alloc::Global;
use thiserror::Error;

/// Why a run ended before the end of its script.
#[derive(Clone, Copy, Debug, PartialEq, Eq, Error)]
pub enum RunFault {
    /// A read failed.
    #[error("read fault")]
    Read,
    /// A write failed, or took no byte.
    #[error("write fault")]
    Write,
    /// The reader gave a byte past 67,108,864.
    #[error("script too long")]
    TooLong,
    /// The memory that a run begins with was refused.
    #[error("out of memory")]
    Memory,
}

/// Appends the console's answer to the text.
fn say<W: Outlet>(text: &mut Text, writer: &mut W, console: &Console) -> Result<(), RunFault>
    ensures tells { (s : Journal) → console.now.stage ≡ Some (stage.Session s) → Tells (outgoing (W.contents writer.old) text.old) (outgoing (W.contents writer.new) text.new) (answer_text s.machine console.now.answer) result }
    ensures fault { IfErr result (λ e. e ≡ RunFault.Write) }
{
    match &console.stage {
        Some(stage) => {
            tell(stage.arena(), &console.answer, text, writer).map_err(|_| RunFault::Write)
        }
        None => Ok(()),
    }
}

/// Whether an answer ends the run.
fn stops(stop: bool, answer: &Told) -> bool
    ensures { result ≡ stops stop answer.now }
{
    stop && complains(answer)
}

/// Writes the answers out, and has the writer hand them on.
fn bring_out<W: Outlet>(text: &mut Text, writer: &mut W) -> Result<(), RunFault>
    ensures tells { Tells (outgoing (W.contents writer.old) text.old) (outgoing (W.contents writer.new) text.new) [] result }
    ensures none { text.new ≡ [] }
    ensures reached { OnOk result (Reaches (W.reached writer.new) (W.contents writer.new)) }
    ensures fault { IfErr result (λ e. e ≡ RunFault.Write) }
{
    let Ok(()) = release(text, writer) else {
        return Err(RunFault::Write);
    };
    match writer.hand_on() {
        Ok(()) => Ok(()),
        Err(_) => Err(RunFault::Write),
    }
}

/// If no whole line is left, writes the answers out and has the writer hand them on: this comes before each read, which may wait.
fn flush<R, W: Outlet>(lines: &Lines<R>, text: &mut Text, writer: &mut W) -> Result<(), RunFault>
    ensures tells { Tells (outgoing (W.contents writer.old) text.old) (outgoing (W.contents writer.new) text.new) [] result }
    ensures none { has_newline (unread_of lines.now) ≡ false → text.new ≡ [] }
    ensures reached { has_newline (unread_of lines.now) ≡ false → OnOk result (Reaches (W.reached writer.new) (W.contents writer.new)) }
    ensures fault { IfErr result (λ e. e ≡ RunFault.Write) }
{
    if lines.has_whole_line() {
        return Ok(());
    }
    bring_out(text, writer)
}

/// Writes the answers out when the run stops.
fn leave<W: Outlet>(text: &mut Text, writer: &mut W, summary: Summary) -> Result<Summary, RunFault>
    ensures puts { Puts (W.contents writer.old) (W.contents writer.new) text.old result }
    ensures ok { IfOk result (λ s. s ≡ summary) }
    ensures fault { IfErr result (λ e. e ≡ RunFault.Write) }
{
    match release(text, writer) {
        Ok(()) => Ok(summary),
        Err(_) => Err(RunFault::Write),
    }
}

/// Has the writer hand on the last answers.
fn finish<W: Outlet>(writer: &mut W, summary: Summary) -> Result<Summary, RunFault>
    ensures kept { Keeps (W.contents writer.old) (W.contents writer.new) }
    ensures ok { IfOk result (λ s. s ≡ summary) }
    ensures reached { OnOk result (Reaches (W.reached writer.new) (W.contents writer.new)) }
    ensures fault { IfErr result (λ e. e ≡ RunFault.Write) }
{
    if writer.hand_on().is_err() {
        return Err(RunFault::Write);
    }
    Ok(summary)
}

/// Answers the lines of a script from its start, in a new session.
fn run_lines<R: Inlet<W>, W: Outlet>(
    alloc: Global,
    lines: &mut Lines<R>,
    console: &mut Console,
    writer: &mut W,
    stop: bool,
) -> Result<Summary, RunFault>
    requires fresh { IsFresh (reader_of lines.old) lines.old }
    requires start { IsNew console.old }
    requires asked { AsksAnswers R.remaining R.asks (reader_of lines.old) (W.contents writer.old) stop }
    ensures runs { RunsTo (R.remaining (reader_of lines.old)) (W.contents writer.old) (W.contents writer.new) stop result console.new.stage }
    ensures reached { IfErr result (λ e. HandsOn (W.reached writer.new) (W.contents writer.new) (Err e)) }
{
    let mut text = Text::new();
    let mut summary = Summary::default();
    'script: loop {
        if let Err(fault) = flush(lines, &mut text, writer) {
            break Err(fault);
        }
        match lines.advance(writer) {
            Found::Line => {
                hear(alloc, console, lines.line());
            }
            Found::Long => console.answer = Told::Fault(Fault::LongLine.code()),
            Found::End => break Ok(summary),
            Found::Read => break Err(RunFault::Read),
            Found::TooLong => break Err(RunFault::TooLong),
        }
        summary.count(&console.answer);
        if let Err(fault) = say(&mut text, writer, console) {
            break Err(fault);
        }
        if stops(stop, &console.answer) {
            break leave(&mut text, writer, summary);
        }
    }
}

/// Runs a script in a console that has a new session: hears each line that the reader gives, in order, and writes its answer. Before each read, which
/// may wait (`Inlet`), the answers to all whole lines given so far are written and handed on, so that a reader may ask for them (`AsksAnswers`; no
/// reader of std does). All is handed on at the end too, also if a read failed. If `stop` is set, the run ends after the
/// first reply that begins with `refused`, `fault` or `memory`; bytes after that line may have been read. The console is left with the session to which
/// the lines lead that were heard (`Leaves`), for the caller.
///
/// `RunFault::Memory` comes only if the first memory was refused, and then nothing is read or written. After `Read` or `TooLong` the replies to the
/// lines that were read to their newline are written, and nothing else. After `Write` a prefix of the replies to the lines read so far is written.
///
/// A read that a signal interrupts is tried again, at most 1,000,000 times in a row.
pub fn run_in<R: Inlet<W> + Drop, W: Outlet>(
    alloc: Global,
    reader: R,
    console: &mut Console,
    writer: &mut W,
    stop: bool,
) -> Result<Summary, RunFault>
    requires start { IsNew console.old }
    requires asked { AsksAnswers R.remaining R.asks reader (W.contents writer.old) stop }
    ensures runs { RunsTo (R.remaining reader) (W.contents writer.old) (W.contents writer.new) stop result console.new.stage }
    ensures reached { HandsOn (W.reached writer.new) (W.contents writer.new) result }
{
    let Ok(mut lines) = Lines::new(alloc, reader) else {
        return Err(RunFault::Memory);
    };
    let summary = run_lines(alloc, &mut lines, console, writer, stop)?;
    finish(writer, summary)
}

/// Runs a script: hears each line that the reader gives, in order, and writes its answer. It is `run_in` in a session of its own, which is freed at
/// the end.
pub fn run<R: Inlet<W> + Drop, W: Outlet>(
    alloc: Global,
    reader: R,
    writer: &mut W,
    stop: bool,
) -> Result<Summary, RunFault>
    requires asked { AsksAnswers R.remaining R.asks reader (W.contents writer.old) stop }
    ensures runs { Runs (R.remaining reader) (W.contents writer.old) (W.contents writer.new) stop result }
    ensures reached { HandsOn (W.reached writer.new) (W.contents writer.new) result }
{
    let Ok(mut console) = Console::new(alloc) else {
        return Err(RunFault::Memory);
    };
    run_in(alloc, reader, &mut console, writer, stop)
}
