//! The program over its words, standard input, files and standard output.
ghost use Rattle.std.specs.Prelude.{◌≡◌, Bool, IfSome, map, option_map, string_bytes};
ghost use Rattle.std.specs.Fn.{FnOnceReturnsAt};
ghost use Rattle.script_running.specs.Reaching.{AsksAnswers};
ghost use Rattle.script_running.specs.script_judging.Consoles.{IsNew};
ghost use Rattle.command_line.specs.Endings.{Answered};
ghost use Rattle.command_line.specs.Serving.{AllHandedOn, OpensAsking, RunsFile, RunsOpened, Serves};

use crate::ending::Trouble;
use crate::words::{Choice, read_words};
use script_running::{Console, Inlet, Outlet, Summary, run_in};
use std::alloc::Global;

/// Runs a script.
fn answer<R: Inlet<W> + Drop, W: Outlet>(
    alloc: Global,
    script: R,
    console: &mut Console,
    writer: &mut W,
    stop: bool,
) -> Result<Summary, Trouble>
    requires start { IsNew console.old }
    requires asked { AsksAnswers R.remaining R.asks script (W.contents writer.old) stop }
    ensures runs { Answered (R.remaining script) (W.contents writer.old) (W.contents writer.new) stop result console.new }
    ensures reached { AllHandedOn (W.reached writer.new) (W.contents writer.new) result }
{
    run_in(alloc, script, console, writer, stop).map_err(Trouble::Run)
}

/// Runs what was opened.
fn run_opened<F: Inlet<W> + Drop, W: Outlet>(
    alloc: Global,
    opened: Option<F>,
    console: &mut Console,
    writer: &mut W,
    stop: bool,
) -> Result<Summary, Trouble>
    requires start { IsNew console.old }
    requires asked { IfSome opened (λ script. AsksAnswers F.remaining F.asks script (W.contents writer.old) stop) }
    ensures runs { RunsOpened F.remaining (W.contents writer.old) (W.contents writer.new) stop result console.new opened }
    ensures reached { AllHandedOn (W.reached writer.new) (W.contents writer.new) result }
{
    match opened {
        Some(script) => answer(alloc, script, console, writer, stop),
        None => Err(Trouble::Open),
    }
}

/// How the run ended. What was not used of what `serve` was given is handed back.
#[derive(Drop)]
pub struct Outcome<R, O> {
    /// What was counted, or why the program ends before its script is answered.
    pub ended: Result<Summary, Trouble>,
    /// What opens FILE, if no file is named or the words give no choice.
    pub opening: Option<O>,
    /// Standard input, from which nothing was read, if a file is named or the words give no choice.
    pub input: Option<R>,
}

/// Runs the script that was chosen. If no file is named, `opening` is handed back, and else `input`.
fn follow<R: Inlet<W> + Drop, F: Inlet<W> + Drop, O: FnOnce(&str) -> Option<F> + Drop, W: Outlet>(
    alloc: Global,
    choice: &Choice,
    input: R,
    opening: O,
    console: &mut Console,
    writer: &mut W,
) -> Outcome<R, O>
    requires callable { O.IsAlwaysCallable opening }
    requires start { IsNew console.old }
    requires asked { (stop : Bool) → AsksAnswers R.remaining R.asks input (W.contents writer.old) stop }
    requires files { OpensAsking (FnOnceReturnsAt O.FnOnce opening) F.remaining F.asks (W.contents writer.old) }
    ensures runs { RunsFile input opening (FnOnceReturnsAt O.FnOnce opening) F.remaining (R.remaining input) (W.contents writer.old) (W.contents writer.new) choice.now.stop result console.new (option_map string_bytes choice.now.file) }
    ensures reached { AllHandedOn (W.reached writer.new) (W.contents writer.new) result.ended }
{
    match &choice.file {
        Some(name) => {
            let opened = opening(name.as_str());
            let ended = run_opened(alloc, opened, console, writer, choice.stop);
            Outcome {
                ended,
                opening: None,
                input: Some(input),
            }
        }
        None => {
            let ended = answer(alloc, input, console, writer, choice.stop);
            Outcome {
                ended,
                opening: Some(opening),
                input: None,
            }
        }
    }
}

/// Runs the script that the words of a command line choose; the first word is the program's name. If the words name FILE, the script is that file,
/// opened by `opening`; else it is `input`. With `--stop` the run ends after the first reply that begins with `refused`, `fault` or `memory`.
/// `opening` can be called once. It is handed back if it was not called: if the words name no FILE, and if they give no choice. `input` is handed
/// back as it was given if it isn't the script. The script is answered in the console given, which is left with its session, or with the new one if
/// no script was run: it is the caller's to keep or to free.
///
/// `Trouble::Words` comes if the words are refused or ask for help or the version, `Trouble::Open` if `opening` gives nothing; then nothing is read
/// or written. `Trouble::Run` is the run's, or says that memory was refused while the words were read. Unless a write failed, all that was written
/// has been handed on at the end. What `input` and FILE may ask for before a read is what `run_in` has then written; no reader of std asks for
/// anything.
pub fn serve<
    R: Inlet<W> + Drop,
    F: Inlet<W> + Drop,
    O: FnOnce(&str) -> Option<F> + Drop,
    W: Outlet,
>(
    alloc: Global,
    words: &[String],
    input: R,
    opening: O,
    console: &mut Console,
    writer: &mut W,
) -> Outcome<R, O>
    requires callable { O.IsAlwaysCallable opening }
    requires start { IsNew console.old }
    requires asked { (stop : Bool) → AsksAnswers R.remaining R.asks input (W.contents writer.old) stop }
    requires files { OpensAsking (FnOnceReturnsAt O.FnOnce opening) F.remaining F.asks (W.contents writer.old) }
    ensures serves { Serves input opening (FnOnceReturnsAt O.FnOnce opening) F.remaining (R.remaining input) (W.contents writer.old) (W.contents writer.new) (map string_bytes words.now) result console.new }
    ensures reached { AllHandedOn (W.reached writer.new) (W.contents writer.new) result.ended }
{
    match read_words(alloc, words) {
        Ok(choice) => follow(alloc, &choice, input, opening, console, writer),
        Err(fault) => Outcome {
            ended: Err(Trouble::from(fault)),
            opening: Some(opening),
            input: Some(input),
        },
    }
}
