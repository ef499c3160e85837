//! How the program ends.
ghost use Rattle.std.specs.Prelude.{◌≡◌, ◌⊎◌, option_map};
ghost use Rattle.std.specs.Fn.{FnOnceReturnsAt};
ghost use Rattle.std.specs.Process.{exit_status};
ghost use Rattle.clap.specs.Words.{kind_of};
ghost use Rattle.clap.specs.declared.error.kind.ErrorKind.TheVariants as kind;
ghost use Rattle.command_line.specs.Endings.{complaint, status, trouble_of, trouble_told, Ends, IsTold, Printed};

use crate::words::WordsFault;
use clap::error::ErrorKind;
use script_running::{RunFault, Summary};
use std::process::ExitCode;

/// Why the program ends before its script is answered.
#[derive(Debug, Drop)]
pub enum Trouble {
    /// The words of the command line were refused, or ask for help or the version.
    Words(clap::Error),
    /// The script could not be opened.
    Open,
    /// The run broke off, or the memory that it begins with was refused.
    Run(RunFault),
}

/// Why the program ends when the words gave no choice. If memory was refused, the words aren't to blame.
impl From<WordsFault> for Trouble {
    ghost from_gives = { λ fault trouble. trouble ≡ trouble_of fault };

    fn from(fault: WordsFault) -> Trouble {
        match fault {
            WordsFault::Line(error) => match error.kind() {
                ErrorKind::OutOfMemory => Trouble::Run(RunFault::Memory),
                _ => Trouble::Words(error),
            },
            WordsFault::Memory(_) => Trouble::Run(RunFault::Memory),
        }
    }
}

impl Trouble {
    /// Why the program ends after clap's text: if help or the version can't be written, this is a write fault.
    pub fn told(error: clap::Error, is_printed: bool) -> Trouble
        ensures { result ≡ trouble_told error is_printed }
    {
        match error.kind() {
            ErrorKind::DisplayHelp | ErrorKind::DisplayVersion if !is_printed => Trouble::Run(
                RunFault::Write,
            ),
            _ => Trouble::Words(error),
        }
    }
}

/// The line on standard error that says why the program ends before its script is answered. There is none if clap's text says it already.
pub fn complaint(ended: &Result<Summary, Trouble>) -> Option<&'static str>
    ensures { option_map (λ line. line.now) result ≡ complaint ended.now }
{
    match ended {
        Ok(_) | Err(Trouble::Words(_)) => None,
        Err(Trouble::Open) => Some("gwb: cannot open the script"),
        Err(Trouble::Run(RunFault::Read)) => Some("gwb: read fault"),
        Err(Trouble::Run(RunFault::Write)) => Some("gwb: write fault"),
        Err(Trouble::Run(RunFault::TooLong)) => Some("gwb: script too long"),
        Err(Trouble::Run(RunFault::Memory)) => Some("gwb: out of memory"),
    }
}

/// The exit status: after a whole run 0, or 1 if a reply begins with `refused`, `fault` or `memory`; 0 if help or the version was asked for, 2 if the
/// words were refused, and else 3.
pub fn status_of(ended: &Result<Summary, Trouble>) -> u8
    ensures { result ≡ status ended.now }
{
    match ended {
        Ok(summary) if summary.is_clean() => 0,
        Ok(_) => 1,
        Err(Trouble::Words(error)) if error.use_stderr() => 2,
        Err(Trouble::Words(_)) => 0,
        Err(Trouble::Open | Trouble::Run(_)) => 3,
    }
}

/// Prints clap's text if there is one, and gives the ending that follows. If there is none, `print` is handed back.
fn printed<P: FnOnce(&clap::Error) -> bool + Drop>(
    ended: Result<Summary, Trouble>,
    print: P,
) -> (Result<Summary, Trouble>, Option<P>)
    requires { P.IsAlwaysCallable print }
    ensures { Printed print (FnOnceReturnsAt P.FnOnce print) ended result.0 result.1 }
{
    match ended {
        Err(Trouble::Words(error)) => {
            let is_printed = print(&error);
            (Err(Trouble::told(error, is_printed)), None)
        }
        ended => (ended, Some(print)),
    }
}

/// Tells the complaint if there is one. If there is none, `tell` is handed back.
fn complain<T: FnOnce(&str) + Drop>(ended: &Result<Summary, Trouble>, tell: T) -> Option<T>
    requires { T.IsAlwaysCallable tell }
    ensures { IsTold tell (λ line. FnOnceReturnsAt T.FnOnce tell line tt) (complaint ended.now) result }
{
    match complaint(ended) {
        Some(line) => {
            tell(line);
            None
        }
        None => Some(tell),
    }
}

/// How the program ended. `print` and `tell` can be called once each, and are handed back if they were not called.
#[derive(Drop)]
pub struct Ended<P, T> {
    /// The exit code.
    pub code: ExitCode,
    /// What prints clap's text, if nothing was printed.
    pub print: Option<P>,
    /// What tells standard error, if nothing was told.
    pub tell: Option<T>,
}

/// Ends the program. `print` prints clap's text and says whether all of it was written; `tell` puts a line on standard error.
/// Help that could not be written is a write fault. Standard error is told one line at most, and none after a whole run.
pub fn end<P: FnOnce(&clap::Error) -> bool + Drop, T: FnOnce(&str) + Drop>(
    ended: Result<Summary, Trouble>,
    print: P,
    tell: T,
) -> Ended<P, T>
    requires print { P.IsAlwaysCallable print }
    requires tell { T.IsAlwaysCallable tell }
    ensures { Ends print (FnOnceReturnsAt P.FnOnce print) tell (λ line. FnOnceReturnsAt T.FnOnce tell line tt) ended result }
{
    let (ended, print) = printed(ended, print);
    let tell = complain(&ended, tell);
    Ended {
        code: ExitCode::from(status_of(&ended)),
        print,
        tell,
    }
}
