#![tactic(auto)]
//! The Geometric WorkBench: reads a script from a file or from standard input and answers each command on standard output.
//!
//! Statuses: 0 if each command was answered and none refused; 1 if some reply begins with `refused`, `fault` or `memory`; 2 if the command line was
//! refused; 3 if the script could not be opened, read or answered to its end, and then standard error has one line.
//!
//! # What is proved
//!
//! `main` has no contract, and is short, so that it can be read. The words of the process, its standard input, its files and its standard output go
//! to `serve`. What `serve` returns, clap's way to print and standard error go to `end`. What these two do with them is proved in `command_line`.

pub use command_line::{Outcome, Trouble, WordsFault, end, not_text, serve};
pub use script_running::{Console, RunFault, Summary};
use std::alloc::AllocError;
use std::fs::File;
use std::io::{BufWriter, ErrorKind};
use std::process::ExitCode;
use std::{env, mem};

/// The words of the command line.
fn given(rt: &HostRuntime) -> Result<Vec<String>, WordsFault> {
    match env::args(rt) {
        Ok(words) => words
            .collect(rt.alloc())
            .map_err(|_| WordsFault::Memory(AllocError)),
        Err(error) if error.kind() == ErrorKind::InvalidData => Err(WordsFault::Line(not_text(
            rt.alloc(),
        ))),
        Err(_) => Err(WordsFault::Memory(AllocError)),
    }
}

/// Runs the script that the command line chooses. Its session isn't freed node by node, since the process ends next and frees all.
fn begin(rt: &HostRuntime) -> Result<Summary, Trouble> {
    let words = given(rt)?;
    let Ok(mut writer) = BufWriter::new(rt.alloc(), rt.stdout()) else {
        return Err(Trouble::Run(RunFault::Memory));
    };
    let Ok(mut console) = Console::new(rt.alloc()) else {
        return Err(Trouble::Run(RunFault::Memory));
    };
    let open = |name: &str| File::open(rt, name).ok();
    let Outcome { ended, .. } = serve(
        rt.alloc(),
        words.as_slice(),
        rt.stdin(),
        open,
        &mut console,
        &mut writer,
    );
    mem::forget(console);
    ended
}

fn main(rt: HostRuntime) -> ExitCode {
    let print = |text: &clap::Error| text.print(&rt).is_ok();
    let tell = |line: &str| {
        if let Ok(line) = str::from_utf8(line.as_bytes()) {
            let _ = eprintln!(rt; "{line}");
        }
    };
    end(begin(&rt), print, tell).code
}
