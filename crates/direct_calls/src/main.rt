#![tactic(auto)]
//! Calls of the kernel that no script reaches. Each is made once, and its answer is printed.
//!
//! `rings` links codes by the raw rings, `arenas` copies an arena, `sessions` goes on after a large lamina, `steps` glues by the steps of a
//! draft. With one word, `lamina`, `act`, `draft` or `copy`, the program makes a lamina of 64 points and then does only what the word says,
//! so that a caller who counts allocations or refuses one sees what that call asks for. With `committed` or `abandoned` it takes the steps
//! of a glue.

mod arenas;
mod rings;
mod sessions;
mod steps;

use std::alloc::Global;
use std::env;
use std::process::ExitCode;

/// The answer of a call whose memory was refused.
const MEMORY: &str = "memory";

/// The one word of the command line, if there is exactly one and it could be read.
fn word(rt: &HostRuntime) -> Option<String> {
    let words: Vec<String> = env::args(rt).ok()?.collect(rt.alloc()).ok()?;
    match words.as_slice() {
        [_, word] => word.clone().ok(),
        _ => None,
    }
}

/// What every call answers, a line each.
fn tell_all(rt: &HostRuntime) {
    rings::tell(rt);
    arenas::tell(rt);
    sessions::tell(rt);
}

/// What the calls answer that a word names.
fn tell(rt: &HostRuntime, word: &str) {
    match word {
        "committed" => steps::tell_glue(rt, true),
        "abandoned" => steps::tell_glue(rt, false),
        _ => {
            let _ = println!(rt; "{}", sessions::after_a_lamina(rt.alloc(), word));
        }
    }
}

fn main(rt: HostRuntime) -> ExitCode {
    match word(&rt) {
        Some(word) => tell(&rt, word.as_str()),
        None => tell_all(&rt),
    }
    ExitCode::SUCCESS
}
