#![tactic(auto)]
//! Running: a whole script answered, from the bytes of a reader to those of a writer.
//!
//! `script_judging` has a console, which hears a line or takes a call, and its answers; `running` answers the lines one after the other. `one_output`
//! does nothing: its contract is the law that a script has one output if no reply is `memory`. `laws_below` passes on the laws of the crates below.
//!
//! # What is proved
//!
//! A console's session or draft is asked for a call, or only that an answer be kept. It is told what `commands` says that a call may be told, keeps
//! the answer, and says its kind (`ConsoleHeeds`); a call that it doesn't have changes nothing. `hear` makes the call that a line spells, or keeps
//! the line's own answer (`spoken`). So a session answers a line as it may be told what the line asks for (`Judges`; `lines_are_judged`), and a
//! command as the call that gives it (`lines_are_told`). If the answer is something other than `ok`, the session is as it was, with its records.
//! `complains` is true exactly of the answers that begin with `refused`, `fault` or `memory`. `Summary` counts lines and answers (`count`), and is
//! clean (`is_clean`) exactly if it has none of these. `run` writes replies that the plain machine may give to the lines of the bytes read, in order,
//! and its `Summary` counts them, whatever comes after these bytes: all lines, or those up to the reply that stops it. If no reply stopped it, the
//! reader gave its end. If no reply is `memory`, what was written is `output_of` the lines, a function of the text of the script. After a read fault,
//! or if the script is too long, exactly the lines that came with their newlines are answered. After a write fault a prefix of the replies is out. If
//! the first memory was refused, nothing was read or written. Before each read the answers to all whole lines given so far are written and handed on:
//! a reader may ask for that (`AsksAnswers`). Unless a write failed, all is handed on when the run ends too (`HandsOn`). It returns for every reader.
//! `one_output`: if no reply is `memory`, the lines of a script have one output, and one summary.

mod laws;
pub mod laws_below;
mod running;
mod script_judging;
#[cfg(test)]
mod tests;

pub use laws::{
    lines_are_calls, lines_are_judged, lines_are_told, one_output, runs_tell_histories,
};
pub use running::{RunFault, run, run_in};
pub use script_judging::{
    Console, Summary, act, ask, hear, keep_outcome, make, measure, say, status,
};
pub use script_reader::{Inlet, Outlet};
