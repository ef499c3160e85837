#![tactic(auto)]
//! The undo journal: a session of commands, each of which can be undone and redone without limit, and drafts of commands.
//!
//! A session holds one arena. Each command leaves a record: its operators, and those that take it back, but for those of either that the
//! others tell; of a block it is what was asked for, which tells them all. `undo` and `redo` replay these operators, and take no memory.
//!
//! # What is proved
//!
//! In its contracts a `Session` is the plain machine that keeps a whole copy of every model, together with the records of its commands:
//! `act`, `undo`, `redo`, `depth`, `ahead`, `arena`. What it holds is one arena and these records; the models that it stands for are
//! computed from them. A command leaves one record, undo and redo keep all records, and every number that a record makes has its room. A
//! refused command names the first false condition. After a refusal or refused memory nothing has changed, and the models ahead are kept;
//! an accepted command drops them. `undo` and `redo` are refused only at the ends. The plain machine has the models behind, the model held
//! and the models ahead; it is a list of copies with a place in it (`machines_are_copies`). After an accepted command, undo gives the model
//! before, and a redo after that the model after (`undo_gives_the_model_before`). `histories_are_consistent` is about the machine to which
//! any list of calls leads (operators, larger commands, drafts committed and abandoned, undo and redo, each accepted or refused): its first
//! model is the empty one, each model is sound, accepted operators make each next model, as many undos as can be made lead to the empty
//! model, and as many redos to the last one. `stays_consistent` says the same of any session that a caller is given. The operators
//! `forward` of `record(i)` take the model before command i to the model after it, and those of `back` lead the other way; each is accepted
//! in its turn. `Draft` makes its steps one command (`commit`, even if there are none) or takes them back (`abandon`, which keeps the
//! models ahead). A failed step changes nothing. `step_accepted` takes an operator that is known to be accepted, and fails only on refused
//! memory; `commit` and `abandon` always succeed.

mod blocks;
mod draft;
mod laws;
mod record;
mod rings;
mod session;
mod steps;
mod told;

pub use blocks::Block;
pub use draft::Draft;
pub use laws::{histories_are_consistent, machines_are_copies, undo_gives_the_model_before};
pub use record::{Listed, Record};
pub use session::{Failure, Session};
