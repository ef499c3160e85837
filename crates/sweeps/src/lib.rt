#![tactic(auto)]
//! Commands that make shapes: a lamina, a block, a sweep of a face. Each is one command of the journal. `lamina_measures`, `block_measures`
//! and `sweep_measures` say what they make of volumes.
//!
//! # What is proved
//!
//! `lamina`, `block` and `sweep` are Ok only if all conditions hold; then they are one command of the machine with exactly the written
//! model, and leave one record, that of the operators that are written for them. In a draft they take these operators as steps. They are
//! refused exactly if a condition is false, with the first such condition and its value. On any failure the session is as it was, and the
//! models ahead are kept. The models held before and after are sound. No operator inside is ever refused. `sweep_measures`,
//! `block_measures`, `lamina_measures`: the six volumes of each solid of the session after a command, from those before.

mod blocks;
mod corners;
mod laminas;
mod laws;
mod raising;
mod sweeping;

pub use blocks::{block, block_in};
pub use euler_laws::{
    effects_are_sound, euler_number_grows, inverses_undo, refusals_name_the_first_false,
    runs_are_undone,
};
pub use euler_operators::{Op, Point};
pub use laminas::{lamina, lamina_in};
pub use laws::{block_measures, lamina_measures, larger_commands_are_calls, sweep_measures};
pub use sweeping::{sweep, sweep_in};
pub use sweeps_laws::{operators_make_blocks, operators_make_lamina, sweeps_make_prisms};
pub use undo_journal::{
    Draft, Failure, Session, histories_are_consistent, machines_are_copies,
    undo_gives_the_model_before,
};
