#![tactic(auto)]
//! Commands and calls as values: what `commands` makes of a session or a draft, and what `script_reader` reads in a line.
//!
//! # What is proved
//!
//! Nothing: these are types. What a call does is said by `Tells` of `commands`.

mod command;
mod points;

pub use command::{Call, Change, Command, Question};
pub use points::Points;
