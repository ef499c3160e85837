#![tactic(auto)]
//! Reads a script: its bytes as lines, and each line as what it asks for, which is mostly a command, or as a fault.
//!
//! Each function of `laws` does nothing: its contract is a law of the lines or of the grammar.
//!
//! # What is proved
//!
//! `read_line` is the grammar of the script, for every command word: a line is read as a command exactly if it spells that command, and each fault
//! has its cause, the first from the left. `Lines` gives the lines of the bytes read, in whatever pieces the reader gives them. A read that a signal
//! interrupts is tried again, at most 1,000,000 times in a row. Each read comes after all that was written was handed on, and if it is what the reader
//! asks for (`Inlet`).

mod buffer;
mod command;
mod laws;
mod line;
mod lines;
mod name;
mod numbers;
mod operators;
mod places;
mod polygon;
mod quick;
mod reading;
mod streams;
mod words;

pub use command::{Fault, Request};
pub use laws::{
    lines_and_words_are_parts, lines_come_in_order, reading_is_spelling, the_end_stays,
};
pub use line::{Opening, is_ascii, is_long, opening_of, read_line, read_words};
pub use lines::{Found, Lines};
pub use name::{Name, is_operator};
pub use operators::operator;
pub use places::Words;
pub use polygon::{Corners, Outline, Polygon};
pub use reading::arguments;
pub use streams::{Inlet, Outlet};
