#![tactic(auto)]
//! The workbench as a static library for C: a session or a draft behind a handle, lines that are answered, and readers of the model shown.
//!
//! `exports` has the calls that take and give text. `operators`, `larger`, `laminas`, `parts` and `queries` have those that are a command each,
//! `drafts` those that make operators one command, `recalls` those that give the last answer as values, and `reads` and `measures` those that read
//! the model shown. The contract of each says what the handle stands for before and after it; `session_slots` has what a call does to that. `told`
//! has the numbers that C is told, and `values` what an answer gives. The calls that `bindings/include/gwb.h` has for C hand on to these.
//!
//! # What is proved
//!
//! What each export does, in words of the plain machine: which machine or draft a handle stands for before and after, what comes back, and that for a
//! closed handle nothing happens but the answer that says so. The code in C that hands on to an export is no part of it. A typed call is told what
//! `commands` says that it may be told (`Does`): an operator or a larger command is a command of a session and steps of a draft (`Changes`, and
//! `Parts` if an operator's faces are listed), a draft that is committed is one command, and one that is abandoned leaves no trace. `gwb_line` does
//! what the typed call of the same command does (`Hears`); only after a question no numbers are fresh. `gwb_lent_reply` gives the text of its answer as
//! far as there is room, and its length. `gwb_lack` answers that memory was refused, and changes nothing else (`Lacks`). A call that the session or
//! draft doesn't have changes nothing (`Goes`). A query tells what the model shown gives (`Asks`), and writes what the reader of its answer writes
//! (`Tells`). The values of the last answer and the readers of the model shown are exact, except for where a loop's list of half-edges begins, and they
//! say if a value isn't there. A measure tells what the query is told, and keeps nothing (`Measures`). A reader (`gwb_lent_*`) takes a copy of the
//! handle and a share of the time for which its slot is lent, and gives both back, so readers may run at once.

mod calling;
mod drafts;
mod exports;
mod fresh;
mod laminas;
mod larger;
mod measures;
mod operators;
mod parts;
mod queries;
mod reads;
mod recalls;
mod told;
mod values;
mod version;

pub use fresh::Range;
pub use session_slots::{
    Counts, EdgeRow, FaceRow, Gwb, GwbLent, HalfEdgeRow, Place, PlaneRow, Refused, Wide,
};
