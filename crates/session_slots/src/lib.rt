#![tactic(auto)]
//! Sessions and drafts in slots: a session or a draft of its next command, beside the answer to the last command and the greatest numbers
//! in use before it.
//!
//! `slot` has a console, as a script's run has one, with these numbers. `calls` has what an operator, a question and a line do to it, and which numbers
//! a call keeps; `parts` makes some faces a solid of their own. `answers` gives the last answer as values, `readers`, `cycles` and `spokes` read the model
//! shown. `handle` has a slot that C keeps by a pointer (`kept`, `loose`), and that is taken out of its handle for a call (`held`). `lent` has a copy
//! of a handle whose slot is lent to readers, any number of which may run at once. `arguments` has what C gives to a call, as the kernel takes it.
//!
//! # What is proved
//!
//! `act` makes an operator on a session or a draft, and `hear` the call that a line spells, or it answers the line by itself: each is told what
//! `commands` says that it may be told, and says the kind of that (`ConsoleHeeds`). So a session answers a line as the plain machine
//! may in a script (`script_running::lines_are_judged`). `ask` tells what the model shown gives, and changes only the last answer; `measure` changes
//! nothing. `part` does what the operator does (`part_asked`). The greatest numbers in use before a call are those of the model shown, and stay where
//! the session or draft doesn't have the call (`Notes`). What the last answer told, and what a reader tells, are equations, except for
//! where a loop's list of half-edges begins.

mod answers;
mod arguments;
mod calls;
mod cycles;
mod handle;
mod held;
mod kept;
mod lent;
mod loose;
mod parts;
mod readers;
mod slot;
mod spokes;

pub use answers::{
    Counts, PlaneRow, Refused, Wide, counts_of, fault_of, halves, plane_of, plane_row, refusal_of,
    volume_of,
};
pub use arguments::{corner, kev, plus, polygon, ringmv};
pub use calls::{act, ask, hear, lack, measure, note};
pub use commands::{Call, Change, Command, OpenDraft, Points, Question, Stage};
pub use cycles::{HalfEdgeRow, half_edge_rows, half_edges};
pub use handle::{Gwb, begin, put, take};
pub use held::Held;
pub use kept::Kept;
pub use lent::{GwbLent, Lent, Shown, hide, show};
pub use parts::part;
pub use readers::{
    EdgeRow, FaceRow, Place, edge, face, face_after, face_of_loop, first_half_edge, half_edge_loop,
    lone_vertex, next_half_edge, number_after, previous_half_edge, ring_after, vertex,
};
pub use slot::{Slot, copy_front, counted_in, staged, text_of};
pub use spokes::vertex_half_edge;
