#![tactic(auto)]
//! The first two rewritings of a split, in a draft: edges that cross the plane are cut, and edges are drawn in the faces that straddle it.
//!
//! `edge_cutting` cuts the edges. `face_drawing` draws edges in one face, `solid_drawing` in all faces of a solid.
//!
//! # What is proved
//!
//! `cut_edges` takes a draft in whose model the first conditions of a split hold, and the edges that cross the plane there. It is Ok only
//! with exactly the model of the first rewriting, otherwise `AllocError`. `join_pairs` and `draw_pairs` take a draft in which the pairs of
//! a face fit. They are Ok only with exactly what the two passes of the second rewriting make, with the numbers taken and the first face
//! that can't be drawn, otherwise `AllocError`. `ring_free` comes between these two, and `move_rings`, whose operators have to be accepted,
//! after them. `draw_solid` takes a draft in whose model the first conditions of a split hold, and what the plane cuts there of the solid.
//! It is Ok only with exactly the model of the first two rewritings, with the numbers taken and the first face that can't be drawn,
//! otherwise `AllocError`. Each of these takes as steps exactly the operators that are written for it, for `draw_solid` those of both
//! rewritings (`rewriting_ops`). After `cut_edges` and `draw_solid` the session from which the draft came is kept either way. No operator
//! inside is ever refused.

mod edge_cutting;
mod face_drawing;
mod solid_drawing;

pub use solid_drawing::draw_solid;
pub use solid_walks::Counters;
pub use split_checks::{Cuts, Progress, Sides, check_begin, none_noted};
