//! Parts of the second rewriting of a split, operator by operator in a draft: edges are drawn between the cut places of a face.

mod drawing;
mod joining;
mod pairs;
mod rings;

pub(crate) use drawing::{draw_pair, draw_pairs};
pub(crate) use joining::join_pairs;
pub(crate) use rings::{move_rings, ring_free};
