//! The steps from which the operators are made: an edge is made between two corners, or killed; a half-edge goes into a loop, or leaves
//! one; tails move round a vertex. None takes memory or fails, and each but the last costs the same in every model.
//!
//! Between two steps a store isn't sound, so each step asks only for what it needs.

mod corners;
mod edges;
mod halves;
mod tails;

pub(crate) use corners::{loop_at, tail_at};
pub(crate) use edges::{kill_edge, make_edge, make_edge_after};
pub(crate) use tails::move_tails;
