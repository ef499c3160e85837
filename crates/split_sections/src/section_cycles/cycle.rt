//! A cycle of a section.

use euler_operators::HalfEdge;

/// A cycle of section edges: their halves in the faces below, each of which starts where the one before it ends, and whether the cycle is a
/// hole.
#[derive(Drop)]
pub struct Cycle {
    pub halves: Vec<HalfEdge>,
    pub hole: bool,
}
