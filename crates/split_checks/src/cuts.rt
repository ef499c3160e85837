//! What a plane cuts of a solid.
use euler_operators::{HalfEdge, Point};

/// An edge that crosses the plane, and the point at which it meets the plane.
#[derive(Clone, Copy)]
pub struct CutEdge {
    pub edge: u32,
    pub point: Point,
}

/// The edges that cross a plane, rising, and in the same order each of them with the point at which it meets the plane.
#[derive(Clone, Copy)]
pub(crate) struct Crossings<'a> {
    pub edges: &'a [u32],
    pub cut: &'a [CutEdge],
}

/// A pair of cut places: the half-edges that name them or start at them, that of the up place and that of the down place.
#[derive(Clone, Copy)]
pub struct Pair {
    pub up: HalfEdge,
    pub down: HalfEdge,
}

/// A face that straddles the plane, and how many pairs its cut places make.
#[derive(Clone, Copy)]
pub struct PairedFace {
    pub face: u32,
    pub pairs: usize,
}

/// What a plane cuts of a solid: the edges that cross it, rising, each with the point at which it meets the plane; the faces that straddle it,
/// rising; and the pairs of their cut places, one face after the other. Each pair has its up place first, and the pairs of a face are in the order of
/// their points.
#[derive(Drop)]
pub struct Cuts {
    pub edges: Vec<CutEdge>,
    pub faces: Vec<PairedFace>,
    pub pairs: Vec<Pair>,
}
