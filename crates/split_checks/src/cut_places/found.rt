//! What a plane meets of faces and of a solid.

use euler_operators::HalfEdge;

/// What a walk over the corners of a face has met of a plane: whether a corner lies above it, whether one lies below, and whether one touches it,
/// that is, lies on it and is no cut place. Then the edges that cross it, each by its plus half-edge, and the cut places; both come after those of
/// the faces that were walked over before.
#[derive(Drop)]
pub(crate) struct Looked {
    pub above: bool,
    pub below: bool,
    pub touched: bool,
    pub edges: Vec<u32>,
    pub places: Vec<HalfEdge>,
}

/// A face that straddles the plane: whether a corner touches the plane, whether the face is cut too often, and how many cut places it has.
#[derive(Clone, Copy)]
pub(crate) struct FaceMet {
    pub face: u32,
    pub touched: bool,
    pub often: bool,
    pub places: usize,
}

/// What a plane meets of some faces: whether one has a corner above it, and whether one has a corner below; the faces that straddle it; the edges
/// that cross it; and the cut places of the faces that straddle it, one face after the other.
#[derive(Drop)]
pub(crate) struct Met {
    pub above: bool,
    pub below: bool,
    pub faces: Vec<FaceMet>,
    pub looked: Looked,
}
