#![tactic(auto)]
//! The words of a boundary model: half-edges, corners and kinds of numbers. Its definitions stand in specs/:
//! tables, the model of solids, faces, loops, edges and vertices, and when a model is sound.
//!
//! # What is proved
//!
//! Of half-edges: `mate`, `code` and `of_code`, and `plus` and `minus`, which are the two half-edges of an edge. A corner is packed as it is. The
//! model and its soundness are definitions.

ghost use Rattle.std.specs.Prelude.{◌≡◌, ◌≤◌};
ghost use Rattle.boundary_model.specs.HalfEdge as half_edge;
ghost use Rattle.boundary_model.specs.HalfEdge.{code, half, mate};
ghost use Rattle.boundary_model.specs.Model.{is_number};

mod packed;

pub use lattice::{
    COORDINATE_LIMIT, PackedPoint, Plane, Point, Sign, cross_add, cut_point, dot, lex_cmp,
    point_in_range, side, sum, sum_in_range,
};
pub use packed::PackedCorner;

/// The greatest number that a solid, a face, a loop, an edge or a vertex can have.
pub const NUMBER_LIMIT: u32 = 1_000_000;

/// More than the codes of half-edges, and so more than the half-edges of a model.
pub const HALF_EDGE_CODES: u32 = 2 * NUMBER_LIMIT + 2;

/// Whether the number lies from 1 to the limit of numbers.
pub fn is_number(number: u32) -> bool
    ensures { result ≡ is_number number }
{
    1 <= number && number <= NUMBER_LIMIT
}

/// One of the two directions of an edge; `first` is the one that a script writes with a plus.
#[derive(Clone, Copy, Debug, PartialEq, Eq)]
pub struct HalfEdge {
    pub edge: u32,
    pub first: bool,
}

impl HalfEdge {
    /// The first half-edge of an edge.
    pub fn plus(edge: u32) -> HalfEdge
        ensures { result ≡ half (half_edge.plus edge) }
    {
        HalfEdge { edge, first: true }
    }

    /// The second half-edge of an edge.
    pub fn minus(edge: u32) -> HalfEdge
        ensures { result ≡ half (half_edge.minus edge) }
    {
        HalfEdge { edge, first: false }
    }

    /// The same edge in the opposite direction.
    pub fn mate(self) -> HalfEdge
        ensures { code result ≡ mate (code self) }
    {
        HalfEdge {
            edge: self.edge,
            first: !self.first,
        }
    }

    /// The half-edge's place in the order of listings, which is by edge number, and plus before minus.
    #[tactic(auto, unfolding(crate::specs::HalfEdge::code))]
    pub fn code(self) -> u32
        requires { self.edge ≤ 1000000 }
        ensures { result ≡ code self }
    {
        if self.first {
            2 * self.edge
        } else {
            2 * self.edge + 1
        }
    }

    /// The half-edge at a place of that order.
    #[tactic(auto, unfolding(crate::specs::HalfEdge::half))]
    pub fn of_code(code: u32) -> HalfEdge
        ensures { result ≡ half code }
    {
        HalfEdge {
            edge: code / 2,
            first: code % 2 == 0,
        }
    }
}

/// A corner that an operator takes: the one at the tail of a half-edge, or the one corner of a lone loop.
#[derive(Clone, Copy, Debug, PartialEq, Eq)]
pub enum Corner {
    At(HalfEdge),
    Lone(u32),
}

/// The kinds of things that have numbers, each kind with a range of numbers of its own.
#[derive(Clone, Copy, Debug, PartialEq, Eq)]
pub enum Kind {
    Solid,
    Face,
    Loop,
    Edge,
    Vertex,
}

/// What a loop holds: the vertex of a lone loop, or one of the loop's half-edges.
#[derive(Clone, Copy, Debug, PartialEq, Eq)]
pub enum Content {
    Lone(u32),
    Ring(HalfEdge),
}
