//! What C gives, as the kernel takes it: half-edges and corners by their codes, and the points of a polygon.
ghost use Rattle.std.specs.Prelude.{◌≡◌, ◌≤◌, cond, nat_eq, length};
ghost use Rattle.euler_operators.specs.Common.{half};
ghost use Rattle.script_reader.specs.Grammar.{plus};
ghost use Rattle.session_slots.specs.Arguments.{corner_of, point_of, polygon_of};

use crate::readers::Place;
use arrayvec::ArrayVec;
use euler_operators::{Corner, HalfEdge, Op, Point};

/// The first half-edge of a new edge.
pub fn plus(edge: u32) -> HalfEdge
    ensures { result ≡ plus edge }
{
    HalfEdge { edge, first: true }
}

/// The corner that C means: a number below 2^31 is the corner at the tail of a half-edge, a greater one that of a lone loop.
#[inline(always)]
pub fn corner(code: u32) -> Corner
    ensures { result ≡ corner_of code }
{
    if code < 2147483648 {
        Corner::At(HalfEdge::of_code(code))
    } else {
        Corner::Lone(code - 2147483648)
    }
}

/// The operator that kills the edge of a half-edge, and the vertex at its end.
#[inline(always)]
pub fn kev(half_edge: u32) -> Op
    ensures { result ≡ Op.Kev (half half_edge) }
{
    Op::Kev(HalfEdge::of_code(half_edge))
}

/// The operator that moves a ring to a face: as a ring of it if `out` is 0, else as its outer loop.
#[inline(always)]
pub fn ringmv(ring: u32, face: u32, out: u32) -> Op
    ensures { result ≡ cond (nat_eq out 0) (Op.RingIn ring face) (Op.RingOut ring face) }
{
    if out == 0 {
        Op::RingIn(ring, face)
    } else {
        Op::RingOut(ring, face)
    }
}

fn point_of(place: Place) -> Point
    ensures { result ≡ point_of place }
{
    let Place { x, y, z } = place;
    Point { x, y, z }
}

/// The points of a polygon, with their room.
pub fn polygon(places: &[Place]) -> ArrayVec<Point, 64>
    requires { length places.now ≤ 64 }
    ensures { result.items ≡ polygon_of places.now }
{
    let mut polygon = ArrayVec::new();
    let mut rest = places;
    'places: while let [first, others @ ..] = rest {
        polygon.push(point_of(*first));
        rest = others;
    }
    polygon
}
