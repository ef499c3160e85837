//! The sides of a plane on which vertices lie, noted so that they needn't be computed again.
ghost use Rattle.std.specs.Prelude.{◌≡◌, true};
ghost use Rattle.euler_operators.specs.Common.{code, Model, has_half, point_of, IsCutPlane, height, sign_of, Plane};
ghost use Rattle.euler_conditions.specs.Ready.{IsReady};
ghost use Rattle.euler_conditions.specs.Store.{has_number};
ghost use Rattle.shapes.specs.Common.{start};
ghost use Rattle.split_checks.specs.cut_places.Noted.{AreSides};

use crate::cut_places::planes::side_of;
use euler_conditions::Arena;
use euler_operators::{HalfEdge, Kind, Plane, Sign};

/// How many sides are noted at most.
const PLACES: u32 = 32;

/// A vertex and its side; if the number is 0, nothing is noted.
#[derive(Clone, Copy)]
pub struct Noted {
    pub vertex: u32,
    pub side: Sign,
}

/// The sides of vertices, each at the place that is its number modulo 32. If several vertices share a place, the last one asked for stands there. So
/// the sides of up to 32 numbers in a row are each computed once. The noted number tells which vertex stands at a place.
#[derive(Drop)]
pub struct Sides {
    pub noted: [Noted; 32],
}

/// No side is noted.
pub fn none_noted() -> Sides
    ensures { (M : Model) (p : Plane) → AreSides M p result }
{
    let none = Noted {
        vertex: 0,
        side: Sign::Below,
    };
    Sides { noted: [none; 32] }
}

/// On which side of the plane vertex v lies. If this isn't noted, it is computed, and then noted.
#[inline(always)]
pub(crate) fn vertex_side(arena: &Arena, plane: Plane, sides: &mut Sides, v: u32) -> Sign
    requires ready { IsReady arena.now }
    requires there { has_number arena.now Kind.Vertex v ≡ true }
    requires plane { IsCutPlane plane }
    requires sides { AreSides arena.now.model plane sides.old }
    ensures is { result ≡ sign_of (height plane (point_of arena.now.model v)) }
    ensures sides { AreSides arena.now.model plane sides.new }
{
    let place = (v % PLACES) as usize;
    let noted = sides.noted[place];
    if noted.vertex == v {
        return noted.side;
    }
    let side = side_of(plane, arena.point(v));
    sides.noted[place] = Noted { vertex: v, side };
    side
}

/// On which side of the plane the half-edge starts. If this isn't noted, it is computed, and then noted.
#[inline(always)]
pub fn start_side(arena: &Arena, plane: Plane, sides: &mut Sides, h: HalfEdge) -> Sign
    requires ready { IsReady arena.now }
    requires there { has_half arena.now.model (code h) ≡ true }
    requires plane { IsCutPlane plane }
    requires sides { AreSides arena.now.model plane sides.old }
    ensures is { result ≡ sign_of (height plane (start arena.now.model (code h))) }
    ensures sides { AreSides arena.now.model plane sides.new }
{
    vertex_side(arena, plane, sides, arena.tail(h))
}

/// The same for the half-edge of a code.
#[inline(always)]
pub(crate) fn side_of_code(arena: &Arena, plane: Plane, sides: &mut Sides, code: u32) -> Sign
    requires ready { IsReady arena.now }
    requires there { has_half arena.now.model code ≡ true }
    requires plane { IsCutPlane plane }
    requires sides { AreSides arena.now.model plane sides.old }
    ensures is { result ≡ sign_of (height plane (start arena.now.model code)) }
    ensures sides { AreSides arena.now.model plane sides.new }
{
    start_side(arena, plane, sides, HalfEdge::of_code(code))
}
