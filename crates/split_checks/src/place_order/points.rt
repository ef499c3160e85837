//! The points of cut places.
ghost use Rattle.std.specs.Prelude.{◌≡◌};
ghost use Rattle.euler_operators.specs.Common.{code, IsCutPlane};
ghost use Rattle.euler_conditions.specs.Ready.{IsReady};
ghost use Rattle.split_checks.specs.Common.{AreSides, AreCrossings, IsPlaceAlong, key};
ghost use Rattle.shapes.specs.Common.{place_point};

use crate::cut_places::{Sides, same, start_side};
use crate::cuts::Crossings;
use euler_conditions::Arena;
use euler_operators::{HalfEdge, Plane, Point, Sign};
use solid_measure::start;

/// The point of a cut place, whose edge is among the crossings or which starts on the plane.
#[inline(always)]
pub(crate) fn place_point(
    arena: &Arena,
    plane: Plane,
    sides: &mut Sides,
    crossings: Crossings<'_>,
    h: HalfEdge,
) -> Point
    requires ready { IsReady arena.now }
    requires plane { IsCutPlane plane }
    requires crossings { AreCrossings arena.now.model plane crossings.edges.now crossings.cut.now }
    requires sides { AreSides arena.now.model plane sides.old }
    requires place { IsPlaceAlong arena.now.model plane crossings.edges.now (code h) }
    ensures is { result ≡ place_point arena.now.model plane (code h) }
    ensures sides { AreSides arena.now.model plane sides.new }
{
    if same(start_side(arena, plane, sides, h), Sign::On) {
        return start(arena, h);
    }
    match crossings.edges.binary_search(&h.edge) {
        Ok(i) => crossings.cut[i].point,
        Err(_) => unreachable!(),
    }
}

/// A point as a key of a map.
pub(crate) fn key_of(point: Point) -> (i64, i64, i64)
    ensures { result ≡ key point }
{
    (point.x, point.y, point.z)
}
