//! Whether a cycle of a section is a hole.
ghost use Rattle.std.specs.Prelude.{◌≡◌, true, map};
ghost use Rattle.euler_operators.specs.Common.{IsInRange, IsCutPlane, IsVectorWithin, IsWithin, dot, IsApart, code, mate};
ghost use Rattle.euler_conditions.specs.Ready.{IsReady};
ghost use Rattle.split_checks.specs.Measure.{area, area_limit, read};
ghost use Rattle.shapes.specs.Common.{is_hole};
ghost use Rattle.split_sections.specs.section_cycles.Halves.{AreThere};

use crate::section_edges::direction;
use euler_conditions::Arena;
use euler_operators::{HalfEdge, Plane, Point, dot};
use split_checks::{Vector, half_added};

/// The sum of the cross products over the mates of these half-edges.
fn mates_area(arena: &Arena, halves: &[HalfEdge]) -> Vector
    requires ready { IsReady arena.now }
    requires there { AreThere arena.now.model (map code halves.now) }
    requires apart { IsApart (map code halves.now) }
    ensures is { read result ≡ area arena.now.model (map mate (map code halves.now)) }
    ensures within { IsVectorWithin area_limit (read result) }
{
    let mut area = Vector { x: 0, y: 0, z: 0 };
    let mut rest = halves;
    'halves: while let [half, others @ ..] = rest {
        area = half_added(arena, area, half.mate());
        rest = others;
    }
    area
}

/// The product of a sum of cross products with a direction, at most 3 * 10^34 in magnitude.
fn along(vector: Vector, to: Point) -> i128
    requires vector { IsVectorWithin area_limit (read vector) }
    requires to { IsInRange to }
    ensures is { result ≡ dot (read vector) to }
    ensures within { IsWithin 30000000000000000000000000000000000 result }
{
    dot([vector.x, vector.y, vector.z], to)
}

/// Whether a cycle of below halves is a hole: the normal of its cap below points against the plane's direction. It takes n steps for n
/// halves.
pub(crate) fn is_hole(arena: &Arena, plane: Plane, halves: &[HalfEdge]) -> bool
    requires ready { IsReady arena.now }
    requires plane { IsCutPlane plane }
    requires there { AreThere arena.now.model (map code halves.now) }
    requires apart { IsApart (map code halves.now) }
    ensures { result ≡ is_hole arena.now.model plane (map code halves.now) }
{
    along(mates_area(arena, halves), direction(plane)) < 0
}
