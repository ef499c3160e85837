//! Cut places in the order of their points.
ghost use Rattle.std.specs.Prelude.{◌≡◌, true, false, map, IfOk, MatchOption};
ghost use Rattle.euler_operators.specs.Common.{code, IsCutPlane};
ghost use Rattle.euler_conditions.specs.Ready.{IsReady};
ghost use Rattle.split_checks.specs.Common.{AreSides, AreCrossings, ArePlacesAlong, entries_of};
ghost use Rattle.shapes.specs.Common.{some_meet, sorted};

use crate::cut_places::Sides;
use crate::cuts::Crossings;
use crate::place_order::points::{key_of, place_point};
use euler_conditions::Arena;
use euler_operators::{HalfEdge, Plane};
use std::alloc::{AllocError, Global};
use std::collections::BTreeMap;

/// For the point of each cut place, the half-edge that names the place.
pub(crate) type Places = BTreeMap<(i64, i64, i64), HalfEdge>;

/// Some cut places in the order of their points; none if two points are equal. It takes n log n steps for n places.
pub(crate) fn in_order(
    alloc: Global,
    arena: &Arena,
    plane: Plane,
    sides: &mut Sides,
    crossings: Crossings<'_>,
    places: &[HalfEdge],
) -> Result<Option<Places>, AllocError>
    requires ready { IsReady arena.now }
    requires plane { IsCutPlane plane }
    requires crossings { AreCrossings arena.now.model plane crossings.edges.now crossings.cut.now }
    requires sides { AreSides arena.now.model plane sides.old }
    requires whole { ArePlacesAlong arena.now.model plane crossings.edges.now (map code places.now) }
    ensures sides { AreSides arena.now.model plane sides.new }
    ensures order { IfOk result (λ found. MatchOption found (some_meet arena.now.model plane (map code places.now) ≡ true)
        (λ order. (some_meet arena.now.model plane (map code places.now) ≡ false) × (order.entries ≡ entries_of arena.now.model plane (sorted arena.now.model plane (map code places.now))))) }
{
    let mut rest = places;
    let mut order = BTreeMap::new(alloc);
    'places: while let [others @ .., h] = rest {
        let met = order.insert(key_of(place_point(arena, plane, sides, crossings, *h)), *h)?;
        if met.is_some() {
            return Ok(None);
        }
        rest = others;
    }
    Ok(Some(order))
}
