//! The pairs of the cut places of one face.
ghost use Rattle.std.specs.Prelude.{◌≡◌, ◌||◌, ◌∷◌, ◌++◌, [], true, not, is_none, is_some, map, Ok, IfOk, IfSome};
ghost use Rattle.std.specs.List.{list_all};
ghost use Rattle.euler_operators.specs.Common.{code, has_half, IsCutPlane, same_point};
ghost use Rattle.euler_conditions.specs.Ready.{IsReady};
ghost use Rattle.shapes.specs.Common.{in_pairs, is_up_and_down, place_point, sorted, up_first};
ghost use Rattle.split_checks.specs.Common.{codes, AreSides, AreThere, AreCrossings, ArePlacesAlong, IsPlaceAlong, are_crossed, places_of};

use crate::cut_places::{Sides, goes_up};
use crate::cuts::{Crossings, Pair};
use crate::place_order::{Places, in_order, place_point};
use euler_conditions::Arena;
use euler_operators::{HalfEdge, Plane};
use std::alloc::{AllocError, Global};

/// Two cut places as a pair, if one is up and the other down.
#[inline(always)]
fn up_and_down(
    arena: &Arena,
    plane: Plane,
    sides: &mut Sides,
    first: HalfEdge,
    second: HalfEdge,
) -> Option<Pair>
    requires ready { IsReady arena.now }
    requires first { has_half arena.now.model (code first) ≡ true }
    requires second { has_half arena.now.model (code second) ≡ true }
    requires plane { IsCutPlane plane }
    requires sides { AreSides arena.now.model plane sides.old }
    ensures sides { AreSides arena.now.model plane sides.new }
    ensures differ { is_some result ≡ is_up_and_down arena.now.model plane (code first, code second) }
    ensures pair { IfSome result (λ pair. codes pair ≡ up_first arena.now.model plane (code first, code second)) }
{
    match (
        goes_up(arena, plane, sides, first),
        goes_up(arena, plane, sides, second),
    ) {
        (true, false) => Some(Pair {
            up: first,
            down: second,
        }),
        (false, true) => Some(Pair {
            up: second,
            down: first,
        }),
        _ => None,
    }
}

/// The pair of a face's only two cut places, whose order needn't be known; none if they have equal points or aren't one up and one down.
fn only_pair(
    arena: &Arena,
    plane: Plane,
    sides: &mut Sides,
    crossings: Crossings<'_>,
    first: HalfEdge,
    second: HalfEdge,
) -> Option<Pair>
    requires ready { IsReady arena.now }
    requires plane { IsCutPlane plane }
    requires crossings { AreCrossings arena.now.model plane crossings.edges.now crossings.cut.now }
    requires sides { AreSides arena.now.model plane sides.old }
    requires first { IsPlaceAlong arena.now.model plane crossings.edges.now (code first) }
    requires second { IsPlaceAlong arena.now.model plane crossings.edges.now (code second) }
    ensures sides { AreSides arena.now.model plane sides.new }
    ensures crossed { is_none result ≡ same_point (place_point arena.now.model plane (code first)) (place_point arena.now.model plane (code second)) || not (is_up_and_down arena.now.model plane (code first, code second)) }
    ensures pair { IfSome result (λ pair. codes pair ∷ [] ≡ map (up_first arena.now.model plane) (in_pairs (sorted arena.now.model plane (code first ∷ code second ∷ [])))) }
{
    let met = place_point(arena, plane, sides, crossings, first);
    if met == place_point(arena, plane, sides, crossings, second) {
        return None;
    }
    up_and_down(arena, plane, sides, first, second)
}

/// Adds the pair of a face's only two cut places, if they make one. It tells whether they do.
fn push_only_pair(
    arena: &Arena,
    plane: Plane,
    sides: &mut Sides,
    crossings: Crossings<'_>,
    first: HalfEdge,
    second: HalfEdge,
    pairs: &mut Vec<Pair>,
) -> Result<bool, AllocError>
    requires ready { IsReady arena.now }
    requires plane { IsCutPlane plane }
    requires crossings { AreCrossings arena.now.model plane crossings.edges.now crossings.cut.now }
    requires sides { AreSides arena.now.model plane sides.old }
    requires first { IsPlaceAlong arena.now.model plane crossings.edges.now (code first) }
    requires second { IsPlaceAlong arena.now.model plane crossings.edges.now (code second) }
    ensures sides { AreSides arena.now.model plane sides.new }
    ensures crossed { IfOk result (λ paired. not paired ≡ same_point (place_point arena.now.model plane (code first)) (place_point arena.now.model plane (code second)) || not (is_up_and_down arena.now.model plane (code first, code second))) }
    ensures pairs { (result ≡ Ok true) → (map codes pairs.new.items ≡ map codes pairs.old.items ++ map (up_first arena.now.model plane) (in_pairs (sorted arena.now.model plane (code first ∷ code second ∷ [])))) }
{
    let Some(pair) = only_pair(arena, plane, sides, crossings, first, second) else {
        return Ok(false);
    };
    pairs.push(pair)?;
    Ok(true)
}

/// Adds places two by two, in their order, each pair with its up place first. It tells whether each pair is one up and one down.
fn push_in_order(
    arena: &Arena,
    plane: Plane,
    sides: &mut Sides,
    order: Places,
    pairs: &mut Vec<Pair>,
) -> Result<bool, AllocError>
    requires ready { IsReady arena.now }
    requires plane { IsCutPlane plane }
    requires sides { AreSides arena.now.model plane sides.old }
    requires there { AreThere arena.now.model (places_of order.entries) }
    ensures sides { AreSides arena.now.model plane sides.new }
    ensures crossed { IfOk result (λ paired. not paired ≡ not (list_all (is_up_and_down arena.now.model plane) (in_pairs (places_of order.entries)))) }
    ensures pairs { (result ≡ Ok true) → (map codes pairs.new.items ≡ map codes pairs.old.items ++ map (up_first arena.now.model plane) (in_pairs (places_of order.entries))) }
{
    let mut left = order;
    'pairs: while let Some((_, first)) = left.pop_first() {
        let Some((_, second)) = left.pop_first() else {
            return Ok(true);
        };
        let Some(pair) = up_and_down(arena, plane, sides, first, second) else {
            return Ok(false);
        };
        pairs.push(pair)?;
    }
    Ok(true)
}

/// Adds the pairs of the cut places of a face, each with its up place first, in the order of their points. It tells whether they make pairs: no two
/// places have equal points, and each pair is one up and one down. If there are only two places, their points are compared, but not put in order.
pub(crate) fn push_pairs(
    alloc: Global,
    arena: &Arena,
    plane: Plane,
    sides: &mut Sides,
    crossings: Crossings<'_>,
    places: &[HalfEdge],
    pairs: &mut Vec<Pair>,
) -> Result<bool, AllocError>
    requires ready { IsReady arena.now }
    requires plane { IsCutPlane plane }
    requires crossings { AreCrossings arena.now.model plane crossings.edges.now crossings.cut.now }
    requires sides { AreSides arena.now.model plane sides.old }
    requires whole { ArePlacesAlong arena.now.model plane crossings.edges.now (map code places.now) }
    ensures sides { AreSides arena.now.model plane sides.new }
    ensures crossed { IfOk result (λ paired. not paired ≡ are_crossed arena.now.model plane (map code places.now)) }
    ensures pairs { (result ≡ Ok true) → (map codes pairs.new.items ≡ map codes pairs.old.items ++ map (up_first arena.now.model plane) (in_pairs (sorted arena.now.model plane (map code places.now)))) }
{
    if let [first, second] = places {
        return push_only_pair(arena, plane, sides, crossings, *first, *second, pairs);
    }
    match in_order(alloc, arena, plane, sides, crossings, places)? {
        Some(order) => push_in_order(arena, plane, sides, order, pairs),
        None => Ok(false),
    }
}
