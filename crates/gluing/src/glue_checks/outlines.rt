//! Comparing lists of points: whether points are repeated, and whether a list is a rotation of another.
ghost use Rattle.std.specs.Prelude.{◌≡◌, ◌≤◌, ◌++◌, false, IfOk, drop, length, reverse, take};
ghost use Rattle.std.specs.List.{list_any};
ghost use Rattle.euler_operators.specs.Common.{same_point};
ghost use Rattle.shapes.specs.Common.{has_repeats, is_rotation, same_points};
ghost use Rattle.gluing.specs.glue_checks.Places.{place_from};

use euler_operators::Point;
use std::alloc::{AllocError, Global};
use std::collections::BTreeSet;

/// A point as a key of a set.
fn key_of(point: Point) -> (i64, i64, i64)
    ensures { result ≡ (point.x, point.y, point.z) }
{
    (point.x, point.y, point.z)
}

/// Whether two of the points are equal. Up to eight points are compared each with each; more take n log n steps for n points, and memory.
pub(crate) fn has_repeats(alloc: Global, points: &[Point]) -> Result<bool, AllocError>
    ensures { IfOk result (λ found. found ≡ has_repeats points.now) }
{
    if points.len() <= 8 {
        Ok(few_repeat(points))
    } else {
        many_repeat(alloc, points)
    }
}

/// Whether the point is one of some points.
#[tactic(auto, using(crate::proofs::glue_checks_laws::Points::some_place))]
fn is_among(point: Point, points: &[Point]) -> bool
    ensures { result ≡ list_any (same_point point) points.now }
{
    place_of(point, points).is_some()
}

/// Whether two of the points are equal. Each is compared with those after it.
fn few_repeat(points: &[Point]) -> bool
    ensures { result ≡ has_repeats points.now }
{
    let mut rest = points;
    'points: while let [point, others @ ..] = rest {
        if is_among(*point, others) {
            return true;
        }
        rest = others;
    }
    false
}

/// Whether two of the points are equal. It takes n log n steps for n points.
#[tactic(auto, using(crate::proofs::glue_checks_laws::Keys::none_in, crate::proofs::glue_checks_laws::Keys::first_met, crate::proofs::glue_checks_laws::Keys::is_met, crate::proofs::glue_checks_laws::Keys::was_met))]
fn many_repeat(alloc: Global, points: &[Point]) -> Result<bool, AllocError>
    ensures { IfOk result (λ found. found ≡ has_repeats points.now) }
{
    let mut met = BTreeSet::new(alloc);
    let mut rest = points;
    'points: while let [point, others @ ..] = rest {
        if !met.insert(key_of(*point))? {
            return Ok(true);
        }
        rest = others;
    }
    Ok(false)
}

/// The points in the opposite order.
pub(crate) fn backwards(points: Vec<Point>) -> Vec<Point>
    ensures { result.items ≡ reverse points.items }
{
    let mut turned = points;
    turned.reverse();
    turned
}

/// Whether two lists have equal points, place by place.
fn same_points(points: &[Point], others: &[Point]) -> bool
    ensures { result ≡ same_points points.now others.now }
{
    let mut left = points;
    let mut right = others;
    'points: while let [point, points @ ..] = left {
        let [other, others @ ..] = right else {
            return false;
        };
        if point != other {
            return false;
        }
        left = points;
        right = others;
    }
    right.is_empty()
}

/// The place of the first of the points that is equal to this one, if there is one.
fn place_of(point: Point, points: &[Point]) -> Option<usize>
    ensures { result ≡ place_from 0 point points.now }
{
    let mut place = 0;
    let mut rest = points;
    'points: while let [first, others @ ..] = rest {
        if *first == point {
            return Some(place);
        }
        place += 1;
        rest = others;
    }
    None
}

/// Whether the points are the others from this place to the end, and then those before it.
fn is_turn(points: &[Point], others: &[Point], place: usize) -> bool
    requires same_length { length points.now ≡ length others.now }
    requires inside { place ≤ length others.now }
    ensures { result ≡ same_points points.now (drop place others.now ++ take place others.now) }
{
    let turn = points.len() - place;
    same_points(&points[..turn], &others[place..]) && same_points(&points[turn..], &others[..place])
}

/// Whether the points are a rotation of the others, which are all different. It takes n steps for n points.
#[tactic(auto, using(crate::proofs::glue_checks_laws::Turns::turn_found, crate::proofs::glue_checks_laws::Turns::no_turn_found, crate::proofs::glue_checks_laws::Turns::other_length, crate::proofs::glue_checks_laws::Turns::turn_inside))]
pub(crate) fn is_rotation(points: &[Point], others: &[Point]) -> bool
    requires { has_repeats others.now ≡ false }
    ensures { result ≡ is_rotation points.now others.now }
{
    if points.len() != others.len() {
        return false;
    }
    let [first, ..] = points else {
        return true;
    };
    match place_of(*first, others) {
        Some(place) => is_turn(points, others, place),
        None => false,
    }
}
