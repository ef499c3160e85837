//! Walks round the loops of a face.
ghost use Rattle.std.specs.Prelude.{◌≡◌, ◌≤◌, true, map, Some, IfSome, IsSome};
ghost use Rattle.std.specs.List.{list_all};
ghost use Rattle.euler_operators.specs.Common.{IsInRange, IsPlane, IsVectorWithin, normal_limit, moved, cross, is_on, IsIn, code, items_of, content, cycle_of, has_half, point_of, tail};
ghost use Rattle.solid_walks.specs.Store.{has_number};
ghost use Rattle.solid_walks.specs.Ready.{IsReady};
ghost use Rattle.shapes.specs.Common.{start, finish, vertices_on};
ghost use Rattle.solid_measure.specs.Measure.{area, area_limit, read};
ghost use Rattle.solid_measure.specs.Frames.{IsWalked};
ghost use Rattle.solid_measure.specs.Short.{IsShortOf};

use crate::Vector;
use crate::short::{NOTHING, ShortPlane, Swept, carried, short_crossed, short_height, widened};
use euler_operators::{
    Content, HALF_EDGE_CODES, HalfEdge, Kind, Plane, Point, Sign, cross_add, side,
};
use solid_walks::{Arena, finish, items_round, next_code, start, start_of_code};

/// The vector plus the cross product of two points.
fn crossed(vector: Vector, p: Point, q: Point) -> Vector
    requires vector { IsVectorWithin normal_limit (read vector) }
    requires p { IsInRange p }
    requires q { IsInRange q }
    ensures { read result ≡ moved (read vector) (cross p q) }
{
    let [x, y, z] = cross_add([vector.x, vector.y, vector.z], p, q);
    Vector { x, y, z }
}

/// The vector plus the cross product of the points at which the half-edge starts and ends.
pub fn half_added(arena: &Arena, vector: Vector, h: HalfEdge) -> Vector
    requires ready { IsReady arena.now }
    requires there { has_half arena.now.model (code h) ≡ true }
    requires vector { IsVectorWithin normal_limit (read vector) }
    ensures { read result ≡ moved (read vector) (cross (start arena.now.model (code h)) (finish arena.now.model (code h))) }
{
    crossed(vector, start(arena, h), finish(arena, h))
}

/// What a walk round a loop finds.
#[derive(Drop)]
pub(crate) struct Round {
    /// A vector plus the cross products over the half-edges of the loop, in two parts.
    pub(crate) sum: Swept,
    /// The code of the loop's first item in the order of listings.
    pub(crate) least: u32,
}

/// Walks once round loop l, in which `first` stands, if it has at most `most` items: the vector plus the cross products over its half-edges, and its
/// first item. Each point is looked up once, since a half-edge ends where the next one starts.
#[inline(always)]
pub(crate) fn walk_within(
    arena: &Arena,
    vector: Vector,
    l: u32,
    first: HalfEdge,
    most: u32,
) -> Option<Round>
    requires ready { IsReady arena.now }
    requires vector { IsVectorWithin area_limit (read vector) }
    requires item { IsIn (code first) (items_of (content arena.now.model l)) }
    requires most { most ≤ 2000002 }
    ensures walked { IfSome result (IsWalked arena.now.model (read vector) l) }
    ensures all { most ≡ 2000002 → IsSome result }
{
    let begin = first.code();
    let mut swept = Swept {
        whole: vector,
        last: NOTHING,
    };
    let mut least = begin;
    let mut code = begin;
    let mut from = start_of_code(arena, begin);
    'round: for count in 0..most {
        let next = next_code(arena, code);
        let to = start_of_code(arena, next);
        let last = short_crossed(swept.last, from, to);
        let more = Swept {
            whole: swept.whole,
            last,
        };
        least = least.min(code);
        if next == begin {
            return Some(Round { sum: more, least });
        }
        swept = carried(more, count);
        code = next;
        from = to;
    }
    if most < HALF_EDGE_CODES {
        return None;
    }
    Some(Round { sum: swept, least })
}

/// The vector plus the cross products over the half-edges of the loop.
#[inline(never)]
#[tactic(auto, using(crate::proofs::Prelude::filled, crate::proofs::Prelude::ring_has))]
pub(crate) fn loop_added(arena: &Arena, vector: Vector, l: u32) -> Vector
    requires ready { IsReady arena.now }
    requires there { has_number arena.now Kind.Loop l ≡ true }
    requires vector { IsVectorWithin area_limit (read vector) }
    ensures { read result ≡ moved (read vector) (area arena.now.model (items_of (content arena.now.model l))) }
{
    match arena.content(l) {
        Content::Lone(_) => vector,
        Content::Ring(first) => match walk_within(arena, vector, l, first, HALF_EDGE_CODES) {
            Some(round) => widened(round.sum),
            None => unreachable!(),
        },
    }
}

/// Whether the point lies on the plane.
fn is_on(plane: Plane, p: Point) -> bool
    requires plane { IsPlane plane }
    requires p { IsInRange p }
    ensures { result ≡ is_on plane p }
{
    match side(plane, p) {
        Sign::On => true,
        Sign::Below | Sign::Above => false,
    }
}

/// Whether the point lies on the plane. `short` is the same plane in 64 bits, if it fits.
#[inline(always)]
fn lies_on(plane: Plane, short: Option<ShortPlane>, p: Point) -> bool
    requires plane { IsPlane plane }
    requires short { IsShortOf plane short }
    requires p { IsInRange p }
    ensures { result ≡ is_on plane p }
{
    match short {
        Some(short) => short_height(short, p) == 0,
        None => is_on(plane, p),
    }
}

/// Whether each half-edge of the loop in which `first` stands starts on the plane.
fn ring_lies_on(arena: &Arena, plane: Plane, short: Option<ShortPlane>, first: HalfEdge) -> bool
    requires ready { IsReady arena.now }
    requires plane { IsPlane plane }
    requires short { IsShortOf plane short }
    requires there { has_half arena.now.model (code first) ≡ true }
    ensures { result ≡ list_all (λ v. is_on plane (point_of arena.now.model v)) (map (tail arena.now.model) (cycle_of arena.now.model (code first))) }
{
    items_round(arena, first).all(|h| lies_on(plane, short, start(arena, h)))
}

/// Whether each vertex on the loop lies on the plane.
#[tactic(auto, using(crate::proofs::Prelude::filled))]
pub(crate) fn loop_lies_on(arena: &Arena, plane: Plane, short: Option<ShortPlane>, l: u32) -> bool
    requires ready { IsReady arena.now }
    requires there { has_number arena.now Kind.Loop l ≡ true }
    requires plane { IsPlane plane }
    requires short { IsShortOf plane short }
    ensures { result ≡ list_all (λ v. is_on plane (point_of arena.now.model v)) (vertices_on arena.now.model (content arena.now.model l)) }
{
    match arena.content(l) {
        Content::Lone(v) => lies_on(plane, short, arena.point(v)),
        Content::Ring(first) => ring_lies_on(arena, plane, short, first),
    }
}

/// Whether each half-edge of the loop in which `first` stands starts on the plane; `short` is this plane in 64 bits.
#[inline(always)]
fn short_ring_lies_on(arena: &Arena, plane: Plane, short: ShortPlane, first: HalfEdge) -> bool
    requires ready { IsReady arena.now }
    requires plane { IsPlane plane }
    requires short { IsShortOf plane (Some short) }
    requires there { has_half arena.now.model (code first) ≡ true }
    ensures { result ≡ list_all (λ v. is_on plane (point_of arena.now.model v)) (map (tail arena.now.model) (cycle_of arena.now.model (code first))) }
{
    items_round(arena, first).all(|h| lies_on(plane, Some(short), start(arena, h)))
}

/// Whether each vertex on the loop lies on the plane; `short` is this plane in 64 bits.
#[inline(always)]
#[tactic(auto, using(crate::proofs::Prelude::filled))]
pub(crate) fn short_loop_lies_on(arena: &Arena, plane: Plane, short: ShortPlane, l: u32) -> bool
    requires ready { IsReady arena.now }
    requires there { has_number arena.now Kind.Loop l ≡ true }
    requires plane { IsPlane plane }
    requires short { IsShortOf plane (Some short) }
    ensures { result ≡ list_all (λ v. is_on plane (point_of arena.now.model v)) (vertices_on arena.now.model (content arena.now.model l)) }
{
    match arena.content(l) {
        Content::Lone(v) => lies_on(plane, Some(short), arena.point(v)),
        Content::Ring(first) => short_ring_lies_on(arena, plane, short, first),
    }
}
