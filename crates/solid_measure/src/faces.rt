//! Normals and planes of faces that are there.
ghost use Rattle.std.specs.Prelude.{◌≡◌, ◌≤◌, true, not, Some, IfSome, IsSome};
ghost use Rattle.std.specs.List.{list_all};
ghost use Rattle.euler_operators.specs.Common.{IsInRange, IsPlane, IsVectorWithin, IsWithin, direction, dot, is_on, moved, origin, same_point, content, items_of, outer, point_of, rings_of};
ghost use Rattle.solid_walks.specs.Store.{has_number};
ghost use Rattle.solid_walks.specs.Ready.{IsReady};
ghost use Rattle.shapes.specs.Common.{corners, vertices_on};
ghost use Rattle.solid_measure.specs.Measure.{anchor, area, area_limit, is_flat, normal, plane_of, plane_through, read};
ghost use Rattle.solid_measure.specs.Frames.{IsFrame, IsOuterFrame};
ghost use Rattle.solid_measure.specs.Short.{IsShortOf};

use crate::Vector;
use crate::loops::{loop_added, loop_lies_on, short_loop_lies_on, walk_within};
use crate::short::{ShortPlane, short_plane, widened};
use euler_operators::{Content, HALF_EDGE_CODES, Kind, Plane, Point, dot};
use solid_walks::{Arena, loops_of, rings_of, start_of_code};

/// Where a face lies: the sum of the cross products over the half-edges of its loops, and the point of its first corner.
#[derive(Drop)]
pub(crate) struct Frame {
    pub(crate) normal: Vector,
    pub(crate) anchor: Point,
}

/// The cross products over the half-edges of the face's outer loop, and the point of its first corner: where the first item of that loop starts, or
/// the vertex of a lone loop. `None` if the loop has more than `most` items, or if it is lone and `most` doesn't stand for all.
#[inline(always)]
fn outer_frame(arena: &Arena, f: u32, most: u32) -> Option<Frame>
    requires ready { IsReady arena.now }
    requires there { has_number arena.now Kind.Face f ≡ true }
    requires most { most ≤ 2000002 }
    ensures frame { IfSome result (IsOuterFrame arena.now.model f) }
    ensures all { most ≡ 2000002 → IsSome result }
{
    let outer = arena.outer(f);
    let normal = Vector { x: 0, y: 0, z: 0 };
    match arena.content(outer) {
        Content::Lone(v) => {
            // so that a short face's normal is always a sum in 64 bits
            if most < HALF_EDGE_CODES {
                return None;
            }
            Some(Frame {
                normal,
                anchor: arena.point(v),
            })
        }
        Content::Ring(first) => match walk_within(arena, normal, outer, first, most) {
            Some(round) => Some(Frame {
                normal: widened(round.sum),
                anchor: start_of_code(arena, round.least),
            }),
            None => None,
        },
    }
}

/// The vector, which is the sum over the face's outer loop, plus the cross products over the half-edges of its rings.
#[inline(always)]
fn rings_added(arena: &Arena, vector: Vector, f: u32) -> Vector
    requires ready { IsReady arena.now }
    requires there { has_number arena.now Kind.Face f ≡ true }
    requires vector { read vector ≡ moved origin (area arena.now.model (items_of (content arena.now.model (outer arena.now.model f)))) }
    ensures is { read result ≡ normal arena.now.model f }
    ensures within { IsVectorWithin area_limit (read result) }
{
    let mut sum = vector;
    let mut last = 0;
    'rings: while let Some(ring) = arena.ring_after(f, last) {
        sum = loop_added(arena, sum, ring);
        last = ring;
    }
    sum
}

/// The face's normal, the sum of the cross products over the half-edges of its loops, and the point of its first corner: where the first item of its
/// outer loop starts, or the vertex of that loop if it is lone.
#[inline(always)]
pub(crate) fn frame_of(arena: &Arena, f: u32) -> Frame
    requires ready { IsReady arena.now }
    requires there { has_number arena.now Kind.Face f ≡ true }
    ensures { IsFrame arena.now.model f result }
{
    let Some(Frame { normal, anchor }) = outer_frame(arena, f, HALF_EDGE_CODES) else {
        unreachable!()
    };
    Frame {
        normal: rings_added(arena, normal, f),
        anchor,
    }
}

/// An outer loop with at most so many items has a sum that stays in 64 bits all the way.
const FEW: u32 = 4;

/// The normal and the anchor of a face that has no ring and few corners, summed in 64 bits. `None` for any other face.
#[inline(always)]
fn short_frame(arena: &Arena, f: u32) -> Option<Frame>
    requires ready { IsReady arena.now }
    requires there { has_number arena.now Kind.Face f ≡ true }
    ensures { IfSome result (IsFrame arena.now.model f) }
{
    match arena.ring_after(f, 0) {
        Some(_) => None,
        None => outer_frame(arena, f, FEW),
    }
}

/// The plane through a frame's anchor, across its normal.
#[inline(always)]
fn frame_plane(frame: Frame) -> Plane
    requires normal { IsVectorWithin area_limit (read frame.normal) }
    requires anchor { IsInRange frame.anchor }
    ensures is { result ≡ plane_through (read frame.normal) frame.anchor }
    ensures range { IsPlane result }
{
    let Frame { normal: n, anchor } = frame;
    let d = -dot([n.x, n.y, n.z], anchor);
    Plane {
        a: n.x,
        b: n.y,
        c: n.z,
        d,
    }
}

/// The plane of a face with any number of rings and corners. It is a function of its own, so that the code for a short face stays in place.
#[inline(never)]
#[tactic(auto, using(crate::proofs::Planes::plane_told))]
fn long_plane_of(arena: &Arena, f: u32) -> Plane
    requires ready { IsReady arena.now }
    requires there { has_number arena.now Kind.Face f ≡ true }
    ensures is { result ≡ plane_of arena.now.model f }
    ensures range { IsPlane result }
{
    frame_plane(frame_of(arena, f))
}

/// The plane through the face's anchor, across its normal.
#[inline(always)]
#[tactic(auto, using(crate::proofs::Planes::plane_told))]
pub(crate) fn plane_of(arena: &Arena, f: u32) -> Plane
    requires ready { IsReady arena.now }
    requires there { has_number arena.now Kind.Face f ≡ true }
    ensures is { result ≡ plane_of arena.now.model f }
    ensures range { IsPlane result }
{
    match short_frame(arena, f) {
        Some(frame) => frame_plane(frame),
        None => long_plane_of(arena, f),
    }
}

/// Whether each vertex on the loops of the face lies on the plane. `short` is the same plane in 64 bits, if it fits.
#[inline(never)]
fn loops_lie_on(arena: &Arena, plane: Plane, short: Option<ShortPlane>, f: u32) -> bool
    requires ready { IsReady arena.now }
    requires there { has_number arena.now Kind.Face f ≡ true }
    requires plane { IsPlane plane }
    requires short { IsShortOf plane short }
    ensures { result ≡ list_all (λ v. is_on plane (point_of arena.now.model v)) (corners arena.now.model f) }
{
    loops_of(arena, f).all(|l| loop_lies_on(arena, plane, short, l))
}

/// Whether each vertex on the rings of the face lies on the plane; `short` is this plane in 64 bits.
#[inline(never)]
fn rings_lie_on(arena: &Arena, plane: Plane, short: ShortPlane, f: u32) -> bool
    requires ready { IsReady arena.now }
    requires there { has_number arena.now Kind.Face f ≡ true }
    requires plane { IsPlane plane }
    requires short { IsShortOf plane (Some short) }
    ensures { result ≡ list_all (λ l. list_all (λ v. is_on plane (point_of arena.now.model v)) (vertices_on arena.now.model (content arena.now.model l))) (rings_of arena.now.model f) }
{
    rings_of(arena, f).all(|l| loop_lies_on(arena, plane, Some(short), l))
}

/// Whether each vertex on the loops of the face lies on the plane; `short` is this plane in 64 bits. A face with no ring takes one walk.
fn short_face_lies_on(arena: &Arena, plane: Plane, short: ShortPlane, f: u32) -> bool
    requires ready { IsReady arena.now }
    requires there { has_number arena.now Kind.Face f ≡ true }
    requires plane { IsPlane plane }
    requires short { IsShortOf plane (Some short) }
    ensures { result ≡ list_all (λ v. is_on plane (point_of arena.now.model v)) (corners arena.now.model f) }
{
    if !short_loop_lies_on(arena, plane, short, arena.outer(f)) {
        return false;
    }
    if arena.ring_count(f) > 0 {
        return rings_lie_on(arena, plane, short, f);
    }
    true
}

/// Whether each vertex on the loops of the face lies on the plane.
fn face_lies_on(arena: &Arena, plane: Plane, f: u32) -> bool
    requires ready { IsReady arena.now }
    requires there { has_number arena.now Kind.Face f ≡ true }
    requires plane { IsPlane plane }
    ensures { result ≡ list_all (λ v. is_on plane (point_of arena.now.model v)) (corners arena.now.model f) }
{
    match short_plane(plane) {
        Some(short) => short_face_lies_on(arena, plane, short, f),
        None => loops_lie_on(arena, plane, None, f),
    }
}

/// Whether one of the plane's first three numbers isn't zero.
fn has_direction(plane: Plane) -> bool
    ensures { result ≡ not (same_point (direction plane) origin) }
{
    !(plane.a == 0 && (plane.b == 0 && plane.c == 0))
}

/// Whether the face's normal isn't zero, and its plane goes through each vertex on its loops.
pub(crate) fn is_flat(arena: &Arena, f: u32) -> bool
    requires ready { IsReady arena.now }
    requires there { has_number arena.now Kind.Face f ≡ true }
    ensures { result ≡ is_flat arena.now.model f }
{
    let plane = plane_of(arena, f);
    has_direction(plane) && face_lies_on(arena, plane, f)
}

/// The product of a frame's anchor with its normal, at most 3 * 10^34 in magnitude.
#[inline(always)]
fn frame_volume(frame: Frame) -> i128
    requires normal { IsVectorWithin area_limit (read frame.normal) }
    requires anchor { IsInRange frame.anchor }
    ensures is { result ≡ dot frame.anchor (read frame.normal) }
    ensures within { IsWithin 30000000000000000000000000000000000 result }
{
    let Frame { normal: n, anchor } = frame;
    dot([n.x, n.y, n.z], anchor)
}

/// `volume_over` of a face with any number of rings and corners. It is a function of its own, so that the code for a short face stays in place.
#[inline(never)]
fn long_volume_over(arena: &Arena, f: u32) -> i128
    requires ready { IsReady arena.now }
    requires there { has_number arena.now Kind.Face f ≡ true }
    ensures is { result ≡ dot (anchor arena.now.model f) (normal arena.now.model f) }
    ensures within { IsWithin 30000000000000000000000000000000000 result }
{
    frame_volume(frame_of(arena, f))
}

/// The product of the face's anchor with its normal, at most 3 * 10^34 in magnitude.
pub(crate) fn volume_over(arena: &Arena, f: u32) -> i128
    requires ready { IsReady arena.now }
    requires there { has_number arena.now Kind.Face f ≡ true }
    ensures is { result ≡ dot (anchor arena.now.model f) (normal arena.now.model f) }
    ensures within { IsWithin 30000000000000000000000000000000000 result }
{
    match short_frame(arena, f) {
        Some(frame) => frame_volume(frame),
        None => long_volume_over(arena, f),
    }
}
