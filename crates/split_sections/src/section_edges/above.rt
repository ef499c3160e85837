//! The faces above a plane, and the half-edges beside them that may be of its section.
ghost use Rattle.std.specs.Prelude.{◌≡◌, pos, int_lt, true, map, IfOk};
ghost use Rattle.euler_conditions.specs.Ready.{IsReady};
ghost use Rattle.euler_conditions.specs.Store.{has_number};
ghost use Rattle.euler_operators.specs.Common.{IsInRange, IsCutPlane, SameItems, code, direction, dot};
ghost use Rattle.split_checks.specs.Measure.{normal};
ghost use Rattle.split_checks.specs.cut_places.Noted.{AreSides};
ghost use Rattle.shapes.specs.Common.{face_is_above, faces_above};
ghost use Rattle.split_sections.specs.section_edges.LowMates.{mates_met};

use crate::section_edges::halves::push_mates;
use euler_conditions::Arena;
use euler_operators::{HalfEdge, Kind, Plane, Point, Sign, dot};
use split_checks::{Sides, face_side, normal};
use std::alloc::{AllocError, Global};

/// The direction in which the plane has its above side, as a point in range.
pub(crate) fn direction(plane: Plane) -> Point
    requires { IsCutPlane plane }
    ensures is { result ≡ direction plane }
    ensures range { IsInRange result }
{
    Point {
        x: plane.a as i64,
        y: plane.b as i64,
        z: plane.c as i64,
    }
}

/// Whether the normal of face f points along the plane's direction.
fn points_along(arena: &Arena, plane: Plane, f: u32) -> bool
    requires ready { IsReady arena.now }
    requires there { has_number arena.now Kind.Face f ≡ true }
    requires plane { IsCutPlane plane }
    ensures { result ≡ int_lt (pos 0) (dot (normal arena.now.model f) (direction plane)) }
{
    match normal(arena, f) {
        Ok(across) => dot(across, direction(plane)) > 0,
        Err(_) => unreachable!(),
    }
}

/// Whether face f is above the plane: it has a corner above the plane, or lies wholly on it with a normal that doesn't point along the
/// plane's direction.
#[tactic(auto, unfolding(shapes::specs::split::Sides::face_is_above))]
fn is_above(arena: &Arena, plane: Plane, sides: &mut Sides, f: u32) -> bool
    requires ready { IsReady arena.now }
    requires there { has_number arena.now Kind.Face f ≡ true }
    requires plane { IsCutPlane plane }
    requires sides { AreSides arena.now.model plane sides.old }
    ensures is { result ≡ face_is_above arena.now.model plane f }
    ensures sides { AreSides arena.now.model plane sides.new }
{
    match face_side(arena, plane, sides, f) {
        Sign::Below => false,
        Sign::On => !points_along(arena, plane, f),
        Sign::Above => true,
    }
}

/// The faces of a solid above a plane, and the mates of their half-edges that neither start nor end above it.
#[derive(Drop)]
pub(crate) struct Looked {
    pub above: Vec<u32>,
    pub mates: Vec<HalfEdge>,
}

/// For how many faces above there is room at first, and for twice as many mates.
const AT_FIRST: usize = 8;

/// The faces of solid s that are above the plane, in rising order: those with a corner above it, and those that lie wholly on it and whose
/// normal doesn't point along the plane's direction. With them come the mates of their half-edges that neither start nor end above the plane.
/// An edge of the section has no end above the plane, since a face beside it isn't above; so its half in that face is one of these mates. It
/// walks at most three times over the corners of each face.
pub(crate) fn look_at_faces(
    alloc: Global,
    arena: &Arena,
    plane: Plane,
    sides: &mut Sides,
    s: u32,
) -> Result<Looked, AllocError>
    requires ready { IsReady arena.now }
    requires plane { IsCutPlane plane }
    requires sides { AreSides arena.now.model plane sides.old }
    ensures above { IfOk result (λ looked. looked.above.items ≡ faces_above arena.now.model plane s) }
    ensures mates { IfOk result (λ looked. SameItems (map code looked.mates.items) (mates_met arena.now.model plane (faces_above arena.now.model plane s))) }
    ensures sides { AreSides arena.now.model plane sides.new }
{
    let mut above = Vec::with_capacity(alloc, AT_FIRST)?;
    let mut mates = Vec::with_capacity(alloc, 2 * AT_FIRST)?;
    let mut last = 0;
    'faces: while let Some(f) = arena.face_after(s, last) {
        if is_above(arena, plane, sides, f) {
            above.push(f)?;
            push_mates(arena, plane, sides, f, &mut mates)?;
        }
        last = f;
    }
    Ok(Looked { above, mates })
}
