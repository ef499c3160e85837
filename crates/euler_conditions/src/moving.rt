#![tactic(auto, unfolding(euler_operators::specs::Conditions::conditions, euler_operators::specs::Conditions::first_false))]
//! The conditions of the operators that move rings and faces.
ghost use Rattle.std.specs.Prelude.{◌≡◌};
ghost use Rattle.euler_operators.specs.Common.{first_false, first_refusal, ring_and_face, verdict};
ghost use Rattle.euler_conditions.specs.Ready.{IsReady};

use crate::faces;
use crate::single::in_range;
use euler_operators::{Kind, Op, Refusal, Why, refused};
use halfedge_arena::Arena;

/// What is asked of a ring, and of a face of the ring's solid.
fn ring_and_face(arena: &Arena, ring: u32, face: u32) -> Result<(), Refusal>
    requires { IsReady arena.now }
    ensures { result ≡ verdict (first_refusal (ring_and_face arena.now.model ring face)) }
{
    in_range(&[ring, face])?;
    if !arena.has(Kind::Loop, ring) {
        return refused(Why::NoLoop, ring);
    }
    if !arena.has(Kind::Face, face) {
        return refused(Why::NoFace, face);
    }
    let solid = arena.solid_of(face);
    if arena.solid_of(faces::face_of(arena, ring)) != solid {
        return refused(Why::DifferentSolids, solid);
    }
    if !faces::is_ring(arena, ring) {
        return refused(Why::NotRing, ring);
    }
    Ok(())
}

/// Whether a ring can become a ring of another face of its solid.
///
/// Refused, in this order: NumberRange; NoLoop; NoFace; DifferentSolids with the face's solid; NotRing; SameFace. It walks over
/// nothing.
#[inline(always)]
pub(crate) fn check_ring_in(arena: &Arena, ring: u32, face: u32) -> Result<(), Refusal>
    requires { IsReady arena.now }
    ensures { result ≡ verdict (first_false arena.now.model (Op.RingIn ring face)) }
{
    ring_and_face(arena, ring, face)?;
    if faces::face_of(arena, ring) == face {
        return refused(Why::SameFace, face);
    }
    Ok(())
}

/// Whether a ring can become the outer loop of a face of its solid, whose outer loop becomes a ring of that face.
///
/// Refused, in this order: NumberRange; NoLoop; NoFace; DifferentSolids with the face's solid; NotRing. It walks over nothing.
#[inline(always)]
pub(crate) fn check_ring_out(arena: &Arena, ring: u32, face: u32) -> Result<(), Refusal>
    requires { IsReady arena.now }
    ensures { result ≡ verdict (first_false arena.now.model (Op.RingOut ring face)) }
{
    ring_and_face(arena, ring, face)
}

/// Whether a ring can become the outer loop of its face, whose outer loop becomes a ring of a face of the solid.
///
/// Refused, in this order: NumberRange; NoLoop; NoFace; DifferentSolids with the face's solid; NotRing. It walks over nothing.
#[inline(always)]
pub(crate) fn check_outer(arena: &Arena, ring: u32, face: u32) -> Result<(), Refusal>
    requires { IsReady arena.now }
    ensures { result ≡ verdict (first_false arena.now.model (Op.Outer ring face)) }
{
    ring_and_face(arena, ring, face)
}

/// Whether all faces of one solid can go to another.
///
/// Refused, in this order: NumberRange; NoSolid of the kept solid, then of the other; SameSolid. It walks over nothing.
#[inline(always)]
pub(crate) fn check_merge(arena: &Arena, kept: u32, gone: u32) -> Result<(), Refusal>
    requires { IsReady arena.now }
    ensures { result ≡ verdict (first_false arena.now.model (Op.Merge kept gone)) }
{
    in_range(&[kept, gone])?;
    if !arena.has(Kind::Solid, kept) {
        return refused(Why::NoSolid, kept);
    }
    if !arena.has(Kind::Solid, gone) {
        return refused(Why::NoSolid, gone);
    }
    if kept == gone {
        return refused(Why::SameSolid, kept);
    }
    Ok(())
}
