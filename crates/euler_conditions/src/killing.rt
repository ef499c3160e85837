#![tactic(auto, unfolding(euler_operators::specs::Conditions::conditions, euler_operators::specs::Conditions::first_false))]
//! The conditions of the operators that kill an edge or a face.
ghost use Rattle.std.specs.Prelude.{◌≡◌, true};
ghost use Rattle.euler_operators.specs.Common.{bare_face, first_false, verdict, faces_of};
ghost use Rattle.halfedge_arena.specs.Store.{has_number};
ghost use Rattle.euler_conditions.specs.Ready.{IsReady};

use crate::single::in_range;
use crate::{corners, ends, faces, halves};
use euler_operators::{HalfEdge, Kind, Op, Refusal, Why, refused};
use halfedge_arena::Arena;

/// Whether the solid has one face, which has no ring and whose outer loop has no edge.
#[tactic(auto, using(crate::proofs::Solids::only_face_there), unfolding(euler_operators::specs::Conditions::has_rings))]
fn is_bare(arena: &Arena, solid: u32) -> bool
    requires ready { IsReady arena.now }
    requires there { has_number arena.now Kind.Solid solid ≡ true }
    ensures { result ≡ bare_face arena.now.model (faces_of arena.now.model solid) }
{
    match arena.only_face(solid) {
        Some(face) => !faces::has_rings(arena, face) && corners::is_lone(arena, arena.outer(face)),
        None => false,
    }
}

/// Whether kvfs can be done: it kills a solid of one vertex.
///
/// Refused, in this order: NumberRange; NoSolid; NotBare, where the solid has more than one face, a ring or an edge. It walks
/// over nothing.
#[inline(always)]
pub(crate) fn check_kvfs(arena: &Arena, solid: u32) -> Result<(), Refusal>
    requires { IsReady arena.now }
    ensures { result ≡ verdict (first_false arena.now.model (Op.Kvfs solid)) }
{
    in_range(&[solid])?;
    if !arena.has(Kind::Solid, solid) {
        return refused(Why::NoSolid, solid);
    }
    if !is_bare(arena, solid) {
        return refused(Why::NotBare, solid);
    }
    Ok(())
}

/// Whether kev can be done: it kills an edge with the vertex at its far end.
///
/// Refused, in this order: NumberRange; NoEdge; ParallelEdge with the least other edge of the same two ends; KeptEndBare with
/// the kept vertex, where only this edge leaves it and others leave the killed one. It walks once round the kept vertex.
#[inline(always)]
pub(crate) fn check_kev(arena: &Arena, gone: HalfEdge) -> Result<(), Refusal>
    requires { IsReady arena.now }
    ensures { result ≡ verdict (first_false arena.now.model (Op.Kev gone)) }
{
    in_range(&[gone.edge])?;
    if !arena.has(Kind::Edge, gone.edge) {
        return refused(Why::NoEdge, gone.edge);
    }
    let other = ends::parallel(arena, gone);
    if other != 0 {
        return refused(Why::ParallelEdge, other);
    }
    if ends::kept_end_bare(arena, gone) {
        return refused(Why::KeptEndBare, halves::tail(arena, gone));
    }
    Ok(())
}

/// Whether kef can be done: it kills an edge with the face on the other side.
///
/// Refused, in this order: NumberRange; NoEdge; SameFace; HasRings with the face that would go. It walks over nothing.
#[inline(always)]
pub(crate) fn check_kef(arena: &Arena, gone: HalfEdge) -> Result<(), Refusal>
    requires { IsReady arena.now }
    ensures { result ≡ verdict (first_false arena.now.model (Op.Kef gone)) }
{
    in_range(&[gone.edge])?;
    if !arena.has(Kind::Edge, gone.edge) {
        return refused(Why::NoEdge, gone.edge);
    }
    let kept = halves::face_at(arena, gone);
    let killed = halves::face_at(arena, halves::mate(gone));
    if kept == killed {
        return refused(Why::SameFace, kept);
    }
    if faces::has_rings(arena, killed) {
        return refused(Why::HasRings, killed);
    }
    Ok(())
}

/// Whether kemr can be done: it kills an edge, whose loop falls into a loop and a new ring.
///
/// Refused, in this order: NumberRange; NoEdge; LoopTaken; DifferentLoops with the loop of the other half. It walks over
/// nothing.
#[inline(always)]
pub(crate) fn check_kemr(arena: &Arena, gone: HalfEdge, ring: u32) -> Result<(), Refusal>
    requires { IsReady arena.now }
    ensures { result ≡ verdict (first_false arena.now.model (Op.Kemr gone ring)) }
{
    in_range(&[gone.edge, ring])?;
    if !arena.has(Kind::Edge, gone.edge) {
        return refused(Why::NoEdge, gone.edge);
    }
    if arena.has(Kind::Loop, ring) {
        return refused(Why::LoopTaken, ring);
    }
    let cut = halves::loop_of(arena, halves::mate(gone));
    if halves::loop_of(arena, gone) != cut {
        return refused(Why::DifferentLoops, cut);
    }
    Ok(())
}

/// Whether kfmrh can be done: it kills a face, whose outer loop becomes a ring of another face of the solid.
///
/// Refused, in this order: NumberRange; NoFace of the kept face, then of the killed one; SameFace; DifferentSolids with the
/// killed face's solid; HasRings with the killed face. It walks over nothing.
#[inline(always)]
pub(crate) fn check_kfmrh(arena: &Arena, kept: u32, killed: u32) -> Result<(), Refusal>
    requires { IsReady arena.now }
    ensures { result ≡ verdict (first_false arena.now.model (Op.Kfmrh kept killed)) }
{
    in_range(&[kept, killed])?;
    if !arena.has(Kind::Face, kept) {
        return refused(Why::NoFace, kept);
    }
    if !arena.has(Kind::Face, killed) {
        return refused(Why::NoFace, killed);
    }
    if kept == killed {
        return refused(Why::SameFace, kept);
    }
    let solid = arena.solid_of(killed);
    if arena.solid_of(kept) != solid {
        return refused(Why::DifferentSolids, solid);
    }
    if faces::has_rings(arena, killed) {
        return refused(Why::HasRings, killed);
    }
    Ok(())
}
