//! The conditions of a glue, in the order in which they are tested.
ghost use Rattle.std.specs.Prelude.{◌≡◌, true, false, None, IfOk, IfSome, OnErr};
ghost use Rattle.euler_operators.specs.Common.{content, outer, faces_of, first_refusal, has_rings, is_lone, verdict};
ghost use Rattle.euler_conditions.specs.Ready.{IsReady};
ghost use Rattle.euler_conditions.specs.Store.{has_number};
ghost use Rattle.shapes.specs.Common.{face_conditions, faces_are_flat, faces_of_both, glue_refusal, outline_conditions};
ghost use Rattle.gluing.specs.Flat.{IsClosedFlat};
ghost use Rattle.gluing.specs.glue_checks.Conditions.{early_refusal};

use crate::glue_checks::outlines::{backwards, has_repeats, is_rotation};
use crate::rims::outline;
use euler_conditions::Arena;
use euler_operators::{Kind, Refusal, Why, is_number, refused};
use solid_measure::{least_bent, least_bent_of_both, least_lone, least_lone_of_both};
use solid_walks::{check_left, counters_of};
use std::alloc::{AllocError, Global};

/// Whether face f has a ring.
#[tactic(auto, unfolding(euler_operators::specs::Conditions::has_rings))]
fn has_rings(arena: &Arena, f: u32) -> bool
    requires { has_number arena.now Kind.Face f ≡ true }
    ensures { result ≡ has_rings arena.now.model f }
{
    arena.ring_count(f) > 0
}

/// Whether the two faces are there, belong to different solids, and have no rings.
fn check_faces(arena: &Arena, f: u32, other: u32) -> Result<(), Refusal>
    requires { IsReady arena.now }
    ensures { result ≡ verdict (first_refusal (face_conditions arena.now.model f other)) }
{
    if !is_number(f) {
        return refused(Why::NumberRange, f);
    }
    if !is_number(other) {
        return refused(Why::NumberRange, other);
    }
    if !arena.has(Kind::Face, f) {
        return refused(Why::NoFace, f);
    }
    if !arena.has(Kind::Face, other) {
        return refused(Why::NoFace, other);
    }
    let solid = arena.solid_of(f);
    if solid == arena.solid_of(other) {
        return refused(Why::SameSolid, solid);
    }
    if has_rings(arena, f) {
        return refused(Why::HasRings, f);
    }
    if has_rings(arena, other) {
        return refused(Why::HasRings, other);
    }
    Ok(())
}

/// Whether a solid has no lone loop, and only flat faces.
fn check_solid(arena: &Arena, s: u32) -> Result<(), Refusal>
    requires { IsReady arena.now }
    ensures { result ≡ verdict (first_refusal (faces_are_flat arena.now.model (faces_of arena.now.model s))) }
{
    if let Some(lone) = least_lone(arena, s) {
        return refused(Why::LoneLoop, lone);
    }
    if let Some(bent) = least_bent(arena, s) {
        return refused(Why::NotFlat, bent);
    }
    Ok(())
}

/// Whether the two solids have no lone loop, and only flat faces.
fn check_both(arena: &Arena, s: u32, other: u32) -> Result<(), Refusal>
    requires { IsReady arena.now }
    ensures { result ≡ verdict (first_refusal (faces_are_flat arena.now.model (faces_of_both arena.now.model s other))) }
{
    if let Some(l) = least_lone_of_both(arena, s, other) {
        return refused(Why::LoneLoop, l);
    }
    if let Some(f) = least_bent_of_both(arena, s, other) {
        return refused(Why::NotFlat, f);
    }
    Ok(())
}

/// Whether the two solids have no lone loop, and only flat faces. It looks at no face of the solid that is known to be closed and flat.
fn check_solids(arena: &Arena, s: u32, other: u32, flat: Option<u32>) -> Result<(), Refusal>
    requires ready { IsReady arena.now }
    requires flat { IfSome flat (IsClosedFlat arena.now.model) }
    ensures { result ≡ verdict (first_refusal (faces_are_flat arena.now.model (faces_of_both arena.now.model s other))) }
{
    match flat {
        Some(known) if known == s => check_solid(arena, other),
        Some(known) if known == other => check_solid(arena, s),
        _ => check_both(arena, s, other),
    }
}

/// Whether no point stands twice in the outlines of the two faces, and the outlines lie on one another.
fn check_outlines(
    alloc: Global,
    arena: &Arena,
    f: u32,
    other: u32,
) -> Result<Result<(), Refusal>, AllocError>
    requires ready { IsReady arena.now }
    requires first_there { has_number arena.now Kind.Face f ≡ true }
    requires second_there { has_number arena.now Kind.Face other ≡ true }
    requires first_held { is_lone (content arena.now.model (outer arena.now.model f)) ≡ false }
    requires second_held { is_lone (content arena.now.model (outer arena.now.model other)) ≡ false }
    ensures { IfOk result (λ checked. checked ≡ verdict (first_refusal (outline_conditions arena.now.model f other))) }
{
    let points = outline(alloc, arena, f)?;
    if has_repeats(alloc, points.as_slice())? {
        return Ok(refused(Why::RepeatedPoint, f));
    }
    let others = outline(alloc, arena, other)?;
    if has_repeats(alloc, others.as_slice())? {
        return Ok(refused(Why::RepeatedPoint, other));
    }
    if !is_rotation(points.as_slice(), backwards(others).as_slice()) {
        return Ok(refused(Why::NoMatch, other));
    }
    Ok(Ok(()))
}

/// Whether the other face can be glued to face f.
///
/// Refused, in this order: NumberRange; NoFace; SameSolid with the solid; HasRings with the face; LoneLoop with the least lone loop of the
/// two solids; NotFlat with their least face that isn't flat; RepeatedPoint with the face, f before the other, that has two corners with
/// equal points; NoMatch with the other, where its points, read backwards, are no rotation of those of f; NumbersSpent with 4, where no
/// number is left for an edge.
///
/// It looks once at each face of the two solids, but at none of the solid that is known to be closed and flat, and takes n log n steps for n
/// corners of the two faces. If memory is refused, the answer is `AllocError`; none is asked for before the conditions up to NotFlat hold.
pub(crate) fn check_glue(
    alloc: Global,
    arena: &Arena,
    f: u32,
    other: u32,
    flat: Option<u32>,
) -> Result<Result<(), Refusal>, AllocError>
    requires ready { IsReady arena.now }
    requires flat { IfSome flat (IsClosedFlat arena.now.model) }
    ensures checked { IfOk result (λ checked. checked ≡ verdict (glue_refusal arena.now.model f other)) }
    ensures memory { OnErr result (early_refusal arena.now.model f other ≡ None) }
{
    let faces = check_faces(arena, f, other);
    if faces.is_err() {
        return Ok(faces);
    }
    let solids = check_solids(arena, arena.solid_of(f), arena.solid_of(other), flat);
    if solids.is_err() {
        return Ok(solids);
    }
    let outlines = check_outlines(alloc, arena, f, other)?;
    if outlines.is_err() {
        return Ok(outlines);
    }
    Ok(check_left(counters_of(arena), 0, 0, 1, 0))
}
