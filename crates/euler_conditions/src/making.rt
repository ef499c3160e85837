#![tactic(auto, unfolding(euler_operators::specs::Conditions::conditions, euler_operators::specs::Conditions::first_false))]
//! The conditions of the operators that make an edge or a face.
ghost use Rattle.std.specs.Prelude.{◌≡◌};
ghost use Rattle.euler_operators.specs.Common.{first_false, verdict};
ghost use Rattle.euler_conditions.specs.Ready.{IsReady};

use crate::single::{fits, in_range};
use crate::{corners, faces, halves};
use euler_operators::{Corner, HalfEdge, Kind, Op, Point, Refusal, Why, refused};
use halfedge_arena::Arena;

/// Whether mvfs can be done: it makes a solid, its face, the outer loop and a vertex, at a point.
///
/// Refused, in this order: NumberRange; SolidTaken, FaceTaken, LoopTaken, VertexTaken with the number in use; PointRange with
/// the vertex.
#[inline(always)]
pub(crate) fn check_mvfs(
    arena: &Arena,
    solid: u32,
    face: u32,
    outer: u32,
    vertex: u32,
    point: Point,
) -> Result<(), Refusal>
    requires { IsReady arena.now }
    ensures { result ≡ verdict (first_false arena.now.model (Op.Mvfs solid face outer vertex point)) }
{
    in_range(&[solid, face, outer, vertex])?;
    if arena.has(Kind::Solid, solid) {
        return refused(Why::SolidTaken, solid);
    }
    if arena.has(Kind::Face, face) {
        return refused(Why::FaceTaken, face);
    }
    if arena.has(Kind::Loop, outer) {
        return refused(Why::LoopTaken, outer);
    }
    if arena.has(Kind::Vertex, vertex) {
        return refused(Why::VertexTaken, vertex);
    }
    if !fits(point) {
        return refused(Why::PointRange, vertex);
    }
    Ok(())
}

/// Whether mev can be done: from two corners of one vertex it makes an edge to a new vertex at a point.
///
/// Refused, in this order: NumberRange; NoEdge or NoLoop of each corner; NotLone of each corner; EdgeTaken; VertexTaken;
/// PointRange with the vertex; DifferentTails with the second corner's vertex. It walks over nothing.
#[inline(always)]
pub(crate) fn check_mev(
    arena: &Arena,
    from: Corner,
    to: Corner,
    made: HalfEdge,
    vertex: u32,
    point: Point,
) -> Result<(), Refusal>
    requires { IsReady arena.now }
    ensures { result ≡ verdict (first_false arena.now.model (Op.Mev from to made vertex point)) }
{
    in_range(&[
        corners::number(from),
        corners::number(to),
        made.edge,
        vertex,
    ])?;
    let (start, end) = corners::vertices(arena, from, to)?;
    if arena.has(Kind::Edge, made.edge) {
        return refused(Why::EdgeTaken, made.edge);
    }
    if arena.has(Kind::Vertex, vertex) {
        return refused(Why::VertexTaken, vertex);
    }
    if !fits(point) {
        return refused(Why::PointRange, vertex);
    }
    if start != end {
        return refused(Why::DifferentTails, end);
    }
    Ok(())
}

/// Whether mef can be done: it makes an edge between two corners of one loop, with a new face and its loop.
///
/// Refused, in this order: NumberRange; NoEdge of each corner; EdgeTaken; FaceTaken; LoopTaken; DifferentLoops with the second
/// corner's loop; SameTail with the vertex. It walks over nothing.
#[inline(always)]
pub(crate) fn check_mef(
    arena: &Arena,
    from: HalfEdge,
    to: HalfEdge,
    made: HalfEdge,
    face: u32,
    outer: u32,
) -> Result<(), Refusal>
    requires { IsReady arena.now }
    ensures { result ≡ verdict (first_false arena.now.model (Op.Mef from to made face outer)) }
{
    in_range(&[from.edge, to.edge, made.edge, face, outer])?;
    if !arena.has(Kind::Edge, from.edge) {
        return refused(Why::NoEdge, from.edge);
    }
    if !arena.has(Kind::Edge, to.edge) {
        return refused(Why::NoEdge, to.edge);
    }
    if arena.has(Kind::Edge, made.edge) {
        return refused(Why::EdgeTaken, made.edge);
    }
    if arena.has(Kind::Face, face) {
        return refused(Why::FaceTaken, face);
    }
    if arena.has(Kind::Loop, outer) {
        return refused(Why::LoopTaken, outer);
    }
    let cut = halves::loop_of(arena, to);
    if halves::loop_of(arena, from) != cut {
        return refused(Why::DifferentLoops, cut);
    }
    let tail = halves::tail(arena, from);
    if tail == halves::tail(arena, to) {
        return refused(Why::SameTail, tail);
    }
    Ok(())
}

/// Whether mekr can be done: it makes an edge from one loop of a face to a ring of that face.
///
/// Refused, in this order: NumberRange; NoEdge or NoLoop of each corner; NotLone of each corner; EdgeTaken; SameLoop;
/// DifferentFaces with the second corner's face; NotRing with its loop; SameTail with the vertex. It walks over nothing.
#[inline(always)]
pub(crate) fn check_mekr(
    arena: &Arena,
    from: Corner,
    to: Corner,
    made: HalfEdge,
) -> Result<(), Refusal>
    requires { IsReady arena.now }
    ensures { result ≡ verdict (first_false arena.now.model (Op.Mekr from to made)) }
{
    in_range(&[corners::number(from), corners::number(to), made.edge])?;
    let (start, end) = corners::vertices(arena, from, to)?;
    if arena.has(Kind::Edge, made.edge) {
        return refused(Why::EdgeTaken, made.edge);
    }
    let kept = corners::corner_loop(arena, from);
    let ring = corners::corner_loop(arena, to);
    if kept == ring {
        return refused(Why::SameLoop, ring);
    }
    let face = faces::face_of(arena, ring);
    if faces::face_of(arena, kept) != face {
        return refused(Why::DifferentFaces, face);
    }
    if !faces::is_ring(arena, ring) {
        return refused(Why::NotRing, ring);
    }
    if start == end {
        return refused(Why::SameTail, start);
    }
    Ok(())
}

/// Whether mfkrh can be done: it makes a ring the outer loop of a new face.
///
/// Refused, in this order: NumberRange; NoLoop; FaceTaken; NotRing. It walks over nothing.
#[inline(always)]
pub(crate) fn check_mfkrh(arena: &Arena, ring: u32, face: u32) -> Result<(), Refusal>
    requires { IsReady arena.now }
    ensures { result ≡ verdict (first_false arena.now.model (Op.Mfkrh ring face)) }
{
    in_range(&[ring, face])?;
    if !arena.has(Kind::Loop, ring) {
        return refused(Why::NoLoop, ring);
    }
    if arena.has(Kind::Face, face) {
        return refused(Why::FaceTaken, face);
    }
    if !faces::is_ring(arena, ring) {
        return refused(Why::NotRing, ring);
    }
    Ok(())
}
