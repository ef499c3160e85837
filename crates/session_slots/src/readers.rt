//! The model held, read without text.
ghost use Rattle.std.specs.Prelude.{◌≡◌, true};
ghost use Rattle.euler_operators.specs.Common.{code, edge_of, content, after, before, loop_of};
ghost use Rattle.euler_conditions.specs.Store.{has_number, IsNextNumber};
ghost use Rattle.euler_conditions.specs.Ready.{IsReady};
ghost use Rattle.session_slots.specs.Reading.{face_in, edge_in, ends_of, point_in, face_of_loop_in, lone_of, lone_in, after_in, before_in, loop_in, IsRingAfter, IsFaceAfter, IsItemOf, IsFirst, kind_of, store_of, IsNumberAfter};

use euler_conditions::{Arena, loop_of, next};
use euler_operators::{Content, HalfEdge, Kind, Point};
use solid_walks::previous_code;

/// The solid of a face, and its outer loop.
#[repr(C)]
#[derive(Clone, Copy)]
pub struct FaceRow {
    pub solid: u32,
    pub outer_loop: u32,
}

/// The vertices at which an edge's first and second half-edge start.
#[repr(C)]
#[derive(Clone, Copy)]
pub struct EdgeRow {
    pub from: u32,
    pub to: u32,
}

/// The coordinates of a vertex.
#[repr(C)]
#[derive(Clone, Copy)]
pub struct Place {
    pub x: i64,
    pub y: i64,
    pub z: i64,
}

/// A face's solid and outer loop.
pub fn face(arena: &Arena, face: u32) -> Option<FaceRow>
    ensures { result ≡ face_in face arena.now.model }
{
    if !arena.has(Kind::Face, face) {
        return None;
    }
    Some(FaceRow {
        solid: arena.solid_of(face),
        outer_loop: arena.outer(face),
    })
}

/// The face of a loop.
pub fn face_of_loop(arena: &Arena, l: u32) -> Option<u32>
    ensures { result ≡ face_of_loop_in l arena.now.model }
{
    if !arena.has(Kind::Loop, l) {
        return None;
    }
    Some(arena.face_of(l))
}

/// The vertices of an edge that is there.
pub(crate) fn ends(arena: &Arena, e: u32) -> EdgeRow
    requires { has_number arena.now Kind.Edge e ≡ true }
    ensures { result ≡ ends_of arena.now.model e }
{
    let first = HalfEdge {
        edge: e,
        first: true,
    };
    EdgeRow {
        from: arena.tail(first),
        to: arena.tail(first.mate()),
    }
}

/// The vertices of an edge.
pub fn edge(arena: &Arena, edge: u32) -> Option<EdgeRow>
    ensures { result ≡ edge_in edge arena.now.model }
{
    if !arena.has(Kind::Edge, edge) {
        return None;
    }
    Some(ends(arena, edge))
}

/// The vertex of a loop that is there, if the loop is lone.
fn lone_at(arena: &Arena, l: u32) -> Option<u32>
    requires ready { IsReady arena.now }
    requires there { has_number arena.now Kind.Loop l ≡ true }
    ensures { result ≡ lone_of (content arena.now.model l) }
{
    match arena.content(l) {
        Content::Lone(v) => Some(v),
        Content::Ring(_) => None,
    }
}

/// The vertex of a lone loop.
pub fn lone_vertex(arena: &Arena, l: u32) -> Option<u32>
    requires { IsReady arena.now }
    ensures { result ≡ lone_in l arena.now.model }
{
    if !arena.has(Kind::Loop, l) {
        return None;
    }
    lone_at(arena, l)
}

/// A half-edge of a loop that is there, if it has any.
fn item_at(arena: &Arena, l: u32) -> Option<u32>
    requires ready { IsReady arena.now }
    requires there { has_number arena.now Kind.Loop l ≡ true }
    ensures { IsItemOf (content arena.now.model l) result }
{
    match arena.content(l) {
        Content::Lone(_) => None,
        Content::Ring(half) => Some(half.code()),
    }
}

/// A half-edge of a loop.
pub fn first_half_edge(arena: &Arena, l: u32) -> Option<u32>
    requires { IsReady arena.now }
    ensures { IsFirst l arena.now.model result }
{
    if !arena.has(Kind::Loop, l) {
        return None;
    }
    item_at(arena, l)
}

/// The code of the item after a half-edge whose edge is there.
fn code_after(arena: &Arena, half: HalfEdge) -> u32
    requires ready { IsReady arena.now }
    requires there { has_number arena.now Kind.Edge half.edge ≡ true }
    ensures { result ≡ after arena.now.model (code half) }
{
    next(arena, half).code()
}

/// The half-edge of a code.
fn half_of(item: u32) -> HalfEdge
    ensures edge { result.edge ≡ edge_of item }
    ensures code { code result ≡ item }
{
    HalfEdge::of_code(item)
}

/// The half-edge after another in its loop.
pub fn next_half_edge(arena: &Arena, item: u32) -> Option<u32>
    requires { IsReady arena.now }
    ensures { result ≡ after_in item arena.now.model }
{
    let half = half_of(item);
    if !arena.has(Kind::Edge, half.edge) {
        return None;
    }
    Some(code_after(arena, half))
}

/// The loop of a half-edge whose edge is there.
fn loop_at(arena: &Arena, half: HalfEdge) -> u32
    requires ready { IsReady arena.now }
    requires there { has_number arena.now Kind.Edge half.edge ≡ true }
    ensures { result ≡ loop_of arena.now.model (code half) }
{
    loop_of(arena, half)
}

/// The loop in which a half-edge stands.
pub fn half_edge_loop(arena: &Arena, item: u32) -> Option<u32>
    requires { IsReady arena.now }
    ensures { result ≡ loop_in item arena.now.model }
{
    let half = half_of(item);
    if !arena.has(Kind::Edge, half.edge) {
        return None;
    }
    Some(loop_at(arena, half))
}

/// The half-edge before another in its loop.
pub fn previous_half_edge(arena: &Arena, item: u32) -> Option<u32>
    requires { IsReady arena.now }
    ensures { result ≡ before_in item arena.now.model }
{
    let half = half_of(item);
    if !arena.has(Kind::Edge, half.edge) {
        return None;
    }
    Some(previous_code(arena, item))
}

/// The least ring of a face above the one given.
pub fn ring_after(arena: &Arena, face: u32, last: u32) -> Option<u32>
    ensures { IsRingAfter face last arena.now.model result }
{
    if !arena.has(Kind::Face, face) {
        return None;
    }
    arena.ring_after(face, last)
}

/// The least face of a solid above the one given.
pub fn face_after(arena: &Arena, solid: u32, last: u32) -> Option<u32>
    ensures { IsFaceAfter solid last arena.now.model result }
{
    arena.face_after(solid, last)
}

/// The kind that C means by a number.
fn kind_of(entity: u32) -> Option<Kind>
    ensures { result ≡ kind_of entity }
{
    match entity {
        0 => Some(Kind::Solid),
        1 => Some(Kind::Face),
        2 => Some(Kind::Loop),
        3 => Some(Kind::Edge),
        4 => Some(Kind::Vertex),
        _ => None,
    }
}

/// The least number of a kind in use above the one given.
fn after_of_kind(arena: &Arena, kind: Kind, last: u32) -> Option<u32>
    ensures { IsNextNumber (store_of arena.now.model) kind last result }
{
    arena.after_number(kind, last)
}

/// The least number in use above the one given, of the kind that C means.
pub fn number_after(arena: &Arena, entity: u32, last: u32) -> Option<u32>
    ensures { IsNumberAfter (kind_of entity) last arena.now.model result }
{
    match kind_of(entity) {
        Some(kind) => after_of_kind(arena, kind, last),
        None => None,
    }
}

/// The point of a vertex.
pub fn vertex(arena: &Arena, vertex: u32) -> Option<Place>
    ensures { result ≡ point_in vertex arena.now.model }
{
    if !arena.has(Kind::Vertex, vertex) {
        return None;
    }
    let Point { x, y, z } = arena.point(vertex);
    Some(Place { x, y, z })
}
