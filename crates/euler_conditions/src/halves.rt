#![tactic(auto, using(euler_laws::proofs::Common::half_of, euler_laws::proofs::Common::of_half, euler_laws::proofs::Common::half_after, euler_operators::proofs::Common::loop_there, crate::proofs::Known::in_a_loop, crate::proofs::Known::mate_edge, crate::proofs::Known::same_test))]
//! A half-edge's mate, vertex, next item, loop and face, and whether two are the same.
ghost use Rattle.std.specs.Prelude.{◌≡◌, true, nat_eq};
ghost use Rattle.euler_operators.specs.Common.{code, mate, after, tail, loop_of, face_at};
ghost use Rattle.halfedge_arena.specs.Store.{has_number};
ghost use Rattle.euler_conditions.specs.Ready.{IsReady};

use crate::faces;
use euler_operators::{HalfEdge, Kind};
use halfedge_arena::Arena;

/// Whether the two are the same half-edge.
pub fn same(a: HalfEdge, b: HalfEdge) -> bool
    ensures { result ≡ nat_eq (code a) (code b) }
{
    a == b
}

/// The same edge in the opposite direction.
pub fn mate(h: HalfEdge) -> HalfEdge
    ensures mate { code result ≡ mate (code h) }
    ensures edge { result.edge ≡ h.edge }
{
    h.mate()
}

/// The vertex at which the half-edge starts.
pub(crate) fn tail(arena: &Arena, h: HalfEdge) -> u32
    requires { has_number arena.now Kind.Edge h.edge ≡ true }
    ensures { result ≡ tail arena.now.model (code h) }
{
    arena.tail(h)
}

/// The next item of the half-edge's loop.
pub fn next(arena: &Arena, h: HalfEdge) -> HalfEdge
    requires ready { IsReady arena.now }
    requires there { has_number arena.now Kind.Edge h.edge ≡ true }
    ensures next { code result ≡ after arena.now.model (code h) }
    ensures there { has_number arena.now Kind.Edge result.edge ≡ true }
{
    arena.next(h)
}

/// The loop in which the half-edge stands.
pub fn loop_of(arena: &Arena, h: HalfEdge) -> u32
    requires ready { IsReady arena.now }
    requires there { has_number arena.now Kind.Edge h.edge ≡ true }
    ensures is { result ≡ loop_of arena.now.model (code h) }
    ensures there { has_number arena.now Kind.Loop result ≡ true }
{
    arena.loop_of(h)
}

/// The face of the loop in which the half-edge stands.
pub(crate) fn face_at(arena: &Arena, h: HalfEdge) -> u32
    requires ready { IsReady arena.now }
    requires there { has_number arena.now Kind.Edge h.edge ≡ true }
    ensures is { result ≡ face_at arena.now.model (code h) }
    ensures there { has_number arena.now Kind.Face result ≡ true }
{
    faces::face_of(arena, loop_of(arena, h))
}
