//! The face of a loop, whether the loop is a ring of it, and whether a face has rings.
ghost use Rattle.std.specs.Prelude.{◌≡◌, true};
ghost use Rattle.euler_operators.specs.Common.{face_of, is_ring_of, has_rings};
ghost use Rattle.halfedge_arena.specs.Store.{has_number};
ghost use Rattle.euler_conditions.specs.Ready.{IsReady};

use euler_operators::Kind;
use halfedge_arena::Arena;

/// The face of the loop.
pub(crate) fn face_of(arena: &Arena, l: u32) -> u32
    requires ready { IsReady arena.now }
    requires there { has_number arena.now Kind.Loop l ≡ true }
    ensures is { result ≡ face_of arena.now.model l }
    ensures there { has_number arena.now Kind.Face result ≡ true }
{
    arena.face_of(l)
}

/// Whether the loop is a ring of its face.
pub(crate) fn is_ring(arena: &Arena, l: u32) -> bool
    requires ready { IsReady arena.now }
    requires there { has_number arena.now Kind.Loop l ≡ true }
    ensures { result ≡ is_ring_of arena.now.model (face_of arena.now.model l) l }
{
    arena.is_ring(face_of(arena, l), l)
}

/// Whether the face has a ring.
#[inline(always)]
#[tactic(auto, unfolding(euler_operators::specs::Conditions::has_rings))]
pub(crate) fn has_rings(arena: &Arena, f: u32) -> bool
    requires { has_number arena.now Kind.Face f ≡ true }
    ensures { result ≡ has_rings arena.now.model f }
{
    arena.ring_count(f) > 0
}
