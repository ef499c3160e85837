//! Pairs of half-edges between which edges are drawn.
ghost use Rattle.std.specs.Prelude.{◌≡◌, true};
ghost use Rattle.euler_operators.specs.Common.{code, has_half, is_ring_of, loop_of, face_at};
ghost use Rattle.euler_conditions.specs.Ready.{IsReady};
ghost use Rattle.shapes.specs.Common.{in_one_loop, join_pair};
ghost use Rattle.split_checks.specs.Cuts.{codes};

use euler_conditions::Arena;
use euler_operators::{HalfEdge, Op};
use split_checks::Pair;

/// Whether the two stand in one loop.
pub(crate) fn in_one_loop(arena: &Arena, pair: Pair) -> bool
    requires up { has_half arena.now.model (code pair.up) ≡ true }
    requires down { has_half arena.now.model (code pair.down) ≡ true }
    ensures { result ≡ in_one_loop arena.now.model (codes pair) }
{
    arena.loop_of(pair.up) == arena.loop_of(pair.down)
}

/// Whether the first stands in a ring of its face.
fn starts_in_ring(arena: &Arena, pair: Pair) -> bool
    requires ready { IsReady arena.now }
    requires up { has_half arena.now.model (code pair.up) ≡ true }
    ensures { result ≡ is_ring_of arena.now.model (face_at arena.now.model (code pair.up)) (loop_of arena.now.model (code pair.up)) }
{
    let l = arena.loop_of(pair.up);
    arena.is_ring(arena.face_of(l), l)
}

/// The operator that joins the loops of the two by this edge. If the first stands in a ring, the edge leads from the second to the first,
/// otherwise from the first to the second.
pub(crate) fn join_op(arena: &Arena, pair: Pair, edge: u32) -> Op
    requires ready { IsReady arena.now }
    requires up { has_half arena.now.model (code pair.up) ≡ true }
    ensures { result ≡ join_pair arena.now.model (codes pair) edge }
{
    let made = HalfEdge { edge, first: true };
    if starts_in_ring(arena, pair) {
        Op::Mekr(pair.down.corner(), pair.up.corner(), made)
    } else {
        Op::Mekr(pair.up.corner(), pair.down.corner(), made)
    }
}
