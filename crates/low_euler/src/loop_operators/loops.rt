//! Edges between two loops of a face: an edge that stands in one loop is killed, which parts the loop in two, or an edge is made between
//! two loops, which become one.
ghost use Rattle.std.specs.Prelude.{◌≡◌};
ghost use Rattle.euler_conditions.specs.Ready.{Accepts, after};

use crate::steps::{kill_edge, loop_at, make_edge, tail_at};
use euler_conditions::Arena;
use euler_operators::{Corner, HalfEdge, Kind, Op};

/// Kills an edge that stands twice in one loop. What stands between the edge's mate and `half` keeps the loop; what stands between `half`
/// and its mate becomes a new ring of the face. A part that holds nothing becomes lone. The cost is that of the shorter of the two parts,
/// and of finding the new ring's place among the loops of the face.
pub(crate) fn kemr(arena: &mut Arena, half: HalfEdge, ring: u32)
    requires { Accepts arena.old (Op.Kemr half ring) }
    ensures { arena.new ≡ after arena.old (Op.Kemr half ring) }
{
    let face = arena.face_of(arena.loop_of(half));
    let _in_use = arena.has(Kind::Face, face);
    arena.put_loop(ring, face);
    arena.cut(half, half.mate(), ring);
    kill_edge(arena, half);
}

/// Makes an edge between two corners of one face; the second stands in a ring. `half` starts at the first corner. The ring goes, and what
/// stood in it now stands in the first corner's loop, between `half` and its mate. The cost is that of the shorter of the two loops.
pub(crate) fn mekr(arena: &mut Arena, first: Corner, second: Corner, half: HalfEdge)
    requires { Accepts arena.old (Op.Mekr first second half) }
    ensures { arena.new ≡ after arena.old (Op.Mekr first second half) }
{
    let start = tail_at(arena, first);
    let end = tail_at(arena, second);
    let ring = loop_at(arena, second);
    make_edge(arena, first, second, half, start, end);
    arena.join(half, half.mate());
    arena.take_loop(ring);
}
