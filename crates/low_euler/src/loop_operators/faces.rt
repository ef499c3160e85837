//! Edges across a face: an edge is made that parts a face in two, or is killed with the face on its other side.
ghost use Rattle.std.specs.Prelude.{◌≡◌};
ghost use Rattle.euler_conditions.specs.Ready.{Accepts, after};

use crate::steps::{kill_edge, make_edge_after};
use euler_conditions::Arena;
use euler_operators::{HalfEdge, Kind, Op};

/// Makes an edge between two corners of one loop, which parts the loop's face. `half` starts at the first corner. The new face's outer loop
/// consists of what stands from the first corner up to before the second, and then the mate of `half`; the rest keeps its loop and its
/// face. The cost is that of the shorter of the two loops, and of finding the places of the new loop and face among those of their owners.
#[inline(always)]
pub fn mef(
    arena: &mut Arena,
    first: HalfEdge,
    second: HalfEdge,
    half: HalfEdge,
    face: u32,
    outer: u32,
)
    requires { Accepts arena.old (Op.Mef first second half face outer) }
    ensures { arena.new ≡ after arena.old (Op.Mef first second half face outer) }
{
    let (start, last) = arena.tail_and_prev(first);
    let end = arena.tail(second);
    let old_face = arena.face_of(arena.loop_of(first));
    let solid = arena.solid_of(old_face);
    let _in_use = arena.has(Kind::Solid, solid);
    arena.put_loop(outer, face);
    make_edge_after(arena, last, first, second, half, start, end);
    arena.cut(half, half.mate(), outer);
    arena.put_face(face, solid, outer);
}

/// Kills an edge between two faces, with the face of the edge's mate and the one loop of that face. What stands in that
/// loop goes to the loop of `half`, in the edge's place. The cost is that of the shorter of the two loops.
#[inline(always)]
pub fn kef(arena: &mut Arena, half: HalfEdge)
    requires { Accepts arena.old (Op.Kef half) }
    ensures { arena.new ≡ after arena.old (Op.Kef half) }
{
    let mate = half.mate();
    let killed = arena.loop_of(mate);
    let face = arena.face_of(killed);
    arena.join(half, mate);
    kill_edge(arena, half);
    arena.take_loop(killed);
    arena.take_face(face);
}
