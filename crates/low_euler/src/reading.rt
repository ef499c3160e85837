//! The corner after a half-edge, the vertex of a lone loop, and the law that a number in use has its room.
ghost use Rattle.std.specs.Prelude.{◌≡◌, true, nat_eq, cond};
ghost use Rattle.euler_operators.specs.Common.{code, half, after, content, is_lone, lone_vertex};
ghost use Rattle.euler_conditions.specs.Store.{has_number, has_room};
ghost use Rattle.euler_conditions.specs.Ready.{IsReady};

use euler_conditions::{Arena, next, same};
use euler_operators::{Content, Corner, HalfEdge, Kind};

/// The corner at the item after a half-edge. If that item is `end`, it is the corner of the lone loop l.
#[tactic(auto, using(crate::proofs::Inverses::half_then))]
pub(crate) fn corner_after(arena: &Arena, h: HalfEdge, end: HalfEdge, l: u32) -> Corner
    requires ready { IsReady arena.now }
    requires there { has_number arena.now Kind.Edge h.edge ≡ true }
    ensures { result ≡ cond (nat_eq (after arena.now.model (code h)) (code end)) (Corner.Lone l) (Corner.At (half (after arena.now.model (code h)))) }
{
    let following = next(arena, h);
    if same(following, end) {
        Corner::Lone(l)
    } else {
        Corner::At(following)
    }
}

/// The vertex of a lone loop.
pub(crate) fn lone_vertex(arena: &Arena, l: u32) -> u32
    requires there { has_number arena.now Kind.Loop l ≡ true }
    requires lone { is_lone (content arena.now.model l) ≡ true }
    ensures { result ≡ lone_vertex (content arena.now.model l) }
{
    match arena.content(l) {
        Content::Lone(vertex) => vertex,
        Content::Ring(_) => unreachable!(),
    }
}

/// A number in use has its room. This function does nothing: its contract is what is proved.
pub(crate) fn in_use(arena: &Arena, kind: Kind, number: u32)
    requires { has_number arena.now kind number ≡ true }
    ensures { has_room arena.now kind number ≡ true }
{
    let _in_use = arena.has(kind, number);
}
