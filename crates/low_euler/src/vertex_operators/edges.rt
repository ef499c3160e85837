//! An edge with a vertex at its far end.
ghost use Rattle.std.specs.Prelude.{◌≡◌};
ghost use Rattle.euler_conditions.specs.Ready.{Accepts, after};

use crate::reading;
use crate::steps::{kill_edge, make_edge, make_edge_after, move_tails};
use euler_conditions::Arena;
use euler_operators::{Corner, HalfEdge, Op, Point};

/// Makes an edge from the vertex of two corners to a new vertex, in one of two ways. At half-edges, `half` is put before the first and its
/// mate before the second; if the two are the same, `half` and then its mate are put before it. The half-edges round the old vertex, from
/// the first up to before the second, then start at the new vertex, as the mate does. At a lone loop, given twice, the loop becomes `half`
/// and its mate.
///
/// The edge's and the vertex's numbers are free and have their room, and the point is in range. It costs as many steps
/// as half-edges move to the new vertex, takes no memory and never fails.
#[inline(always)]
#[tactic(auto, using(crate::proofs::vertex_operators_laws::Corners::lone_accepts, crate::proofs::vertex_operators_laws::Corners::never_mixed, crate::proofs::vertex_operators_laws::Corners::lone_after))]
pub fn mev(
    arena: &mut Arena,
    first: Corner,
    second: Corner,
    half: HalfEdge,
    vertex: u32,
    point: Point,
)
    requires { Accepts arena.old (Op.Mev first second half vertex point) }
    ensures { arena.new ≡ after arena.old (Op.Mev first second half vertex point) }
{
    match first {
        Corner::Lone(l) => mev_lone(arena, l, half, vertex, point),
        Corner::At(from) => match second {
            Corner::At(to) => mev_at(arena, from, to, half, vertex, point),
            Corner::Lone(_) => unreachable!(),
        },
    }
}

/// At a lone loop.
#[inline(always)]
#[tactic(auto, using(crate::proofs::vertex_operators_laws::LoneSteps::goes))]
fn mev_lone(arena: &mut Arena, l: u32, half: HalfEdge, vertex: u32, point: Point)
    requires { Accepts arena.old (Op.Mev (Corner.Lone l) (Corner.Lone l) half vertex point) }
    ensures { arena.new ≡ after arena.old (Op.Mev (Corner.Lone l) (Corner.Lone l) half vertex point) }
{
    let old = reading::lone_vertex(arena, l);
    arena.put_vertex(vertex, point);
    make_edge(arena, Corner::Lone(l), Corner::At(half), half, old, vertex);
}

/// At two half-edges of one vertex.
#[inline(always)]
#[tactic(auto, using(crate::proofs::vertex_operators_laws::CornerSteps::goes))]
fn mev_at(
    arena: &mut Arena,
    from: HalfEdge,
    to: HalfEdge,
    half: HalfEdge,
    vertex: u32,
    point: Point,
)
    requires { Accepts arena.old (Op.Mev (Corner.At from) (Corner.At to) half vertex point) }
    ensures { arena.new ≡ after arena.old (Op.Mev (Corner.At from) (Corner.At to) half vertex point) }
{
    let (old, last) = arena.tail_and_prev(from);
    move_tails(arena, from, to, vertex);
    arena.put_vertex(vertex, point);
    make_edge_after(arena, last, from, to, half, old, vertex);
}

/// Kills an edge, whose two ends no other edge joins, and the vertex at which the mate starts. What else started there then starts at the
/// kept vertex, where `half` starts. A loop of the two half-edges alone becomes lone at the kept vertex; otherwise the kept vertex has
/// another half-edge than `half`.
///
/// It costs as many steps as half-edges start at the killed vertex, takes no memory and never fails.
#[inline(always)]
pub fn kev(arena: &mut Arena, half: HalfEdge)
    requires { Accepts arena.old (Op.Kev half) }
    ensures { arena.new ≡ after arena.old (Op.Kev half) }
{
    let mate = half.mate();
    let kept = arena.tail(half);
    let killed = arena.tail(mate);
    let following = arena.next(half);
    move_tails(arena, following, mate, kept);
    kill_edge(arena, half);
    arena.take_vertex(killed);
}
