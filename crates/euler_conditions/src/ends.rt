//! The tests of kev: the least parallel edge of an edge, and whether its kept end is bare.
ghost use Rattle.std.specs.Prelude.{◌≡◌, ◌/◌, true, cond, nat_eq};
ghost use Rattle.euler_operators.specs.Common.{code, edge_of, has_half, kept_end_bare, parallel};
ghost use Rattle.halfedge_arena.specs.Store.{has_number};
ghost use Rattle.euler_conditions.specs.Ready.{IsReady};
ghost use Rattle.euler_conditions.specs.Ends.{leads_to, lesser};

use crate::codes::{mate_code, round_code, tail_of_code};
use crate::halves;
use euler_operators::{HALF_EDGE_CODES, HalfEdge, Kind};
use halfedge_arena::Arena;

/// Whether this edge alone leaves the kept vertex, while others leave the killed one.
#[inline(always)]
pub(crate) fn kept_end_bare(arena: &Arena, h: HalfEdge) -> bool
    requires ready { IsReady arena.now }
    requires there { has_number arena.now Kind.Edge h.edge ≡ true }
    ensures { result ≡ kept_end_bare arena.now.model (code h) }
{
    let mate = halves::mate(h);
    halves::same(halves::next(arena, mate), h) && !halves::same(halves::next(arena, h), mate)
}

/// The lesser of two edges; 0 means that there is none.
fn lesser(least: u32, edge: u32) -> u32
    ensures { result ≡ lesser least edge }
{
    if least == 0 { edge } else { least.min(edge) }
}

/// The lesser of `least` and the edge of half-edge `other`, or `least` if that edge is the edge of `code`. Few half-edges lead to the
/// vertex that is looked for, so this is a function of its own beside the walk.
#[inline(never)]
fn met(code: u32, least: u32, other: u32) -> u32
    ensures { result ≡ cond (nat_eq (other / 2) (code / 2)) least (lesser least (other / 2)) }
{
    if other / 2 == code / 2 {
        least
    } else {
        lesser(least, other / 2)
    }
}

/// The lesser of `least` and the edge of half-edge `other`, if `other` leads to `far` by another edge than that of `code`; otherwise
/// `least`.
#[tactic(auto, using(crate::proofs::Prelude::mate_there, crate::proofs::Known::found_then))]
fn seen(arena: &Arena, code: u32, far: u32, least: u32, other: u32) -> u32
    requires { has_half arena.now.model other ≡ true }
    ensures { result ≡ cond (leads_to arena.now.model code far other) (lesser least (edge_of other)) least }
{
    if tail_of_code(arena, mate_code(other)) == far {
        met(code, least, other)
    } else {
        least
    }
}

/// The least other edge with the same two ends, or 0. Such an edge leaves both ends, so a walk round either is enough: the two walks go in
/// step, and the shorter one ends the search. Each begins after the edge itself.
#[tactic(auto, using(crate::proofs::Coded::edge_fits, crate::proofs::Prelude::half_of, crate::proofs::Parallel::mate_there))]
pub(crate) fn parallel(arena: &Arena, h: HalfEdge) -> u32
    requires ready { IsReady arena.now }
    requires there { has_number arena.now Kind.Edge h.edge ≡ true }
    ensures { result ≡ parallel arena.now.model (code h) }
{
    let code = h.code();
    let mate = mate_code(code);
    let far = tail_of_code(arena, mate);
    let near = tail_of_code(arena, code);
    let mut g = round_code(arena, code);
    if g == code {
        return 0;
    }
    let mut opposite = round_code(arena, mate);
    if opposite == mate {
        return 0;
    }
    let (mut least, mut opposite_least) = (0, 0);
    'round: for _ in 1..HALF_EDGE_CODES {
        least = seen(arena, code, far, least, g);
        g = round_code(arena, g);
        if g == code {
            return least;
        }
        opposite_least = seen(arena, mate, near, opposite_least, opposite);
        opposite = round_code(arena, opposite);
        if opposite == mate {
            return opposite_least;
        }
    }
    least
}
