//! An edge that is made between two corners, or killed.
ghost use Rattle.std.specs.Prelude.{◌≡◌, true, false};
ghost use Rattle.euler_operators.specs.Common.{code, mate, before};
ghost use Rattle.euler_conditions.specs.Store.{has_room, has_number};
ghost use Rattle.low_euler.specs.steps.Steps.{LoopsStandApart, IsStanding, IsUnused, CanTake, with_edge, put_before, put_at, take_out, make_edge, kill_edge};

use crate::steps::corners::put_at;
use crate::steps::halves::{put_before, take_out};
use euler_conditions::{Arena, same};
use euler_operators::{Corner, HalfEdge, Kind};

/// Makes the edge of `half`, which starts at one vertex and ends at another. Both its half-edges are loose.
#[inline(always)]
#[tactic(auto, using(crate::proofs::steps_laws::StoreSteps::put_edge_first, crate::proofs::steps_laws::StoreSteps::put_edge_second))]
fn put_edge(arena: &mut Arena, half: HalfEdge, start: u32, end: u32)
    requires room { has_room arena.old Kind.Edge half.edge ≡ true }
    requires free { has_number arena.old Kind.Edge half.edge ≡ false }
    ensures { arena.new ≡ with_edge arena.old (code half) start end }
{
    if half.first {
        arena.put_edge(half.edge, start, end);
    } else {
        arena.put_edge(half.edge, end, start);
    }
}

/// Makes an edge between two corners: `half`, which starts at one vertex and ends at another, is put at the first, and then its
/// mate at the second.
#[inline(always)]
pub(crate) fn make_edge(
    arena: &mut Arena,
    first: Corner,
    second: Corner,
    half: HalfEdge,
    start: u32,
    end: u32,
)
    requires room { has_room arena.old Kind.Edge half.edge ≡ true }
    requires free { has_number arena.old Kind.Edge half.edge ≡ false }
    requires unused { IsUnused arena.old (code half) }
    requires first { CanTake (with_edge arena.old (code half) start end).model first }
    requires second { CanTake (put_at (with_edge arena.old (code half) start end) first (code half)).model second }
    ensures { arena.new ≡ make_edge arena.old first second (code half) start end }
{
    put_edge(arena, half, start, end);
    put_at(arena, first, half);
    put_at(arena, second, half.mate());
}

/// Makes an edge between two half-edges, as `make_edge` does at their corners. `last` stands before the first of them. If the two are the
/// same, the mate is put there first and `half` goes between `last` and the mate, so that `half`'s row is read in only one splice.
#[inline(always)]
pub(crate) fn make_edge_after(
    arena: &mut Arena,
    last: HalfEdge,
    first: HalfEdge,
    second: HalfEdge,
    half: HalfEdge,
    start: u32,
    end: u32,
)
    requires room { has_room arena.old Kind.Edge half.edge ≡ true }
    requires free { has_number arena.old Kind.Edge half.edge ≡ false }
    requires unused { IsUnused arena.old (code half) }
    requires last { code last ≡ before (with_edge arena.old (code half) start end).model (code first) }
    requires first { IsStanding (with_edge arena.old (code half) start end).model (code first) }
    requires second { IsStanding (put_before (with_edge arena.old (code half) start end) (code first) (code half)).model (code second) }
    requires apart { code second ≡ code first → LoopsStandApart (with_edge arena.old (code half) start end).model }
    ensures { arena.new ≡ make_edge arena.old (Corner.At first) (Corner.At second) (code half) start end }
{
    put_edge(arena, half, start, end);
    if same(first, second) {
        arena.join_alone(last, half.mate());
        arena.join_alone(last, half);
    } else {
        arena.join_alone(last, half);
        put_before(arena, second, half.mate());
    }
}

/// Kills an edge: the mate of `half` is taken out of its loop, and then `half`.
#[inline(always)]
pub(crate) fn kill_edge(arena: &mut Arena, half: HalfEdge)
    requires mate { IsStanding arena.old.model (mate (code half)) }
    requires half { IsStanding (take_out arena.old (mate (code half))).model (code half) }
    ensures { arena.new ≡ kill_edge arena.old (code half) }
{
    take_out(arena, half.mate());
    take_out(arena, half);
    arena.take_edge(half.edge);
}
