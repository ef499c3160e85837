//! A half-edge that goes into a loop or leaves one.
ghost use Rattle.std.specs.Prelude.{◌≡◌};
ghost use Rattle.euler_operators.specs.Common.{code};
ghost use Rattle.low_euler.specs.steps.Steps.{IsStanding, IsLoose, put_before, take_out};

use euler_conditions::{Arena, same};
use euler_operators::HalfEdge;

/// Puts `half`, which is loose, before `corner` in its loop.
#[inline(always)]
#[tactic(auto, using(crate::proofs::Prelude::in_no_loop))]
pub(crate) fn put_before(arena: &mut Arena, corner: HalfEdge, half: HalfEdge)
    requires corner { IsStanding arena.old.model (code corner) }
    requires half { IsLoose arena.old (code half) }
    ensures { arena.new ≡ put_before arena.old (code corner) (code half) }
{
    let last = arena.prev(corner);
    arena.join_alone(last, half);
}

/// Takes a half-edge out of its loop. A loop that held nothing else becomes lone.
#[inline(always)]
pub(crate) fn take_out(arena: &mut Arena, half: HalfEdge)
    requires { IsStanding arena.old.model (code half) }
    ensures { arena.new ≡ take_out arena.old (code half) }
{
    let last = arena.prev(half);
    if same(last, half) {
        let emptied = arena.loop_of(half);
        let vertex = arena.tail(half);
        arena.clear(emptied);
        arena.set_lone(emptied, vertex);
    } else {
        arena.cut_alone(last, half);
    }
}
