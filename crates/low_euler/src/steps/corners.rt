//! What stands at a corner, and a half-edge that is put there.
ghost use Rattle.std.specs.Prelude.{◌≡◌};
ghost use Rattle.euler_operators.specs.Common.{code, corner_tail, corner_loop};
ghost use Rattle.low_euler.specs.steps.Steps.{IsCorner, CanTake, IsLoose, put_at};

use crate::steps::halves;
use euler_conditions::Arena;
use euler_operators::{Content, Corner, HalfEdge};

/// The loop in which a corner stands.
pub(crate) fn loop_at(arena: &Arena, corner: Corner) -> u32
    requires { IsCorner arena.now.model corner }
    ensures { result ≡ corner_loop arena.now.model corner }
{
    match corner {
        Corner::At(half) => arena.loop_of(half),
        Corner::Lone(l) => l,
    }
}

/// The vertex of a corner.
pub(crate) fn tail_at(arena: &Arena, corner: Corner) -> u32
    requires { IsCorner arena.now.model corner }
    ensures { result ≡ corner_tail arena.now.model corner }
{
    match corner {
        Corner::At(half) => arena.tail(half),
        Corner::Lone(l) => match arena.content(l) {
            Content::Lone(vertex) => vertex,
            Content::Ring(_) => unreachable!(),
        },
    }
}

/// Puts `half`, which is loose, before the half-edge of a corner, or into the corner's loop if it is lone.
#[tactic(auto, using(euler_operators::proofs::Common::in_no_loop))]
#[inline(always)]
pub(crate) fn put_at(arena: &mut Arena, corner: Corner, half: HalfEdge)
    requires corner { CanTake arena.old.model corner }
    requires half { IsLoose arena.old (code half) }
    ensures { arena.new ≡ put_at arena.old corner (code half) }
{
    match corner {
        Corner::At(next) => halves::put_before(arena, next, half),
        Corner::Lone(l) => arena.fill(l, half),
    }
}
