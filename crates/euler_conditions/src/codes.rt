#![tactic(auto, using(crate::proofs::Coded::coded, crate::proofs::Coded::flipped, crate::proofs::Known::in_a_loop, euler_operators::proofs::Common::mate_there))]
//! Half-edges by their codes, for walks that look at many of them: a code is one number to carry and to compare.
ghost use Rattle.std.specs.Prelude.{◌≡◌, true};
ghost use Rattle.euler_operators.specs.Common.{mate, after, has_half, round, tail, Sound};

use euler_operators::HalfEdge;
use halfedge_arena::Arena;

/// The vertex at which the half-edge of a code starts.
pub(crate) fn tail_of_code(arena: &Arena, code: u32) -> u32
    requires { has_half arena.now.model code ≡ true }
    ensures { result ≡ tail arena.now.model code }
{
    arena.tail(HalfEdge::of_code(code))
}

/// The code of the item after a half-edge in its loop.
pub fn next_code(arena: &Arena, code: u32) -> u32
    requires sound { Sound arena.now.model }
    requires there { has_half arena.now.model code ≡ true }
    ensures next { result ≡ after arena.now.model code }
    ensures there { has_half arena.now.model result ≡ true }
{
    arena.next(HalfEdge::of_code(code)).code()
}

/// The code of the same edge in the opposite direction. The two codes differ in the lowest bit.
pub fn mate_code(code: u32) -> u32
    ensures { result ≡ mate code }
{
    code ^ 1
}

/// The code of the next half-edge that leaves the same vertex.
pub fn round_code(arena: &Arena, code: u32) -> u32
    requires sound { Sound arena.now.model }
    requires there { has_half arena.now.model code ≡ true }
    ensures round { result ≡ round arena.now.model code }
    ensures there { has_half arena.now.model result ≡ true }
{
    next_code(arena, mate_code(code))
}
