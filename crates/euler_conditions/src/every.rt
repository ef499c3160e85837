//! The conditions of every operator.
ghost use Rattle.std.specs.Prelude.{◌≡◌};
ghost use Rattle.euler_operators.specs.Common.{first_false, verdict};
ghost use Rattle.euler_conditions.specs.Ready.{IsReady};

use crate::killing::{check_kef, check_kemr, check_kev, check_kfmrh, check_kvfs};
use crate::making::{check_mef, check_mekr, check_mev, check_mfkrh, check_mvfs};
use crate::moving::{check_merge, check_outer, check_ring_in, check_ring_out};
use crate::parts::check_part;
use euler_operators::{Op, Refusal};
use halfedge_arena::Arena;

/// Whether an operator can be done: `Ok` exactly if all of its conditions hold, otherwise the first false one with its value.
///
/// It takes no memory. For kev it walks once round the kept vertex, for part over the half-edges of the listed faces; for the others it
/// looks at a few rows.
#[inline(always)]
pub fn check(arena: &Arena, op: &Op) -> Result<(), Refusal>
    requires { IsReady arena.now }
    ensures { result ≡ verdict (first_false arena.now.model op.now) }
{
    match op {
        Op::Mvfs(solid, face, outer, vertex, point) => check_mvfs(
            arena, *solid, *face, *outer, *vertex, *point,
        ),
        Op::Kvfs(solid) => check_kvfs(arena, *solid),
        Op::Mev(from, to, made, vertex, point) => check_mev(
            arena,
            from.corner(),
            to.corner(),
            *made,
            *vertex,
            *point,
        ),
        Op::Kev(gone) => check_kev(arena, *gone),
        Op::Mef(from, to, made, face, outer) => check_mef(arena, *from, *to, *made, *face, *outer),
        Op::Kef(gone) => check_kef(arena, *gone),
        Op::Kemr(gone, ring) => check_kemr(arena, *gone, *ring),
        Op::Mekr(from, to, made) => check_mekr(arena, from.corner(), to.corner(), *made),
        Op::Kfmrh(kept, killed) => check_kfmrh(arena, *kept, *killed),
        Op::Mfkrh(ring, face) => check_mfkrh(arena, *ring, *face),
        Op::RingIn(ring, face) => check_ring_in(arena, *ring, *face),
        Op::RingOut(ring, face) => check_ring_out(arena, *ring, *face),
        Op::Outer(ring, face) => check_outer(arena, *ring, *face),
        Op::Merge(kept, gone) => check_merge(arena, *kept, *gone),
        Op::Part(solid, made, faces) => check_part(arena, *solid, *made, faces),
    }
}
