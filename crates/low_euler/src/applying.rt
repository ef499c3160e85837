//! Applies operators, and answers the inverse of each if it is asked for.
ghost use Rattle.std.specs.Prelude.{◌≡◌, is_some};
ghost use Rattle.euler_operators.specs.Common.{inverse};
ghost use Rattle.euler_conditions.specs.Ready.{IsReady, Accepts, after};
ghost use Rattle.low_euler.specs.Room.{faces_for};
ghost use Rattle.low_euler.specs.Told.{told_inverse, AcceptsTold, after_told};

use crate::face_operators::{kfmrh, merge, mfkrh, outer, part, ring_in, ring_out};
use crate::inverse::inverse_of;
use crate::loop_operators::{kef, kemr, mef, mekr};
use crate::making::MovedFaces;
use crate::vertex_operators::{kev, kvfs, mev, mvfs};
use euler_conditions::Arena;
use euler_operators::Op;

/// Applies an operator.
fn change(arena: &mut Arena, op: &Op)
    requires { Accepts arena.old op.now }
    ensures { arena.new ≡ after arena.old op.now }
{
    match op {
        Op::Mvfs(s, f, l, v, point) => mvfs(arena, *s, *f, *l, *v, *point),
        Op::Kvfs(s) => kvfs(arena, *s),
        Op::Mev(from, to, h, v, point) => mev(arena, from.corner(), to.corner(), *h, *v, *point),
        Op::Kev(h) => kev(arena, *h),
        Op::Mef(from, to, h, f, l) => mef(arena, *from, *to, *h, *f, *l),
        Op::Kef(h) => kef(arena, *h),
        Op::Kemr(h, l) => kemr(arena, *h, *l),
        Op::Mekr(from, to, h) => mekr(arena, from.corner(), to.corner(), *h),
        Op::Kfmrh(kept, killed) => kfmrh(arena, *kept, *killed),
        Op::Mfkrh(l, f) => mfkrh(arena, *l, *f),
        Op::RingIn(l, f) => ring_in(arena, *l, *f),
        Op::RingOut(l, f) => ring_out(arena, *l, *f),
        Op::Outer(l, f) => outer(arena, *l, *f),
        Op::Merge(kept, gone) => merge(arena, *kept, *gone),
        Op::Part(kept, made, faces) => part(arena, *kept, *made, faces),
    }
}

/// Applies an operator that is accepted and whose numbers have their room. The model becomes the one after the operator, and is sound; no
/// room is made, and none is lost. It takes no memory and always succeeds. Its cost is that of the change; a merge looks at the faces that
/// it moves, and at the faces of the other solid whose numbers lie between theirs.
pub fn replay(arena: &mut Arena, op: &Op)
    requires { Accepts arena.old op.now }
    ensures effect { arena.new ≡ after arena.old op.now }
    ensures ready { IsReady arena.new }
    ensures room { arena.new.room ≡ arena.old.room }
{
    change(arena, op);
}

/// Applies an operator as `replay` does, and answers the operator that takes it back. In the model after, that inverse is accepted, its
/// numbers have their room, and its effect is the model before. `room` is what `room_op` gave for `op` in this model.
///
/// It takes no memory and always succeeds. Its cost is that of the change.
#[tactic(auto, using(crate::proofs::Undone::inverse_accepted, crate::proofs::Undone::inverse_back))]
pub fn apply(arena: &mut Arena, op: &Op, room: MovedFaces) -> Op
    requires accepted { Accepts arena.old op.now }
    requires listed { room.faces ≡ faces_for arena.old.model op.now }
    ensures effect { arena.new ≡ after arena.old op.now }
    ensures ready { IsReady arena.new }
    ensures inverse { result ≡ inverse arena.old.model op.now }
    ensures accepted { Accepts arena.new result }
    ensures undone { after arena.new result ≡ arena.old }
    ensures room { arena.new.room ≡ arena.old.room }
{
    let back = inverse_of(arena, op, room);
    replay(arena, op);
    back
}

/// Applies the inverse that an operator tells, and answers whether it tells one.
#[inline(always)]
fn change_back(arena: &mut Arena, op: &Op) -> bool
    requires { AcceptsTold arena.old (told_inverse op.now) }
    ensures told { result ≡ is_some (told_inverse op.now) }
    ensures effect { arena.new ≡ after_told arena.old (told_inverse op.now) }
{
    match op {
        Op::Mvfs(s, _, _, _, _) => kvfs(arena, *s),
        Op::Mev(_, _, h, _, _) => kev(arena, *h),
        Op::Mef(_, _, h, _, _) => kef(arena, *h),
        Op::Part(kept, made, _) => merge(arena, *kept, *made),
        _ => return false,
    }
    true
}

/// Applies the inverse that an operator tells, as `replay` does, and answers `true`: mvfs, mev, mef and Part tell theirs. Of any other
/// operator it answers `false`, and nothing has changed.
#[inline(always)]
pub fn replay_told(arena: &mut Arena, op: &Op) -> bool
    requires { AcceptsTold arena.old (told_inverse op.now) }
    ensures told { result ≡ is_some (told_inverse op.now) }
    ensures effect { arena.new ≡ after_told arena.old (told_inverse op.now) }
    ensures ready { IsReady arena.new }
{
    change_back(arena, op)
}
