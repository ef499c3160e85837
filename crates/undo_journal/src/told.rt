//! Inverses that operators tell, and inverses that are kept for those that don't.
ghost use Rattle.std.specs.Prelude.{◌≡◌, ◌<◌, [], ◌∷◌, length, reverse, take, drop, slice_index_or};
ghost use Rattle.euler_laws.specs.Laws.{AreAccepted};
ghost use Rattle.low_euler.specs.Ready.{IsReady};
ghost use Rattle.low_euler.specs.Told.{told_inverse};
ghost use Rattle.undo_journal.specs.Records.{op_of};
ghost use Rattle.undo_journal.specs.Sessions.{AllHaveRoom, all_after};
ghost use Rattle.undo_journal.specs.Told.{tells, untold_in, inverses_of, next_inverse, left_after, taken_back, step_inverses};

use crate::record::Listed;
use euler_operators::Op;
use low_euler::{Arena, replay, replay_told};

/// The inverse of an operator, if the operator alone tells it.
pub(crate) fn told_inverse(op: &Op) -> Option<Op>
    ensures { result ≡ told_inverse op.now }
{
    match op {
        Op::Mvfs(solid, _, _, _, _) => Some(Op::Kvfs(*solid)),
        Op::Mev(_, _, half, _, _) => Some(Op::Kev(*half)),
        Op::Mef(_, _, half, _, _) => Some(Op::Kef(*half)),
        Op::Part(kept, made, _) => Some(Op::Merge(*kept, *made)),
        _ => None,
    }
}

/// Whether an operator tells its inverse.
#[inline(always)]
pub(crate) fn tells(op: &Op) -> bool
    ensures { result ≡ tells op.now }
{
    matches!(op, Op::Mvfs(..) | Op::Mev(..) | Op::Mef(..) | Op::Part(..))
}

/// How many of some operators don't tell their inverses.
pub(crate) fn untold_in(ops: &[Op]) -> usize
    ensures { result ≡ untold_in ops.now }
{
    ops.iter().filter(|op| !tells(op)).count()
}

/// Applies the inverse of an operator that tells it.
pub(crate) fn replay_paired(arena: &mut Arena, op: &Op)
    requires ready { IsReady arena.old }
    requires accepted { AreAccepted arena.old.model (inverses_of (op.now ∷ []) []) }
    requires room { AllHaveRoom arena.old (inverses_of (op.now ∷ []) []) }
    ensures effects { arena.new ≡ all_after arena.old (inverses_of (op.now ∷ []) []) }
    ensures ready { IsReady arena.new }
{
    let _told = replay_told(arena, op);
}

/// Takes an operator back: by the inverse that it tells, or by the last of those that were kept. It answers those that are left.
#[inline(always)]
fn replay_one<'a>(arena: &mut Arena, op: &Op, kept: &'a [Op]) -> &'a [Op]
    requires ready { IsReady arena.old }
    requires accepted { AreAccepted arena.old.model (next_inverse (told_inverse op.now) (reverse kept.now)) }
    requires room { AllHaveRoom arena.old (next_inverse (told_inverse op.now) (reverse kept.now)) }
    ensures effects { arena.new ≡ all_after arena.old (next_inverse (told_inverse op.now) (reverse kept.now)) }
    ensures ready { IsReady arena.new }
    ensures left { reverse result.now ≡ left_after (told_inverse op.now) (reverse kept.now) }
{
    if replay_told(arena, op) {
        return kept;
    }
    match kept {
        [others @ .., inverse] => {
            replay(arena, inverse);
            others
        }
        [] => kept,
    }
}

/// Takes some operators back, the last first: by the inverse that each tells, or by the last of those inverses that were kept and are left.
/// Each is accepted at its turn and has its room. It takes no memory.
pub(crate) fn replay_back(arena: &mut Arena, ops: &[Op], untold: &[Op])
    requires ready { IsReady arena.old }
    requires accepted { AreAccepted arena.old.model (taken_back ops.now untold.now) }
    requires room { AllHaveRoom arena.old (taken_back ops.now untold.now) }
    ensures effects { arena.new ≡ all_after arena.old (taken_back ops.now untold.now) }
    ensures ready { IsReady arena.new }
{
    let mut rest = ops;
    let mut kept = untold;
    'ops: while let [others @ .., op] = rest {
        kept = replay_one(arena, op, kept);
        rest = others;
    }
}

/// Takes the steps of a draft from a place on back, and drops them and their inverses. It takes no memory.
pub(crate) fn take_back(arena: &mut Arena, steps: &mut Vec<Op>, untold: &mut Vec<Op>, place: usize)
    requires ready { IsReady arena.old }
    requires whole { length (taken_back steps.old.items untold.old.items) ≡ length steps.old.items }
    requires accepted { AreAccepted arena.old.model (reverse (drop place (step_inverses steps.old.items untold.old.items))) }
    requires room { AllHaveRoom arena.old (reverse (drop place (step_inverses steps.old.items untold.old.items))) }
    ensures effects { arena.new ≡ all_after arena.old (reverse (drop place (step_inverses steps.old.items untold.old.items))) }
    ensures ready { IsReady arena.new }
    ensures steps { steps.new.items ≡ take place steps.old.items }
    ensures inverses { step_inverses steps.new.items untold.new.items ≡ take place (step_inverses steps.old.items untold.old.items) }
{
    if steps.len() <= place {
        return;
    }
    let later = &steps[place..];
    replay_back(arena, later, untold.as_slice());
    let left = untold.len().saturating_sub(untold_in(later));
    untold.truncate(left);
    steps.truncate(place);
}

/// Of what takes some operators back, the operator with this index.
pub(crate) fn inverse_at<'a>(ops: &'a [Op], untold: &'a [Op], index: usize) -> Listed<'a>
    requires whole { length (taken_back ops.now untold.now) ≡ length ops.now }
    requires inside { index < length ops.now }
    ensures { op_of result ≡ slice_index_or (taken_back ops.now untold.now) index (op_of result) }
{
    let place = ops.len() - 1 - index;
    match told_inverse(&ops[place]) {
        Some(inverse) => Listed::Made(inverse),
        None => Listed::Kept(&untold[untold.len() - 1 - untold_in(&ops[place + 1..])]),
    }
}
