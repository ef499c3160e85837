//! Rings of a face while it is drawn.
ghost use Rattle.std.specs.Prelude.{◌≡◌, ◌&&◌, true, cond, nat_lt, OnOk};
ghost use Rattle.euler_laws.specs.Laws.{AreAccepted};
ghost use Rattle.euler_operators.specs.Common.{has_rings};
ghost use Rattle.euler_conditions.specs.Store.{has_number};
ghost use Rattle.split_drawing_laws.specs.drawings.DrawingOps.{ring_ops};
ghost use Rattle.split_drawing.specs.face_drawing.Stuck.{stuck_at};
ghost use Rattle.undo_journal.specs.Journal.{after_steps, IsFurther};

use crate::face_drawing::drawing::stuck_at;
use euler_conditions::Arena;
use euler_operators::{Kind, Op};
use split_checks::Progress;
use std::alloc::AllocError;
use undo_journal::Draft;

/// How far the drawing has come after face f, which has so many pairs, is looked at between the two passes: a face with more than one pair
/// that has a ring can't be drawn.
pub(crate) fn ring_free(arena: &Arena, progress: Progress, f: u32, count: usize) -> Progress
    requires { has_number arena.now Kind.Face f ≡ true }
    ensures { result ≡ cond (nat_lt 1 count && has_rings arena.now.model f) (stuck_at progress f) progress }
{
    if count > 1 && arena.ring_count(f) > 0 {
        stuck_at(progress, f)
    } else {
        progress
    }
}

/// Gives the rings to the face `to`, if each of these operators is accepted in its turn. On `AllocError` some may be given.
#[tactic(auto, using(undo_journal::proofs::Marks::further_none))]
pub(crate) fn move_rings(draft: &mut Draft, rings: &[u32], to: u32) -> Result<(), AllocError>
    requires { AreAccepted draft.old.model (ring_ops rings.now to) }
    ensures steps { OnOk result (draft.new ≡ after_steps draft.old (ring_ops rings.now to)) }
    ensures further { IsFurther draft.old draft.new }
{
    let mut rest = rings;
    'rings: while let [l, others @ ..] = rest {
        draft.step_accepted(Op::RingIn(*l, to))?;
        rest = others;
    }
    Ok(())
}
