//! The first pass over the pairs of a face: pairs in different loops are joined.
ghost use Rattle.std.specs.Prelude.{◌≡◌, ◌≤◌, ◌+◌, true, [], None, OnOk, OnErr, IfOk, fold, map};
ghost use Rattle.euler_operators.specs.Common.{code, has_half, first_false};
ghost use Rattle.undo_journal.specs.Journal.{after_step, after_steps, IsFurther};
ghost use Rattle.shapes.specs.Common.{join_next};
ghost use Rattle.shapes.specs.Common as ops;
ghost use Rattle.split_checks.specs.Cuts.{codes};
ghost use Rattle.split_checks.specs.Progress.{drawing_of};
ghost use Rattle.split_drawing_laws.specs.drawings.DrawingOps.{join_ops};
ghost use Rattle.split_drawing.specs.face_drawing.Passes.{CanJoin};

use crate::face_drawing::pairs::{in_one_loop, join_op};
use solid_walks::Counters;
use split_checks::{Pair, Progress};
use std::alloc::AllocError;
use undo_journal::Draft;

/// Joins the loops of a pair by the next edge, and counts it.
fn join_pair(draft: &mut Draft, taken: Counters, pair: Pair) -> Result<Counters, AllocError>
    requires up { has_half draft.old.model (code pair.up) ≡ true }
    requires left { taken.edges + 1 ≤ 1000000 }
    requires accepted { first_false draft.old.model (ops.join_pair draft.old.model (codes pair) (taken.edges + 1)) ≡ None }
    ensures counted { IfOk result (λ next. next ≡ record taken { edges = taken.edges + 1 }) }
    ensures ok { OnOk result (draft.new ≡ after_step draft.old (ops.join_pair draft.old.model (codes pair) (taken.edges + 1))) }
    ensures err { OnErr result (draft.new ≡ draft.old) }
    ensures further { IsFurther draft.old draft.new }
{
    let op = join_op(draft.arena(), pair, taken.edges + 1);
    draft.step_accepted(op)?;
    Ok(Counters {
        edges: taken.edges + 1,
        ..taken
    })
}

/// Joins the pairs of face f that stand in different loops, each when its turn comes, and answers how far the drawing has come. It leaves
/// in the list exactly the pairs that stood in one loop, in their order. On `AllocError` some may be joined.
#[tactic(auto, using(undo_journal::proofs::Marks::further_none))]
pub(crate) fn join_pairs(
    draft: &mut Draft,
    from: Progress,
    f: u32,
    pairs: &[Pair],
    left: &mut Vec<Pair>,
) -> Result<Progress, AllocError>
    requires { CanJoin f (drawing_of from draft.old.model []) (map codes pairs.now) }
    ensures joined { IfOk result (λ joined. drawing_of joined draft.new.model (map codes left.new.items) ≡ fold join_next (drawing_of from draft.old.model []) (map codes pairs.now)) }
    ensures steps { OnOk result (draft.new ≡ after_steps draft.old (join_ops (drawing_of from draft.old.model []) (map codes pairs.now))) }
    ensures further { IsFurther draft.old draft.new }
{
    left.clear();
    let mut progress = from;
    let mut rest = pairs;
    'pairs: while let [pair, others @ ..] = rest {
        if in_one_loop(draft.arena(), *pair) {
            left.push(*pair)?;
        } else {
            let taken = join_pair(draft, progress.taken, *pair)?;
            progress = Progress { taken, ..progress };
        }
        rest = others;
    }
    Ok(progress)
}
