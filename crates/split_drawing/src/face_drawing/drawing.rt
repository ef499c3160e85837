//! The second pass over the pairs of a face: each pair that is left cuts off a new face.
ghost use Rattle.std.specs.Prelude.{◌≡◌, ◌≤◌, ◌+◌, None, OnOk, OnErr, IfOk, fold, map};
ghost use Rattle.euler_operators.specs.Common.{first_false};
ghost use Rattle.undo_journal.specs.Journal.{after_step, after_steps, IsFurther};
ghost use Rattle.shapes.specs.Common.{draw_next};
ghost use Rattle.shapes.specs.Common as ops;
ghost use Rattle.split_checks.specs.Cuts.{codes};
ghost use Rattle.split_drawing_laws.specs.drawings.DrawingOps.{draw_ops};
ghost use Rattle.split_drawing.specs.face_drawing.Stuck.{stuck_at};
ghost use Rattle.split_checks.specs.Progress.{drawing_of};
ghost use Rattle.solid_walks.specs.Counters.{taken_of};
ghost use Rattle.split_drawing.specs.face_drawing.Passes.{CanDraw};

use crate::face_drawing::pairs::in_one_loop;
use euler_operators::{HalfEdge, Op};
use solid_walks::Counters;
use split_checks::{Pair, Progress};
use std::alloc::AllocError;
use undo_journal::Draft;

/// Cuts off a new face between the two of a pair, with the next edge, face and loop, and counts these.
#[inline(always)]
pub(crate) fn draw_pair(
    draft: &mut Draft,
    taken: Counters,
    pair: Pair,
) -> Result<Counters, AllocError>
    requires faces_left { taken.faces + 1 ≤ 1000000 }
    requires loops_left { taken.loops + 1 ≤ 1000000 }
    requires edges_left { taken.edges + 1 ≤ 1000000 }
    requires accepted { first_false draft.old.model (ops.draw_pair (taken_of taken) (codes pair)) ≡ None }
    ensures counted { IfOk result (λ next. next ≡ record taken { faces = taken.faces + 1; loops = taken.loops + 1; edges = taken.edges + 1 }) }
    ensures ok { OnOk result (draft.new ≡ after_step draft.old (ops.draw_pair (taken_of taken) (codes pair))) }
    ensures err { OnErr result (draft.new ≡ draft.old) }
    ensures further { IsFurther draft.old draft.new }
{
    let made = HalfEdge {
        edge: taken.edges + 1,
        first: true,
    };
    draft.step_accepted(Op::Mef(pair.up, pair.down, made, taken.faces + 1, taken.loops + 1))?;
    Ok(Counters {
        faces: taken.faces + 1,
        loops: taken.loops + 1,
        edges: taken.edges + 1,
        ..taken
    })
}

/// The progress after face f has proved not to be drawable. If an earlier face has proved so, that face stays.
pub(crate) fn stuck_at(progress: Progress, f: u32) -> Progress
    ensures { result ≡ stuck_at progress f }
{
    if progress.stuck == 0 {
        Progress {
            stuck: f,
            ..progress
        }
    } else {
        progress
    }
}

/// Cuts off new faces from face f between the pairs, each of which stands in one loop when its turn comes, and answers how far the drawing
/// has come. If a pair stands in different loops, f can't be drawn. On `AllocError` some may be cut off.
#[tactic(auto, using(undo_journal::proofs::Marks::further_none))]
pub(crate) fn draw_pairs(
    draft: &mut Draft,
    from: Progress,
    f: u32,
    pairs: &[Pair],
) -> Result<Progress, AllocError>
    requires { CanDraw f (drawing_of from draft.old.model (map codes pairs.now)) (map codes pairs.now) }
    ensures drawn { IfOk result (λ next. drawing_of next draft.new.model (map codes pairs.now) ≡ fold (draw_next f) (drawing_of from draft.old.model (map codes pairs.now)) (map codes pairs.now)) }
    ensures steps { OnOk result (draft.new ≡ after_steps draft.old (draw_ops f (drawing_of from draft.old.model (map codes pairs.now)) (map codes pairs.now))) }
    ensures further { IsFurther draft.old draft.new }
{
    let mut progress = from;
    let mut rest = pairs;
    'pairs: while let [pair, others @ ..] = rest {
        if in_one_loop(draft.arena(), *pair) {
            let taken = draw_pair(draft, progress.taken, *pair)?;
            progress = Progress { taken, ..progress };
        } else {
            progress = stuck_at(progress, f);
        }
        rest = others;
    }
    Ok(progress)
}
