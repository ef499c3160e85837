//! A face in which edges are drawn between its pairs.
ghost use Rattle.std.specs.Prelude.{◌≡◌, ◌∷◌, [], map, IfOk, OnOk};
ghost use Rattle.euler_operators.specs.Common.{IsCutPlane};
ghost use Rattle.shapes.specs.Common.{drawn_between};
ghost use Rattle.split_checks.specs.Cuts.{codes};
ghost use Rattle.split_checks.specs.cut_places.Noted.{AreSides};
ghost use Rattle.split_checks.specs.Progress.{drawing_of};
ghost use Rattle.split_drawing_laws.specs.drawings.DrawingOps.{face_ops};
ghost use Rattle.split_drawing.specs.solid_drawing.Drawn.{CanDrawFace, put_aside};
ghost use Rattle.undo_journal.specs.Journal.{after_steps, IsFurther};

use crate::face_drawing::{draw_pair, draw_pairs, join_pairs, ring_free};
use crate::solid_drawing::rings::share_rings;
use euler_operators::Plane;
use split_checks::{Pair, Progress, Sides};
use std::alloc::{AllocError, Global};
use undo_journal::Draft;

/// Draws an edge between the only pair of face f, which stands in one loop: it cuts off a new face, to which the rings above the plane go.
/// It answers how far the drawing has come. On `AllocError` the edge may be drawn.
#[tactic(auto, using(undo_journal::proofs::Marks::further_on))]
fn draw_alone(
    alloc: Global,
    draft: &mut Draft,
    plane: Plane,
    sides: &mut Sides,
    from: Progress,
    f: u32,
    pair: Pair,
) -> Result<Progress, AllocError>
    requires plane { IsCutPlane plane }
    requires sides { AreSides draft.old.model plane sides.old }
    requires can { CanDrawFace plane f (codes pair ∷ []) (drawing_of from draft.old.model []) }
    ensures drawn { IfOk result (λ drawn. drawing_of drawn draft.new.model [] ≡ put_aside (drawn_between plane f (codes pair ∷ []) (drawing_of from draft.old.model []))) }
    ensures steps { OnOk result (draft.new ≡ after_steps draft.old (face_ops plane f (codes pair ∷ []) (drawing_of from draft.old.model []))) }
    ensures sides { OnOk result (AreSides draft.new.model plane sides.new) }
    ensures further { IsFurther draft.old draft.new }
{
    let taken = draw_pair(draft, from.taken, pair)?;
    share_rings(alloc, draft, plane, sides, f, taken.faces)?;
    Ok(Progress { taken, ..from })
}

/// Draws edges between the pairs of face f: pairs in different loops are joined, and then each pair that is left cuts off a new face. If
/// there is only one pair, the rings above the plane go to the new face. It answers how far the drawing has come. Of several pairs those
/// that are left are kept in the list, whatever was there. On `AllocError` some edges may be drawn.
#[tactic(auto, using(undo_journal::proofs::Marks::further_on))]
pub(crate) fn draw_face(
    alloc: Global,
    draft: &mut Draft,
    plane: Plane,
    sides: &mut Sides,
    from: Progress,
    f: u32,
    pairs: &[Pair],
    left: &mut Vec<Pair>,
) -> Result<Progress, AllocError>
    requires plane { IsCutPlane plane }
    requires sides { AreSides draft.old.model plane sides.old }
    requires can { CanDrawFace plane f (map codes pairs.now) (drawing_of from draft.old.model []) }
    ensures drawn { IfOk result (λ drawn. drawing_of drawn draft.new.model [] ≡ put_aside (drawn_between plane f (map codes pairs.now) (drawing_of from draft.old.model []))) }
    ensures steps { OnOk result (draft.new ≡ after_steps draft.old (face_ops plane f (map codes pairs.now) (drawing_of from draft.old.model []))) }
    ensures sides { OnOk result (AreSides draft.new.model plane sides.new) }
    ensures further { IsFurther draft.old draft.new }
{
    if pairs.len() == 1 {
        return draw_alone(alloc, draft, plane, sides, from, f, pairs[0]);
    }
    let joined = join_pairs(draft, from, f, pairs, left)?;
    let looked_at = ring_free(draft.arena(), joined, f, pairs.len());
    let drawn = draw_pairs(draft, looked_at, f, left.as_slice())?;
    Ok(drawn)
}
