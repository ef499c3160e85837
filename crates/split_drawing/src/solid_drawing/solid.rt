//! A solid whose edges are cut and whose faces are drawn.
ghost use Rattle.std.specs.Prelude.{◌≡◌, ◌≤◌, [], length, map, IfOk, OnOk};
ghost use Rattle.euler_operators.specs.Common.{IsCutPlane};
ghost use Rattle.shapes.specs.Common.{faces_drawn, with_drawings};
ghost use Rattle.split_drawing.specs.edge_cutting.Begins.{CanBeCut};
ghost use Rattle.split_checks.specs.Progress.{drawing_of};
ghost use Rattle.split_checks.specs.Cuts.{AreCuts, codes, how_many_pairs, paired};
ghost use Rattle.split_checks.specs.cut_places.Noted.{AreSides};
ghost use Rattle.split_drawing_laws.specs.drawings.DrawingOps.{ops_from};
ghost use Rattle.split_drawing_laws.specs.pairs.Laws.{rewriting_ops};
ghost use Rattle.split_drawing.specs.solid_drawing.Drawn.{CanDrawFaces, put_aside};
ghost use Rattle.undo_journal.specs.Journal.{after_steps, IsFurther};

use crate::edge_cutting::cut_edges;
use crate::solid_drawing::face::draw_face;
use crate::solid_drawing::places::pairs_started;
use euler_operators::Plane;
use split_checks::{Cuts, Pair, PairedFace, Progress, Sides};
use std::alloc::{AllocError, Global};
use undo_journal::Draft;

/// Draws edges between the pairs of some faces, one face after the other, and answers how far the drawing has come. The pairs come in the
/// order of their faces. On `AllocError` some may be drawn.
#[tactic(auto, using(undo_journal::proofs::Marks::further_none, undo_journal::proofs::Marks::further_on))]
fn draw_faces(
    alloc: Global,
    draft: &mut Draft,
    plane: Plane,
    sides: &mut Sides,
    from: Progress,
    faces: &[PairedFace],
    pairs: &[Pair],
) -> Result<Progress, AllocError>
    requires plane { IsCutPlane plane }
    requires sides { AreSides draft.old.model plane sides.old }
    requires enough { how_many_pairs faces.now ≤ length pairs.now }
    requires can { CanDrawFaces (paired faces.now (map codes pairs.now)) (drawing_of from draft.old.model []) }
    ensures drawn { IfOk result (λ drawn. drawing_of drawn draft.new.model [] ≡ put_aside (faces_drawn plane (drawing_of from draft.old.model []) (paired faces.now (map codes pairs.now)))) }
    ensures steps { OnOk result (draft.new ≡ after_steps draft.old (ops_from plane (drawing_of from draft.old.model []) (paired faces.now (map codes pairs.now)))) }
    ensures sides { OnOk result (AreSides draft.new.model plane sides.new) }
    ensures further { IsFurther draft.old draft.new }
{
    let mut progress = from;
    let mut left = Vec::new(alloc);
    let mut rest = faces;
    let mut later = pairs;
    'faces: while let [face, others @ ..] = rest {
        let (mine, more) = later.split_at(face.pairs);
        progress = draw_face(
            alloc, draft, plane, sides, progress, face.face, mine, &mut left,
        )?;
        rest = others;
        later = more;
    }
    Ok(progress)
}

/// Cuts the edges of solid s that cross the plane, and then draws edges between the cut places of its faces that straddle. These are the
/// first two rewritings of a split. It is asked that the plane can begin to split s, and that these are its cuts. It answers the greatest
/// numbers then taken, and the first face that can't be drawn, or 0. Sides that aren't noted in `sides` are computed, and then noted.
///
/// On `AllocError` the draft may have taken some steps. The session from which the draft came is kept, and `abandon` gives it back.
#[tactic(auto, using(undo_journal::proofs::Marks::further_on))]
pub fn draw_solid(
    alloc: Global,
    draft: &mut Draft,
    s: u32,
    plane: &Plane,
    cuts: &Cuts,
    sides: &mut Sides,
) -> Result<Progress, AllocError>
    requires begins { CanBeCut draft.old.model s plane.now }
    requires cuts { AreCuts draft.old.model plane.now s cuts.now }
    requires sides { AreSides draft.old.model plane.now sides.old }
    ensures drawn { IfOk result (λ drawn. drawing_of drawn draft.new.model [] ≡ put_aside (with_drawings draft.old.model s plane.now)) }
    ensures steps { OnOk result (draft.new ≡ after_steps draft.old (rewriting_ops draft.old.model s plane.now)) }
    ensures sides { OnOk result (AreSides draft.new.model plane.now sides.new) }
    ensures further { IsFurther draft.old draft.new }
{
    // the draft's model is sound
    draft.stays_consistent();
    let taken = cut_edges(draft, s, plane, cuts.edges.as_slice())?;
    let started = pairs_started(alloc, draft.arena(), *plane, sides, cuts.pairs.as_slice())?;
    let from = Progress { taken, stuck: 0 };
    let faces = cuts.faces.as_slice();
    draw_faces(alloc, draft, *plane, sides, from, faces, started.as_slice())
}
